// What a run that reuses what was kept comes to, before anything is written.
ghost use Rattle.std.specs.Prelude.{◌≡◌, ◌≤◌, ◌<◌, ◌⊎◌, ◌++◌, IfErr, IfOk, List, None, OnOk, codes, drop, length, map, ℕ};
ghost use Rattle.std.specs.List.{AllByRecursion, AllZip};
ghost use Rattle.command_words.specs.declared.words.Command.TheVariants.{Run};
ghost use Rattle.crew.specs.Hosts.{Grew};
ghost use Rattle.flume_value.specs.Ranges.{IsHeld};
ghost use Rattle.outside.specs.Saves.{output_file};
ghost use Rattle.run_course.specs.Asked.{AskFor};
ghost use Rattle.run_course.specs.Lent.{lent};
ghost use Rattle.run_course.specs.Written.{text_shown};
ghost use Rattle.run_course.specs.inner.Course.{AsksInCall, IsRunStop, files_with};
ghost use Rattle.run_course.specs.of_script_plans.Plans.{IsScriptPlan};
ghost use Rattle.run_course.specs.of_script_run.Runs.{AsksSomePhases, IsPlanOf, phases_of};
ghost use Rattle.run_texts.specs.Texts.{size_lines};
ghost use Rattle.kept_results.specs.of_direct_meaning.Inputs.{AreInputs};
ghost use Rattle.kept_results.specs.Keyed as spec;
ghost use Rattle.kept_results.specs.Lists as lists;
ghost use Rattle.kept_results.specs.Sizes as told;
ghost use Rattle.script_program.specs.Saved.{HasNoSaved, with_saved};
ghost use Rattle.cached_course.specs.inner.Course.{AsksHostsInCall, AsksPhases, IsPrepared, IsStop, StopsRun, WasGiven, WasRun, counted_too};
ghost use Rattle.cached_course.specs.inner.Missing.{entry_of, kept_value};

use crate::found::Found;
use crate::looking::{LookedUp, looked_for};
use crate::missing::{Missing, entries_of};
use crate::short::{names_short, texts_short};
use cache_store::{Cache, CacheEntry};
use exec_plan::Plan;
use flume_value::{Items, Pile, Str};
use kept_results::{given_law, given_lists, nodes_needed, push_counted, sizes_told};
use keyed_loading::{KeyedInputs, KeyedScript, keyed_inputs, keyed_script};
use outside::{Host, Source};
use run_course::script_loading::ReadyProgram;
use run_course::script_run::Ran;
use run_course::{ShownPlan, Stop, Written, output_files, plan_shown, ran_through, with_sizes};
use run_settings::Settings;
use run_texts::Status;
use script_program::Program;
use std::alloc::{AllocError, Global};
use std::thread::Threads;

/// What a run writes, and what is kept behind it.
#[derive(Drop)]
pub struct Reused {
    pub written: Written,
    pub kept: Vec<CacheEntry>,
}

/// What a run is given that has looked for what was kept: the program in which that is kept, the
/// lists of its sources, what was kept of sizes, what was not found, and the collections whose
/// sizes are told.
#[derive(Drop)]
pub struct Given {
    pub program: ReadyProgram,
    pub lists: Pile<Items>,
    pub known: Vec<(u32, u64)>,
    pub missing: Vec<Missing>,
    pub needed: Vec<(u32, Str)>,
}

/// Does all of a run but its writing and keeping. Every growth of it is here.
#[tactic(auto, using(crew::proofs::Accounts::all_grew_not))]
pub fn prepare<X: Threads + Sync, R: Source, H: Host + Send, C: Cache>(
    rt: &X,
    alloc: Global,
    settings: &Settings,
    name: &str,
    source: &mut R,
    hosts: &mut [H],
    cache: &mut C,
) -> Result<Reused, Stop>
    requires { length hosts.old ≡ 16 }
    ensures ok { IfOk result (λ it. (words : List (List ℕ)) →
        AskFor words (Run settings.now None) name.now → IsPrepared words (R.seen source.old).files
        (map H.account hosts.old) (map H.account hosts.new) (C.seen cache.old) (C.seen cache.new)
        (map output_file it.written.outputs.items) it.written.screen.items it.kept.items) }
    ensures err { IfErr result (λ stop. (words : List (List ℕ)) →
        AskFor words (Run settings.now None) name.now →
        IsStop words (R.seen source.old) (R.seen source.new) (map H.account hosts.old)
        (map H.account hosts.new) (C.seen cache.old) (C.seen cache.new) stop) }
    ensures asked { (words : List (List ℕ)) → AskFor words (Run settings.now None) name.now →
        AsksInCall words (R.seen source.old) (R.seen source.new) result }
    ensures asked_hosts { (words : List (List ℕ)) → AskFor words (Run settings.now None) name.now →
        AsksHostsInCall words (R.seen source.old).files (map H.account hosts.old)
        (map H.account hosts.new) (C.seen cache.old) (C.seen cache.new) result }
    ensures entries { (C.seen cache.new).entries ≡ (C.seen cache.old).entries }
    ensures later { (C.seen cache.old).faults ≤ (C.seen cache.new).faults }
    ensures files { (R.seen source.new).files ≡ (R.seen source.old).files }
    ensures source { (R.seen source.old).faults ≤ (R.seen source.new).faults }
    ensures grew { AllZip Grew (map H.account hosts.old) (map H.account hosts.new) }
    ensures hosts { drop settings.now.workers hosts.new ≡ drop settings.now.workers hosts.old }
{
    let tries = settings.tries();
    let script = keyed_script(alloc, name, source, tries)?;
    let inputs = match keyed_inputs(alloc, &script.program, source, tries) {
        Ok(inputs) => inputs,
        Err(status) => {
            script.program.let_go();
            return Err(Stop::Refused(status));
        }
    };
    let texts = script.texts.as_slice();
    texts_short(texts);
    let held = script.program.as_program();
    names_short(held);
    let given = look_up(alloc, script, inputs, cache)?;
    run_given(rt, alloc, given, hosts, settings)
}

// Looks for what was kept, and takes it for a part of the inputs.
fn look_up<C: Cache>(
    alloc: Global,
    script: KeyedScript,
    inputs: KeyedInputs,
    cache: &mut C,
) -> Result<Given, AllocError>
    requires many { length script.texts ≡ length script.outlines }
    requires written { HasNoSaved script.program.script }
    requires inputs { AreInputs script.program.script inputs.rows }
    ensures given { IfOk result (WasGiven script.program.script
        (spec.keyed_nodes script.outlines script.texts inputs.files script.program.script)
        inputs.rows (C.seen cache.old) (C.seen cache.new)) }
    ensures inputs { IfOk result (λ given. AreInputs given.program.script given.lists) }
    ensures entries { (C.seen cache.new).entries ≡ (C.seen cache.old).entries }
    ensures later { (C.seen cache.old).faults ≤ (C.seen cache.new).faults }
{
    given_law();
    let KeyedScript {
        program,
        outlines,
        texts,
    } = script;
    let KeyedInputs { rows, files } = inputs;
    let held = program.as_program();
    match looked_for(alloc, held, &outlines, &texts, &files, cache) {
        Ok(it) => Ok(taken_for(alloc, program, rows, it)?),
        Err(e) => {
            program.let_go();
            Err(e)
        }
    }
}

// Takes what was found for a part of the inputs, which have these rows.
fn taken_for(
    alloc: Global,
    program: ReadyProgram,
    rows: Pile<Items>,
    it: LookedUp,
) -> Result<Given, AllocError>
    requires { it.inputs.items ≡ lists.input_numbers program.script }
    ensures program { IfOk result (λ given. given.program.script
        ≡ with_saved it.found.numbers.items program.script) }
    ensures lists { IfOk result (λ given. given.lists ≡ lists.rows_given given.program.script
        it.inputs.items rows it.found.members.items) }
    ensures known { IfOk result (λ given. given.known.items ≡ it.found.known.items) }
    ensures missing { IfOk result (λ given. given.missing.items ≡ it.missing.items) }
    ensures needed { IfOk result (λ given. given.needed.items ≡ it.needed.items) }
{
    let LookedUp {
        found,
        missing,
        needed,
        inputs,
    } = it;
    let Found {
        numbers,
        members,
        known,
    } = found;
    let kept = numbers.as_slice();
    let later = program.with_saved(kept);
    let held = later.as_program();
    let asked = inputs.as_slice();
    match given_lists(alloc, held, asked, rows, members) {
        Ok(lists) => Ok(Given {
            program: later,
            lists,
            known,
            missing,
            needed,
        }),
        Err(e) => {
            later.let_go();
            Err(e)
        }
    }
}

// Runs what is given, by the plan of its program.
#[tactic(auto, using(crew::proofs::Accounts::all_grew_not))]
fn run_given<X: Threads + Sync, H: Host + Send>(
    rt: &X,
    alloc: Global,
    given: Given,
    hosts: &mut [H],
    settings: &Settings,
) -> Result<Reused, Stop>
    requires inputs { AreInputs given.program.script given.lists }
    requires sixteen { length hosts.old ≡ 16 }
    ensures ran { IfOk result (λ it. WasRun settings.now given
        (lent settings.now (map H.account hosts.old)) (lent settings.now (map H.account hosts.new))
        (map output_file it.written.outputs.items) it.written.screen.items it.kept.items) }
    ensures stop { IfErr result (StopsRun settings.now given
        (lent settings.now (map H.account hosts.old))
        (lent settings.now (map H.account hosts.new))) }
    ensures asked { (map H.account hosts.old ≡ map H.account hosts.new) ⊎ AsksPhases settings.now
        given (lent settings.now (map H.account hosts.old))
        (lent settings.now (map H.account hosts.new)) }
    ensures grew { AllZip Grew (map H.account hosts.old) (map H.account hosts.new) }
    ensures hosts { drop settings.now.workers hosts.new ≡ drop settings.now.workers hosts.old }
{
    match plan_shown(alloc, &given.program) {
        Ok(shown) => carried_out(rt, alloc, given, shown, hosts, settings),
        Err(_) => {
            given.program.let_go();
            Err(Stop::Refused(Status::WantOfMemory))
        }
    }
}

// Runs what is given, by a plan.
fn carried_out<X: Threads + Sync, H: Host + Send>(
    rt: &X,
    alloc: Global,
    given: Given,
    shown: ShownPlan,
    hosts: &mut [H],
    settings: &Settings,
) -> Result<Reused, Stop>
    requires inputs { AreInputs given.program.script given.lists }
    requires planned { IsScriptPlan given.program.script shown.plan }
    requires of_script { IsPlanOf given.program.script shown.plan }
    requires text { shown.text.items ≡ text_shown given.program.script shown.plan }
    requires sixteen { length hosts.old ≡ 16 }
    ensures ran { IfOk result (λ it. WasRun settings.now given
        (lent settings.now (map H.account hosts.old)) (lent settings.now (map H.account hosts.new))
        (map output_file it.written.outputs.items) it.written.screen.items it.kept.items) }
    ensures stop { IfErr result (IsRunStop settings.now given.program.script given.lists
        shown.plan (lent settings.now (map H.account hosts.old))
        (lent settings.now (map H.account hosts.new))) }
    ensures asked { AsksSomePhases settings.now
        (phases_of settings.now given.program.script given.lists shown.plan)
        (lent settings.now (map H.account hosts.old))
        (lent settings.now (map H.account hosts.new)) }
    ensures grew { AllZip Grew (map H.account hosts.old) (map H.account hosts.new) }
    ensures hosts { drop settings.now.workers hosts.new ≡ drop settings.now.workers hosts.old }
{
    let Given {
        program,
        lists,
        known,
        missing,
        needed,
    } = given;
    let ShownPlan { plan, text } = shown;
    match ran_through(rt, alloc, &program, &plan, lists, hosts, settings) {
        Ok(ran) => {
            drop(plan);
            let wanted = needed.as_slice();
            let reused = written_out(alloc, &program, &ran, text, known, missing, wanted);
            drop(ran);
            program.let_go();
            let out = reused?;
            Ok(out)
        }
        Err(why) => {
            drop(plan);
            program.let_go();
            Err(why)
        }
    }
}

// The files, the text and what is kept, where a run has come to its end.
fn written_out(
    alloc: Global,
    program: &ReadyProgram,
    ran: &Ran,
    front: Vec<u8>,
    known: Vec<(u32, u64)>,
    missing: Vec<Missing>,
    needed: &[(u32, Str)],
) -> Result<Reused, AllocError>
    requires count { length ran.now.outputs.items ≡ length program.now.script.outputs }
    ensures files { IfOk result (λ it. map output_file it.written.outputs.items
        ≡ files_with program.now.script.outputs ran.now.outputs.items) }
    ensures text { IfOk result (λ it. it.written.screen.items ≡ front.items
        ++ (size_lines (told.sizes_told (counted_too program.now.script known.items
        ran.now.sizes.items) needed.now) ++ codes "done\n")) }
    ensures kept { IfOk result (λ it. it.kept.items ≡ map (entry_of program.now.script
        (counted_too program.now.script known.items ran.now.sizes.items)
        ran.now.outputs.items) missing.items) }
    ensures held { OnOk result (AllByRecursion (λ it. IsHeld (kept_value program.now.script
        (counted_too program.now.script known.items ran.now.sizes.items)
        ran.now.outputs.items it)) missing.items) }
{
    let held = program.as_program();
    let all = with_counted(alloc, held, ran, known)?;
    let told = all.as_slice();
    let members = ran.outputs.as_slice();
    let screen = with_known(alloc, front, told, needed)?;
    let kept = entries_of(alloc, held, missing, told, members)?;
    let outputs = output_files(alloc, program, members)?;
    Ok(Reused {
        written: Written { outputs, screen },
        kept,
    })
}

// What is known of sizes, and behind it what the run has counted.
fn with_counted(
    alloc: Global,
    program: &Program,
    ran: &Ran,
    known: Vec<(u32, u64)>,
) -> Result<Vec<(u32, u64)>, AllocError>
    ensures { IfOk result (λ all. all.items
        ≡ counted_too program.now.script known.items ran.now.sizes.items) }
{
    let mut known = known;
    let nodes = nodes_needed(alloc, program)?;
    let counted = nodes.as_slice();
    let sizes = ran.sizes.as_slice();
    push_counted(counted, sizes, &mut known)?;
    Ok(known)
}

// The text of the screen: the sizes of these collections behind the text that stands first.
fn with_known(
    alloc: Global,
    front: Vec<u8>,
    known: &[(u32, u64)],
    needed: &[(u32, Str)],
) -> Result<Vec<u8>, AllocError>
    ensures { IfOk result (λ text. text.items ≡ front.items
        ++ (size_lines (told.sizes_told known.now needed.now) ++ codes "done\n")) }
{
    let sizes = sizes_told(alloc, known, needed)?;
    let told = sizes.as_slice();
    let text = with_sizes(front, told)?;
    Ok(text)
}
