// The top call.
ghost use Rattle.std.specs.Prelude.{◌≡◌, ◌≤◌, drop, length, map, string_bytes, ℕ};
ghost use Rattle.flume_run.specs.Cached.{CachedPromises, lends_to, without_entries};
ghost use Rattle.flume_run.specs.Lent.{lends};
ghost use Rattle.flume_run.specs.Promises.{Promises};
ghost use Rattle.outside.specs.Says.{HasLine};
ghost use Rattle.made_course.specs.of_run_course.Outside.{world};
ghost use Rattle.run_texts.specs.Lines.{line_of};
ghost use Rattle.run_texts.specs.declared.status.Status.TheVariants.{WantOfMemory};

use cache_store::{Cache, NoCache};
use cached_course::{memory_law, run_cached};
use command_words::{cached_for, workload_for};
use made_course::make;
use made_course::run_course::run;
use outside::{Host, Screen, Shelf, Source};
use run_texts::{Status, tell};
use std::alloc::Global;
use std::thread::Threads;

/// Runs the command that the words of a command line ask for, and answers how that ended.
///
/// The words are the program's name, a command, and what it needs. `make` needs two numbers: it
/// writes a made input and its sums, which are worked out as a run works out its outputs, and asks
/// the source for nothing. The others, `check`, `plan`, `direct` and `run`, need the name of a
/// script. The script is loaded from the source, parsed and checked. `check` then says `ok`, and
/// `plan` shows the execution graph and the plan. For `direct` and `run` each input that the script
/// needs is loaded and decoded, in order of the script. `direct` works out the script's direct
/// meaning; `run` has the tasks of the plan made by workers, each on a host that it is lent, the
/// first hosts, in a thread of its own. An attempt of a task whose host is down, or that the drill
/// names, is lost, and the task is tried again, as often as `--tries` says. With `--plan` the plan
/// is that of a file, which is loaded behind the inputs: it is run where its rewrites lead from the
/// script's graph to it, and refused else.
///
/// Only then the output files are written to the shelf, in order of the output statements, and then
/// the text of the screen: for `run` the execution graph and the plan, for `direct` and `run` the
/// size of each needed collection, and `done`, and for `make` a line of its own. Whatever the
/// schedule of the workers and whichever attempts were lost, the files of `run` are those of
/// `direct`. Where a call of a function traps, the answer is for `direct` the least of the traps.
/// For `run` it is the trap, or the task that was given up, that comes first by phases and by
/// tasks. Else it is the first refusal that is met, and the screen gets its line. Every growth
/// comes before the shelf's first `begin`.
///
/// With the flag `--cached` a run reuses what earlier ones have kept: what the outputs read is
/// looked for in the cache, behind the inputs. What is found there is not worked out again, and
/// what is not found is kept behind the last output file. No failure of the cache changes the
/// answer.
///
/// What is promised is `CachedPromises` (specs/Cached.antt): for words with that flag the
/// `ReusePromises` of cached_course, and for all others `Promises` (specs/Promises.antt), with the
/// cache untouched: for `make` the fields of `Makes` (specs/Makes.antt of made_course), and for the
/// others those of `ScriptPromises` of run_course. Hosts that are not lent are as they were.
pub fn flume_cached<X: Threads + Sync, R: Source, H: Host + Send, K: Shelf, P: Screen, C: Cache>(
    rt: &X,
    alloc: Global,
    words: &[String],
    source: &mut R,
    hosts: &mut [H],
    shelf: &mut K,
    screen: &mut P,
    cache: &mut C,
) -> Status
    requires { length hosts.old ≡ 16 }
    ensures promises { CachedPromises (map string_bytes words.now)
        (world (R.seen source.old) (K.seen shelf.old) (P.seen screen.old) (map H.account hosts.old))
        (world (R.seen source.new) (K.seen shelf.new) (P.seen screen.new) (map H.account hosts.new))
        (C.seen cache.old) (C.seen cache.new) result }
    ensures hosts { drop (lends_to (map string_bytes words.now)) hosts.new
        ≡ drop (lends_to (map string_bytes words.now)) hosts.old }
{
    memory_law();
    match cached_for(alloc, words) {
        Ok(Some(wanted)) => {
            let status = run_cached(
                rt,
                alloc,
                &wanted.settings,
                wanted.script,
                source,
                hosts,
                shelf,
                screen,
                cache,
            );
            drop(wanted);
            status
        }
        Ok(None) => uncached(rt, alloc, words, source, hosts, shelf, screen),
        Err(_) => no_memory(screen),
    }
}

/// The same over a cache that has nothing and keeps nothing.
pub fn flume<X: Threads + Sync, R: Source, H: Host + Send, K: Shelf, P: Screen>(
    rt: &X,
    alloc: Global,
    words: &[String],
    source: &mut R,
    hosts: &mut [H],
    shelf: &mut K,
    screen: &mut P,
) -> Status
    requires { length hosts.old ≡ 16 }
    ensures promises { (failures : ℕ) × CachedPromises (map string_bytes words.now)
        (world (R.seen source.old) (K.seen shelf.old) (P.seen screen.old) (map H.account hosts.old))
        (world (R.seen source.new) (K.seen shelf.new) (P.seen screen.new) (map H.account hosts.new))
        (without_entries 0) (without_entries failures) result }
    ensures hosts { drop (lends_to (map string_bytes words.now)) hosts.new
        ≡ drop (lends_to (map string_bytes words.now)) hosts.old }
{
    let mut cache = NoCache::new();
    flume_cached(rt, alloc, words, source, hosts, shelf, screen, &mut cache)
}

// The same of words that ask for no cached run.
fn uncached<X: Threads + Sync, R: Source, H: Host + Send, K: Shelf, P: Screen>(
    rt: &X,
    alloc: Global,
    words: &[String],
    source: &mut R,
    hosts: &mut [H],
    shelf: &mut K,
    screen: &mut P,
) -> Status
    requires { length hosts.old ≡ 16 }
    ensures promises { Promises (map string_bytes words.now)
        (world (R.seen source.old) (K.seen shelf.old) (P.seen screen.old) (map H.account hosts.old))
        (world (R.seen source.new) (K.seen shelf.new) (P.seen screen.new) (map H.account hosts.new))
        result }
    ensures hosts { drop (lends (map string_bytes words.now)) hosts.new
        ≡ drop (lends (map string_bytes words.now)) hosts.old }
{
    match workload_for(alloc, words) {
        Ok(Some(workload)) => make(rt, alloc, workload, hosts, shelf, screen),
        Ok(None) => run(rt, alloc, words, source, hosts, shelf, screen),
        Err(_) => no_memory(screen),
    }
}

// What is answered where no memory was found for the words themselves.
fn no_memory<P: Screen>(screen: &mut P) -> Status
    ensures answer { result ≡ WantOfMemory }
    ensures line { HasLine (line_of WantOfMemory) (P.seen screen.old) (P.seen screen.new) }
    ensures later { (P.seen screen.old).faults ≤ (P.seen screen.new).faults }
{
    tell(screen, &Status::WantOfMemory);
    Status::WantOfMemory
}
