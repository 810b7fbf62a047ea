// The run of a script by its plan.
ghost use Rattle.std.specs.Prelude.{◌≡◌, ◌≤◌, IfErr, IfOk, length, map};
ghost use Rattle.std.specs.List.{AllZip};
ghost use Rattle.run_sizes.specs.of_build_law.Limits.{HasShortFlattens};
ghost use Rattle.crew.specs.Hosts.{Grew};
ghost use Rattle.run_sizes.specs.of_direct_meaning.Inputs.{AreInputs};
ghost use Rattle.flume_value.specs.Bag.{bag_of};
ghost use Rattle.run_sizes.specs.of_script_laws.WellFormed.{IsWellFormed};
ghost use Rattle.script_run.specs.Runs.{AsksSomePhases, IsPlanOf, IsRan, IsRunFault, phases_of};

use crate::laws::plan_law;
use crate::sorting::sorted_list;
use exec_plan::Plan;
use flume_value::{Items, Pile, Str};
use outside::Host;
use plan_phases::{PhaseWinners, RunFault};
use run_settings::Settings;
use run_sizes::build_law::means_law;
use run_sizes::direct_meaning::meaning_law;
use run_sizes::script_program::Program;
use run_sizes::{member_counts, needed_sizes};
use script_functions::{ScriptFunctions, world_law};
use stage_exec::execute;
use std::alloc::{AllocError, Global};
use std::thread::Threads;

/// What a run of a script comes to.
#[derive(Drop)]
pub struct Ran {
    /// For each output in order the members that it writes, ascending.
    pub outputs: Vec<Items>,
    /// The name of each needed collection in order, and how many members it has.
    pub sizes: Vec<(Str, u64)>,
    /// For each phase of the plan in order the attempts that have won its tasks.
    pub winners: Vec<PhaseWinners>,
}

/// Runs the plan of a program over the lists of its needed sources, rows of inputs and behind them
/// members of kept collections, with a worker on each of the hosts. A list is let go once the last
/// tasks that read it have run.
pub fn run_script<X: Threads + Sync, H: Host + Send>(
    rt: &X,
    alloc: Global,
    program: &Program,
    plan: &Plan,
    inputs: Pile<Items>,
    hosts: &mut [H],
    settings: &Settings,
) -> Result<Ran, RunFault>
    requires well_formed { IsWellFormed program.now.script }
    requires short { HasShortFlattens program.now.script }
    requires plan { IsPlanOf program.now.script plan.now }
    requires inputs { AreInputs program.now.script inputs }
    requires hosts { length hosts.old ≡ settings.now.workers }
    ensures grew { AllZip Grew (map H.account hosts.old) (map H.account hosts.new) }
    ensures asked { AsksSomePhases settings.now
        (phases_of settings.now program.now.script inputs plan.now)
        (map H.account hosts.old) (map H.account hosts.new) }
    ensures ran { IfOk result (IsRan settings.now program.now.script inputs plan.now
        (map H.account hosts.old) (map H.account hosts.new)) }
    ensures fault { IfErr result (IsRunFault settings.now program.now.script inputs plan.now
        (map H.account hosts.old) (map H.account hosts.new)) }
{
    plan_law();
    meaning_law();
    means_law();
    world_law();
    workers_law(settings);
    let functions = ScriptFunctions::new(program);
    let nodes = program.node_count();
    let members = member_counts(alloc, inputs.as_slice())?;
    let lists = inputs.into_vec();
    let done = execute(rt, alloc, &functions, plan, lists, nodes, hosts, settings)?;
    let sizes = needed_sizes(alloc, program, &members, done.counts.as_slice())?;
    Ok(Ran {
        outputs: all_sorted(rt, alloc, settings.workers(), done.outputs.into_vec())?,
        sizes,
        winners: done.winners.into_vec(),
    })
}

// A run has some workers, and not too many.
fn workers_law(settings: &Settings)
    ensures some { 1 ≤ settings.now.workers }
    ensures most { settings.now.workers ≤ 16 }
{
    settings.workers();
}

/// Each list sorted, by as many threads as there are workers.
fn all_sorted<X: Threads + Sync>(
    rt: &X,
    alloc: Global,
    workers: u32,
    lists: Vec<Items>,
) -> Result<Vec<Items>, AllocError>
    ensures { IfOk result (λ all. all.items ≡ map bag_of lists.items) }
{
    let mut all = Vec::with_capacity(alloc, lists.len())?;
    for list in lists {
        let members = sorted_list(rt, workers as usize, list.into_vec())?;
        all.push(Pile::from_vec(members))?;
    }
    Ok(all)
}
