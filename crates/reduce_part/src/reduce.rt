// A partition of a grouping channel.
ghost use Rattle.std.specs.Prelude.{◌≡◌, ℕ, List, All, IfOk, IsSomeAnd, Option, Some, None, length};
ghost use Rattle.std.specs.List.{AllByRecursion};
ghost use Rattle.flume_value.specs.declared.value.Value.{Value as GhostValue};
ghost use Rattle.bag_groups.specs.Groups.{grouped};
ghost use Rattle.bag_groups.specs.Pairs.{IsPair};
ghost use Rattle.shuffle_parts.specs.Outs.{all_pairs};
ghost use Rattle.crew.specs.Drills.{attempt_at};
ghost use Rattle.crew.specs.Attempts.{MadeHas};
ghost use Rattle.exec_graph.specs.Forests.{Forest};
ghost use Rattle.exec_graph.specs.World.{World};
ghost use Rattle.exec_plan.specs.Wellformed.{IsNumbered};
ghost use Rattle.task_safety.specs.of_forest_courses.Courses.{IsCourse};
ghost use Rattle.forest_run.specs.Asked.{WasAsked};
ghost use Rattle.forest_steps.specs.Functions.{world_of};
ghost use Rattle.forest_steps.specs.Safety.{SafeOf};
ghost use Rattle.reduce_part.specs.Reducing.{IsGathered, IsReducedFrom, IsReduceValue, IsReducible};
ghost use Rattle.reduce_part.specs.inner.Merged.{IsValueOf};

use crate::lifted::{merge_gathered, reduce_merged};
use crate::out::{ReduceOut, Reduced};
use crew::{Attempt, Spot};
use exec_graph::Roots;
use exec_plan::Grouping;
use flume_value::{Pile, Value};
use forest_run::{Course, run_owned};
use forest_steps::{Functions, Outputs};
use key_order::group_numbered;
use outside::Host;
use shuffle_parts::{MapOut, gather_pairs};
use std::alloc::{AllocError, Global};

/// The reducer on the groups of a partition of a grouping channel, which is the output channel of
/// that number, on a host.
pub(crate) fn reduce_partition<F: Functions, H: Host>(
    alloc: Global,
    functions: &F,
    grouping: &Grouping,
    outs: &[MapOut],
    channel: usize,
    partition: usize,
    host: &mut H,
    spot: &Spot,
    task: u32,
) -> Result<Attempt<Reduced>, AllocError>
    requires ready { IsReducible (world_of (F.called functions.now)) (F.can_call functions.now)
        outs.now channel partition grouping.now }
    ensures value { IfOk result (MadeHas (IsReducedFrom (F.called functions.now) outs.now channel
        partition grouping.now)) }
    ensures asked { (pairs : List GhostValue) → IsGathered grouping.now.lifted outs.now channel
        partition pairs → WasAsked (attempt_at spot.now task) (length (grouped pairs))
        (H.account host.old) (H.account host.new) result }
{
    match (grouping.lifted, &grouping.does) {
        (None, does) => {
            let groups = group_gathered(alloc, outs, channel, partition)?;
            reduce_groups(alloc, functions, does, groups, host, spot, task)
        }
        (Some(comb), Some(roots)) => {
            let merged = merge_gathered(alloc, comb, outs, channel, partition)?;
            reduce_merged(alloc, functions, roots, comb, merged, host, spot, task)
        }
        (Some(_), None) => unreachable!(),
    }
}

// The groups of the pairs of a partition, which stay where they are.
fn group_gathered(
    alloc: Global,
    outs: &[MapOut],
    channel: usize,
    partition: usize,
) -> Result<Vec<Value>, AllocError>
    requires { IsSomeAnd (all_pairs outs.now channel partition) (All IsPair) }
    ensures { IfOk result (λ groups. (pairs : List GhostValue) →
        all_pairs outs.now channel partition ≡ Some pairs → groups.items ≡ grouped pairs) }
{
    let pairs = gather_pairs(alloc, outs, channel, partition)?;
    let groups = group_numbered(alloc, pairs)?;
    Ok(groups)
}

// The steps on the groups, which are handed over.
fn reduce_groups<F: Functions, H: Host>(
    alloc: Global,
    functions: &F,
    does: &Option<Roots>,
    groups: Vec<Value>,
    host: &mut H,
    spot: &Spot,
    task: u32,
) -> Result<Attempt<Reduced>, AllocError>
    requires numbered { IsNumbered does.now }
    requires safe { AllByRecursion (SafeOf (world_of (F.called functions.now))
        (F.can_call functions.now) does.now) groups.items }
    ensures value { IfOk result (MadeHas (IsValueOf (F.called functions.now) does.now
        groups.items)) }
    ensures asked { WasAsked (attempt_at spot.now task) (length groups.items)
        (H.account host.old) (H.account host.new) result }
{
    let count = groups.len();
    match run_owned(alloc, functions, does, groups, host, spot, task)? {
        Attempt::Made(course) => Ok(Attempt::Made(reduced(alloc, course, count)?)),
        Attempt::Down => Ok(Attempt::Down),
    }
}

/// What the groups come to, of which there are so many.
pub(crate) fn reduced(alloc: Global, course: Course, groups: usize) -> Result<Reduced, AllocError>
    ensures { (w : World) (does : Option Forest) (xs : List GhostValue) → groups ≡ length xs →
        IsCourse w does xs course → IfOk result
        (IsReduceValue w (record { elements = xs; beside = None; does = does })) }
{
    match course {
        Ok(outputs) => Ok(Ok(reduce_out(alloc, outputs, groups)?)),
        Err(trap) => Ok(Err(trap)),
    }
}

// What the steps on so many groups gave.
fn reduce_out(alloc: Global, outputs: Outputs, groups: usize) -> Result<ReduceOut, AllocError>
    ensures outputs { IfOk result (λ out. out.outputs ≡ outputs.lists) }
    ensures counts { IfOk result (λ out. out.counts ≡ outputs.counts) }
    ensures groups { IfOk result (λ out. out.groups ≡ groups) }
{
    let (outputs, counts) = outputs.into_lists(alloc)?;
    Ok(ReduceOut {
        outputs: Pile::from_vec(outputs),
        counts: Pile::from_vec(counts),
        groups: groups as u64,
    })
}
