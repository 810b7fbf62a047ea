// A partition of a lifted channel, key by key.
ghost use Rattle.std.specs.Prelude.{◌≡◌, All, IfOk, IsSomeAnd, List, Some, length};
ghost use Rattle.flume_value.specs.declared.value.Value.{Value as GhostValue};
ghost use Rattle.partial_tables.specs.Merges.{merged_by_key};
ghost use Rattle.partial_tables.specs.Tables.{IsPartialOf, Pairs};
ghost use Rattle.shuffle_parts.specs.Outs.{all_partials};
ghost use Rattle.crew.specs.Attempts.{MadeHas};
ghost use Rattle.crew.specs.Drills.{attempt_at};
ghost use Rattle.exec_graph.specs.Forests.{numbered};
ghost use Rattle.exec_graph.specs.Wellformed.{root_comb};
ghost use Rattle.task_safety.specs.of_forest_courses.Courses.{IsCourse};
ghost use Rattle.forest_run.specs.Asked.{WasAsked};
ghost use Rattle.forest_steps.specs.Functions.{world_of};
ghost use Rattle.reduce_part.specs.inner.Merged.{AnswerFor, CanRun, IsValueOf};

use crate::out::Reduced;
use crate::reduce::reduced;
use combine_table::Comb;
use crew::{Attempt, Spot};
use exec_graph::Roots;
use forest_run::{Course, begin, walk};
use forest_steps::Functions;
use lifted_root::Keys;
use outside::Host;
use partial_tables::{Partial, merge_borrowed};
use shuffle_parts::{MapOut, gather_partials};
use std::alloc::{AllocError, Global};

/// The steps on the groups for which the accumulators answer, one a key.
pub(crate) fn reduce_merged<F: Functions, H: Host>(
    alloc: Global,
    functions: &F,
    roots: &Roots,
    comb: Comb,
    merged: Vec<Partial>,
    host: &mut H,
    spot: &Spot,
    task: u32,
) -> Result<Attempt<Reduced>, AllocError>
    requires root { root_comb roots.now ≡ Some comb }
    requires numbered { numbered 0 roots.now ≡ roots.now }
    requires shape { All (IsPartialOf comb) merged.items }
    requires ready { CanRun (world_of (F.called functions.now)) (F.can_call functions.now) comb
        roots.now merged.items }
    ensures value { IfOk result (MadeHas (λ out. (groups : List GhostValue) →
        AnswerFor (world_of (F.called functions.now)) comb merged.items
        groups → IsValueOf (F.called functions.now) (Some roots.now) groups out)) }
    ensures asked { WasAsked (attempt_at spot.now task) (length merged.items)
        (H.account host.old) (H.account host.new) result }
{
    let groups = merged.len();
    match run_merged(alloc, functions, roots, comb, merged, host, spot, task)? {
        Attempt::Made(course) => Ok(Attempt::Made(reduced(alloc, course, groups)?)),
        Attempt::Down => Ok(Attempt::Down),
    }
}

/// The accumulators of a partition of a lifted channel, merged by key where they stand.
pub(crate) fn merge_gathered(
    alloc: Global,
    comb: Comb,
    outs: &[MapOut],
    channel: usize,
    partition: usize,
) -> Result<Vec<Partial>, AllocError>
    requires { IsSomeAnd (all_partials outs.now channel partition) (All (IsPartialOf comb)) }
    ensures { IfOk result (λ merged. (partials : Pairs) →
        all_partials outs.now channel partition ≡ Some partials →
        merged.items ≡ merged_by_key comb partials) }
{
    let partials = gather_partials(alloc, outs, channel, partition)?;
    let merged = merge_borrowed(alloc, comb, partials)?;
    Ok(merged)
}

// What the steps come to on the groups for which the accumulators answer, one a key.
fn run_merged<F: Functions, H: Host>(
    alloc: Global,
    functions: &F,
    roots: &Roots,
    comb: Comb,
    merged: Vec<Partial>,
    host: &mut H,
    spot: &Spot,
    task: u32,
) -> Result<Attempt<Course>, AllocError>
    requires root { root_comb roots.now ≡ Some comb }
    requires numbered { numbered 0 roots.now ≡ roots.now }
    requires shape { All (IsPartialOf comb) merged.items }
    requires ready { CanRun (world_of (F.called functions.now)) (F.can_call functions.now) comb
        roots.now merged.items }
    ensures value { IfOk result (MadeHas (λ end. (groups : List GhostValue) →
        AnswerFor (world_of (F.called functions.now)) comb merged.items groups →
        IsCourse (world_of (F.called functions.now)) (Some roots.now) groups end)) }
    ensures asked { WasAsked (attempt_at spot.now task) (length merged.items)
        (H.account host.old) (H.account host.new) result }
{
    let (sizes, outputs) = begin(alloc, roots)?;
    let keys = Keys {
        functions,
        sizes: &sizes,
        root: &roots.steps()[0],
        comb,
        partials: merged.into_iter(),
    };
    walk(alloc, keys, outputs, host, spot, task)
}
