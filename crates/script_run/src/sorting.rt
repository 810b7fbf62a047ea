// The members of an output, sorted. What reducers gave is ascending, partition by partition: such
// runs are merged, and not sorted anew.
ghost use Rattle.std.specs.Prelude.{◌≡◌, IfOk};
ghost use Rattle.flume_value.specs.Bag.{bag_of};

use flume_value::{Value, compare, sorted_by_threads};
use std::alloc::AllocError;
use std::thread::Threads;

/// How many runs a list may have at most for them to be merged.
const MOST_RUNS: usize = 64;

/// The bag of the values: its members in ascending order. A list of few ascending runs is sorted by
/// merging these, and any other by as many threads.
pub(crate) fn sorted_list<X: Threads + Sync>(
    rt: &X,
    threads: usize,
    values: Vec<Value>,
) -> Result<Vec<Value>, AllocError>
    ensures { IfOk result (λ all. all.items ≡ bag_of values.items) }
{
    if has_few_runs(&values) {
        merged_runs(values)
    } else {
        sorted_by_threads(rt, threads, values)
    }
}

/// Whether the values are so few ascending runs. It looks no further than to the end of the last
/// that may be.
fn has_few_runs(values: &[Value]) -> bool {
    let ends = values
        .iter()
        .zip(values.iter().skip(1))
        .filter(|both| compare(both.0, both.1).is_gt())
        .take(MOST_RUNS)
        .count();
    ends < MOST_RUNS
}

// A stable sort takes runs that are there already, and merges them.
#[tactic(auto, using(crate::proofs::SortedRules::sorted_rules))]
fn merged_runs(mut values: Vec<Value>) -> Result<Vec<Value>, AllocError>
    ensures { IfOk result (λ all. all.items ≡ bag_of values.items) }
{
    values.sort()?;
    Ok(values)
}
