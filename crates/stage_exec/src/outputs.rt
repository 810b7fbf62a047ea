// The outputs of a plan, which are moved out of the results, or out of the rows, where no later
// output needs them.
ghost use Rattle.std.specs.Prelude.{◌≡◌, IfOk, map};
ghost use Rattle.stage_results.specs.of_map_shard.Tables.{table};
ghost use Rattle.stage_exec.specs.inner.Reads.{AgreeOn};

use crate::taking::{is_among, taken};
use exec_plan::PlanPlace;
use flume_value::{Items, Pile, copy_all};
use stage_results::map_shard::list_of;
use std::alloc::{AllocError, Global};

/// The list of each of these collections, in order.
pub(crate) fn output_lists(
    alloc: Global,
    sources: Vec<Items>,
    results: Vec<Pile<Items>>,
    outputs: &[PlanPlace],
) -> Result<Pile<Items>, AllocError>
    ensures { IfOk result (λ lists.
        lists ≡ map (table sources.items results.items) outputs.now) }
{
    let mut rows = sources;
    let mut results = results;
    let mut lists = Vec::with_capacity(alloc, outputs.len())?;
    for (k, place) in outputs.iter().enumerate() {
        let later = &outputs[k + 1..];
        let list = output_list(alloc, &mut rows, &mut results, place, later)?;
        lists.push(list)?;
    }
    Ok(Pile::from_vec(lists))
}

// The list of a collection. The lists of these later outputs stay.
fn output_list(
    alloc: Global,
    sources: &mut Vec<Items>,
    results: &mut Vec<Pile<Items>>,
    place: &PlanPlace,
    later: &[PlanPlace],
) -> Result<Items, AllocError>
    ensures list { IfOk result (λ list.
        list ≡ table sources.old.items results.old.items place.now) }
    ensures others { AgreeOn later.now
        (table sources.new.items results.new.items) (table sources.old.items results.old.items) }
{
    if is_among(later, *place) {
        return copy_all(
            alloc,
            list_of(sources.as_slice(), results.as_slice(), *place),
        );
    }
    Ok(taken(alloc, sources, results, *place))
}
