// The lists of collections, one after another.
ghost use Rattle.std.specs.Prelude.{◌≡◌, ◌++◌, IfOk, OnOk};
ghost use Rattle.std.specs.List.{flat_map};
ghost use Rattle.stage_results.specs.of_map_shard.Tables.{table};

use exec_plan::PlanPlace;
use flume_value::{Items, Pile, Value};
use stage_results::map_shard::list_of;
use std::alloc::{AllocError, Global};

/// The lists of these collections, one after another.
pub(crate) fn flatten_lists(
    alloc: Global,
    sources: &[Items],
    results: &[Pile<Items>],
    places: &[PlanPlace],
) -> Result<Items, AllocError>
    ensures { IfOk result (λ all. all ≡ flat_map (table sources.now results.now) places.now) }
{
    let mut all = Vec::new(alloc);
    for place in places {
        append_copies(alloc, list_of(sources, results, *place), &mut all)?;
    }
    Ok(Pile::from_vec(all))
}

fn append_copies(alloc: Global, values: &[Value], all: &mut Vec<Value>) -> Result<(), AllocError>
    ensures { OnOk result (all.new.items ≡ all.old.items ++ values.now) }
{
    for value in values {
        all.push(value.copy(alloc)?)?;
    }
    Ok(())
}
