// The lists of the collections that a stage reads.
ghost use Rattle.std.specs.Prelude.{◌≡◌, slice_get};
ghost use Rattle.flume_collection.specs.Calls.{or_none};
ghost use Rattle.map_shard.specs.Tables.{table};

use exec_plan::PlanPlace;
use flume_value::{Items, Pile, Value};

/// The list of a collection, where these are the lists of the sources and of the results of stages.
pub fn list_of<'a>(
    sources: &'a [Items],
    results: &'a [Pile<Items>],
    place: PlanPlace,
) -> &'a [Value]
    ensures { result.now ≡ table sources.now results.now place }
{
    match place {
        PlanPlace::Source(number) => list_at(sources, number),
        PlanPlace::Result { stage, number } => {
            if stage == 0 {
                return &[];
            }
            match results.get((stage - 1) as usize) {
                Some(lists) => list_at(lists.as_slice(), number),
                None => &[],
            }
        }
    }
}

// The list of that number, or none.
fn list_at(lists: &[Items], number: u32) -> &[Value]
    ensures { result.now ≡ or_none (slice_get lists.now number) }
{
    match lists.get(number as usize) {
        Some(list) => list.as_slice(),
        None => &[],
    }
}
