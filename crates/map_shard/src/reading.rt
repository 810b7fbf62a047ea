// What an input channel reads: the elements on which its steps are called, and the value of the
// object beside which they are.
ghost use Rattle.std.specs.Prelude.{◌≡◌};
ghost use Rattle.std.specs.Option.{option_copied};
ghost use Rattle.exec_graph.specs.Objects.{only as only_member};
ghost use Rattle.map_shard.specs.Tables.{table};
ghost use Rattle.task_safety.specs.of_task_lists.Tasks.{elements_beside, value_beside};

use crate::lists::list_of;
use exec_plan::{InChannel, PlanPlace};
use flume_value::{Items, Pile, Value};

/// The value of the object of a channel, if the channel has an object, and that has a value.
pub(crate) fn object_value<'a>(
    sources: &'a [Items],
    results: &'a [Pile<Items>],
    object: Option<PlanPlace>,
) -> Option<&'a Value>
    ensures { option_copied result ≡ value_beside (table sources.now results.now) object }
{
    match object {
        None => None,
        Some(object) => only(list_of(sources, results, object)),
    }
}

/// The elements on which the steps of a channel are called: none where its object has no value.
pub(crate) fn called_on<'a>(
    sources: &'a [Items],
    results: &'a [Pile<Items>],
    channel: &InChannel,
) -> &'a [Value]
    ensures { result.now ≡ elements_beside (table sources.now results.now) channel.now.beside
        (table sources.now results.now channel.now.reads) }
{
    match channel.beside {
        None => list_of(sources, results, channel.reads),
        Some(object) => match only(list_of(sources, results, object)) {
            None => &[],
            Some(_) => list_of(sources, results, channel.reads),
        },
    }
}

// The member of a list of just one.
fn only(list: &[Value]) -> Option<&Value>
    ensures { option_copied result ≡ only_member list.now }
{
    match list {
        [value] => Some(value),
        _ => None,
    }
}
