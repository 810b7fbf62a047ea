// What passes through the channels of a stage.
ghost use Rattle.std.specs.Prelude.{◌≡◌, ℕ, List, Some, slice_get, IfOk, OnOk};
ghost use Rattle.exec_graph.specs.of_flume_collection.Calls.{or_none};
ghost use Rattle.flume_value.specs.declared.value.Value.{Value};
ghost use Rattle.shuffle_parts.specs.Outs.{all_passed, passed_in};
ghost use Rattle.stage_results.specs.inner.Channels.{each_joined, passed_by};

use crate::joining::join_at;
use flume_value::{Items, Pile};
use shuffle_parts::{MapOut, Sent};
use std::alloc::{AllocError, Global};

/// What passes through each output channel, of all outs in order of tasks. It is moved. For a
/// channel that groups there is an empty list.
pub(crate) fn passed_lists(alloc: Global, outs: Vec<MapOut>) -> Result<Vec<Items>, AllocError>
    ensures { IfOk result (λ lists. (r : ℕ) (values : List Value) →
        all_passed outs.items r ≡ Some values → or_none (slice_get lists.items r) ≡ values) }
{
    let mut lists = Vec::new(alloc);
    for out in outs {
        join_passed(alloc, &mut lists, out.sent)?;
    }
    Ok(lists)
}

// Puts what passes through each channel behind the list at its place.
fn join_passed(alloc: Global, lists: &mut Vec<Items>, sent: Pile<Sent>) -> Result<(), AllocError>
    ensures { OnOk result (lists.new.items ≡ each_joined lists.old.items (passed_by sent)) }
{
    let mut at = 0;
    for one in sent.into_vec() {
        join_at(alloc, lists, at, passed(alloc, one))?;
        at += 1;
    }
    Ok(())
}

fn passed(alloc: Global, sent: Sent) -> Items
    ensures { result ≡ or_none (passed_in sent) }
{
    match sent {
        Sent::Passed(values) => values,
        _ => Pile::new(alloc),
    }
}
