// The value of the only pair.
ghost use Rattle.std.specs.Prelude.{◌≡◌, [], ◌∷◌, IfOk};
ghost use Rattle.std.specs.Option.{option_copied};
ghost use Rattle.bag_groups.specs.Pairs.{value_of};
ghost use Rattle.combine_table.specs.Combinations.{combined};
ghost use Rattle.flume_value.specs.Bag.{bag_of};
ghost use Rattle.exec_graph.specs.declared.graph.Act.TheVariants as act;
ghost use Rattle.exec_graph.specs.Objects.{act_result, or_of_nothing, untrapped, whole_combined};
ghost use Rattle.exec_graph.specs.World.{World};
ghost use Rattle.operate_step.specs.Results.{object_of};

use combine_table::{Comb, combine};
use flume_collection::Trap;
use flume_value::{CallFault, Pile, Value};
use std::alloc::{AllocError, Global};

/// The value of the only pair among these members, or what a combiner makes of nothing where there
/// is no pair, for a script node. The trap of that names the number 0.
pub fn singleton(
    alloc: Global,
    origin: u32,
    by: Comb,
    members: &[Value],
) -> Result<Result<Value, Trap>, AllocError>
    ensures { (w : World) → IfOk result (λ made.
        act_result w origin (act.Singleton by) (untrapped (bag_of members.now) ∷ [])
        ≡ object_of made) }
{
    if members.len() == 1 {
        value_or_nothing(alloc, origin, by, &members[0])
    } else {
        made_of_nothing(alloc, origin, by)
    }
}

// The value of a pair. What is no pair counts for nothing.
fn value_or_nothing(
    alloc: Global,
    origin: u32,
    by: Comb,
    pair: &Value,
) -> Result<Result<Value, Trap>, AllocError>
    ensures { IfOk result (λ made.
        or_of_nothing origin by (value_of pair.now) ≡ object_of made) }
{
    match value_in(pair) {
        Some(value) => Ok(Ok(value.copy(alloc)?)),
        None => made_of_nothing(alloc, origin, by),
    }
}

fn value_in(pair: &Value) -> Option<&Value>
    ensures { option_copied result ≡ value_of pair.now }
{
    match pair {
        Value::Rec(fields) => match fields.as_slice() {
            [_, value] => Some(value),
            _ => None,
        },
        _ => None,
    }
}

fn made_of_nothing(alloc: Global, origin: u32, by: Comb) -> Result<Result<Value, Trap>, AllocError>
    ensures { IfOk result (λ made. whole_combined origin (combined by []) ≡ object_of made) }
{
    match combine(alloc, by, &Pile::new(alloc)) {
        Ok(value) => Ok(Ok(value)),
        Err(fault) => match fault {
            CallFault::Trap(kind) => Ok(Err(Trap {
                origin,
                element: Value::Int(0),
                kind,
            })),
            CallFault::Memory => Err(AllocError),
        },
    }
}
