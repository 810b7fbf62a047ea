// Steps that are called beside the value of an object.
ghost use Rattle.std.specs.Prelude.{◌≡◌, ◌∷◌, [], IfOk};
ghost use Rattle.std.specs.Option.{option_copied};
ghost use Rattle.exec_graph.specs.Objects.{world_beside};
ghost use Rattle.flume_value.specs.declared.value.Value.TheVariants as value;
ghost use Rattle.map_shard.specs.inner.Legs.{CanRunIn, IsWholeIn, own_world};
ghost use Rattle.task_safety.specs.Taking.{taking};

use crate::legs::Steps;
use flume_collection::Trap;
use flume_value::{CallFault, Pile, Value};
use forest_steps::{Answer, Functions};
use shuffle_parts::MapOut;
use std::alloc::{AllocError, Global};

/// Functions that are called on the record of an element and this value. Their traps name the
/// element.
#[derive(Drop)]
pub(crate) struct Beside<'a, F: Functions> {
    functions: &'a F,
    object: &'a Value,
}

impl<'a, F: Functions> Functions for Beside<'a, F> {
    ghost use Rattle.std.specs.Prelude.{[], ◌∷◌};
    ghost use Rattle.exec_graph.specs.Objects.{naming};
    ghost use Rattle.flume_value.specs.declared.value.Value.TheVariants as value;

    ghost called = { λ b f x.
        naming x (F.called b.functions.now f (value.Rec (x ∷ (b.object.now ∷ [])))) };

    ghost can_call = { λ b f x.
        F.can_call b.functions.now f (value.Rec (x ∷ (b.object.now ∷ []))) };

    fn call(&self, alloc: Global, number: u32, element: &Value) -> Result<Answer, CallFault> {
        let both = record_of(alloc, element, self.object)?;
        let answer = self.functions.call(alloc, number, &both);
        drop(both);
        answer
    }
}

/// What the steps on the elements give the output channels, or the first trap. They are called
/// beside the value of an object, where there is one.
pub(crate) fn run_beside<F: Functions>(
    alloc: Global,
    steps: &Steps<'_, F>,
    object: Option<&Value>,
    elements: &[Value],
) -> Result<Result<MapOut, Trap>, AllocError>
    requires { CanRunIn (world_beside (option_copied object) (own_world F.called steps.now))
        steps.now
        (taking (option_copied object) (F.can_call steps.now.functions.now)) elements.now }
    ensures { IfOk result (IsWholeIn
        (world_beside (option_copied object.entry) (own_world F.called steps.now)) steps.now
        elements.now) }
{
    match object {
        None => steps.run(alloc, elements),
        Some(object) => {
            let functions = Beside {
                functions: steps.functions,
                object,
            };
            let steps = Steps {
                functions: &functions,
                does: steps.does,
                channels: steps.channels,
                takes: steps.takes,
                m: steps.m,
                partitions: steps.partitions,
            };
            steps.run(alloc, elements)
        }
    }
}

// The record of an element and the value of an object.
fn record_of(alloc: Global, element: &Value, object: &Value) -> Result<Value, AllocError>
    ensures { IfOk result (λ both. both ≡ value.Rec (element.now ∷ (object.now ∷ []))) }
{
    let mut fields = Vec::with_capacity(alloc, 2)?;
    fields.push(element.copy(alloc)?)?;
    fields.push(object.copy(alloc)?)?;
    Ok(Value::Rec(Pile::from_vec(fields)))
}
