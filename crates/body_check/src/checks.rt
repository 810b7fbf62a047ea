// The check of a whole body, which gives a function with slots in place of names.
ghost use Rattle.std.specs.Prelude.{◌≡◌, ℕ, ◌≤◌, ◌<◌, [], ◌∷◌, length, map, IfOk};
ghost use Rattle.flume_value.specs.declared.value.Value.{Value as Value_};
ghost use Rattle.dofn_eval.specs.Run.{slots_mean};
ghost use Rattle.dofn_eval.specs.Function.{FunTyped};
ghost use Rattle.expression_check.specs.of_type_table.Table.{type_at, Extends};
ghost use Rattle.expression_check.specs.of_written_types.Answer.{Gives};
ghost use Rattle.expression_check.specs.of_expression_types.Held.{AreTypes};
ghost use Rattle.body_check.specs.Bodies.{at_start, body_of};
ghost use Rattle.body_check.specs.Call.{means};
ghost use Rattle.body_check.specs.inner.Slots as spec;

use crate::frame::Frame;
use crate::statements::block;
use dofn_eval::{Block, Fun};
use expression_check::expression_types::Scope;
use expression_check::type_table::TypeId;
use expression_check::written_types::TypeNames;
use flume_grammar::{Body, ScriptFault};
use flume_value::Str;
use std::alloc::Global;
use std::mem::replace;

/// The function that takes and gives values of these types, one for each output, by this body,
/// with slots in place of names; or its first fault, on the line of the innermost statement. The
/// argument's name is in sight of the body. Every name of a type keeps its type.
pub fn check_body(
    alloc: Global,
    known: &mut TypeNames,
    argument: &Str,
    takes: TypeId,
    gives: &[TypeId],
    body: &[Body],
) -> Result<Fun, ScriptFault>
    requires takes { takes < length known.old.types }
    requires gives { AreTypes (length known.old.types) gives.now }
    requires some { 1 ≤ length gives.now }
    requires most { length gives.now ≤ 8 }
    ensures gives { Gives (λ _. tt) result (body_of known.old.names argument.now
        (type_at known.old.types takes) (map (type_at known.old.types) gives.now) body.now) }
    ensures typed { IfOk result (λ fun. FunTyped (type_at known.old.types takes)
        (map (type_at known.old.types) gives.now) fun) }
    // A call of it means what the body means, where names stand for values.
    ensures same { IfOk result (λ fun. (x : Value_) →
        means known.old.names fun.outputs argument.now (type_at known.old.types takes) body.now x
        ≡ slots_mean fun.outputs fun.body x) }
    ensures extends { Extends known.old.types known.new.types }
    ensures names { known.new.names ≡ known.old.names }
{
    let taken = replace(known, TypeNames::new(alloc));
    let mut frame = Frame::new(Scope::new(alloc, taken), gives);
    let slots = slots_of(alloc, argument, takes, body, &mut frame);
    *known = frame.into_scope().into_known();
    let block = slots?;
    Ok(Fun::new(gives.len(), block))
}

/// The slots of a body, where no name of a value is in sight but the argument's.
fn slots_of(
    alloc: Global,
    argument: &Str,
    takes: TypeId,
    body: &[Body],
    frame: &mut Frame<'_>,
) -> Result<Block, ScriptFault>
    requires takes { takes < length frame.old.types }
    requires names { frame.old.sight.names ≡ [] }
    ensures gives { Gives (λ k. k) result (
        spec.slots_in (spec.placed_of frame.old.gives) body.now
        (at_start frame.old.sight.known argument.now (type_at frame.old.types takes))) }
    ensures extends { Extends frame.old.types frame.new.types }
    ensures known { frame.new.sight.known ≡ frame.old.sight.known }
{
    frame.add(alloc, argument, takes)?;
    block(alloc, body, frame)
}
