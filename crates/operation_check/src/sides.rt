// The type of what a join makes of a key: the lists of both sides.
ghost use Rattle.std.specs.Prelude.{◌≡◌, ◌<◌, [], ◌∷◌, ◌++◌, length, IfOk, OnOk, codes};
ghost use Rattle.type_table.specs.Table.{type_at, Extends};
ghost use Rattle.script_rules.specs.Operations.{sides_of};

use flume_value::{Pile, Str};
use script_state::State;
use std::alloc::{AllocError, Global};
use type_table::{Part, Parts, Shape, TypeId};

/// The type of the lists of both sides of a join.
pub fn sides(
    alloc: Global,
    left: TypeId,
    right: TypeId,
    state: &mut State,
) -> Result<TypeId, AllocError>
    requires left_in { left < length state.old.types }
    requires right_in { right < length state.old.types }
    ensures ok { IfOk result (λ id. type_at state.new.types id
        ≡ sides_of (type_at state.old.types left) (type_at state.old.types right)) }
    ensures within { IfOk result (λ id. id < length state.new.types) }
    ensures extends { Extends state.old.types state.new.types }
    ensures state { state.new.state ≡ state.old.state }
{
    let left = state.intern(Shape::List(left))?;
    let right = state.intern(Shape::List(right))?;
    let fields = side_fields(alloc, left, right)?;
    state.intern(Shape::Rec(fields))
}

fn side_fields(alloc: Global, left: TypeId, right: TypeId) -> Result<Parts, AllocError>
    ensures { IfOk result (λ fields. fields ≡ record { name = codes "left"; ty = left }
        ∷ record { name = codes "right"; ty = right } ∷ []) }
{
    let mut fields = Pile::new(alloc);
    push_field(alloc, b"left", left, &mut fields)?;
    push_field(alloc, b"right", right, &mut fields)?;
    Ok(fields)
}

/// A field more.
fn push_field(alloc: Global, name: &[u8], ty: TypeId, fields: &mut Parts) -> Result<(), AllocError>
    ensures { OnOk result (fields.new ≡ fields.old ++ record { name = name.now; ty = ty } ∷ []) }
{
    let name = Str::from_slice(alloc, name)?;
    fields.push(Part { name, ty })?;
    Ok(())
}
