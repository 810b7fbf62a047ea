//! The parts of types.
ghost use Rattle.std.specs.Prelude.{◌≡◌, ◌<◌, ℕ, List, length, map, IfOk};
ghost use Rattle.flume_types.specs.declared.types.Ty.{Ty};
ghost use Rattle.flume_grammar.specs.declared.fault.ScriptKind.TheVariants.{Unknown, Mistyped};
ghost use Rattle.type_table.specs.Table.{type_at, field_at, AreWithin};
ghost use Rattle.written_types.specs.Answer.{Gives, or_fault};
ghost use Rattle.expression_types.specs.Fields as spec;
ghost use Rattle.expression_types.specs.Types as rules;
ghost use Rattle.expression_types.specs.Places.{placed_type};

use crate::scope::Found;
use flume_grammar::{ScriptFault, ScriptKind};
use flume_value::Str;
use type_table::{Part, Shape, TypeId, Types};
use written_types::refused;

/// Where the field of a name stands in a record, and its type.
pub fn place_under(line: u32, name: &Str, id: TypeId, types: &Types) -> Result<Found, ScriptFault>
    requires { id < length types.now }
    ensures gives { Gives (placed_type types.now) result
        (rules.place_under line name.now (type_at types.now id)) }
    ensures within { IfOk result (λ at. at.ty < length types.now) }
{
    match types.shape(id) {
        Shape::Rec(parts) => find_field(line, name, parts.as_slice()),
        _ => Err(refused(line, ScriptKind::Mistyped)),
    }
}

fn find_field(line: u32, name: &Str, parts: &[Part]) -> Result<Found, ScriptFault>
    ensures gives { (types : List Ty) → Gives (placed_type types) result
        (or_fault line Unknown (spec.named_field name.now 0 (map (field_at types) parts.now))) }
    ensures within { (n : ℕ) → AreWithin n parts.now → IfOk result (λ at. at.ty < n) }
{
    for place in 0..parts.len() {
        let part = &parts[place];
        if name.is(part.name.as_bytes()) {
            return Ok(Found { place, ty: part.ty });
        }
    }
    Err(refused(line, ScriptKind::Unknown))
}

/// The type of a list's members.
pub fn member_of(line: u32, id: TypeId, types: &Types) -> Result<TypeId, ScriptFault>
    requires { id < length types.now }
    ensures gives { Gives (type_at types.now) result
        (or_fault line Mistyped (spec.member_type (type_at types.now id))) }
    ensures within { IfOk result (λ member. member < length types.now) }
{
    match types.shape(id) {
        Shape::List(member) => Ok(*member),
        _ => Err(refused(line, ScriptKind::Mistyped)),
    }
}

/// The types of both sides, of an either or of an operator.
#[derive(Clone, Copy)]
pub struct Sides {
    pub left: TypeId,
    pub right: TypeId,
}

/// The types of the sides of an either.
pub fn sides_of(line: u32, id: TypeId, types: &Types) -> Result<Sides, ScriptFault>
    requires { id < length types.now }
    ensures gives { Gives (λ sides. (type_at types.now sides.left, type_at types.now sides.right))
        result (or_fault line Mistyped (spec.side_types (type_at types.now id))) }
    ensures left { IfOk result (λ sides. sides.left < length types.now) }
    ensures right { IfOk result (λ sides. sides.right < length types.now) }
{
    match types.shape(id) {
        Shape::Either(left, right) => Ok(Sides {
            left: *left,
            right: *right,
        }),
        _ => Err(refused(line, ScriptKind::Mistyped)),
    }
}
