// The types of a table's key and value, and of a list's members.
ghost use Rattle.std.specs.Prelude.{◌≡◌, ◌<◌, ℕ, List, length, map, IfOk};
ghost use Rattle.flume_types.specs.declared.types.Ty.{Ty, out-Ty};
ghost use Rattle.type_table.specs.Table.{type_at, field_at, AreWithin};
ghost use Rattle.script_program.specs.of_written_types.Answer.{Gives, or_fault};
ghost use Rattle.script_rules.specs.Operations as spec;
ghost use Rattle.operation_check.specs.inner.Pairs.{pair_at};

use flume_grammar::{ScriptFault, ScriptKind};
use script_program::written_types::refused;
use type_table::{Part, Shape, TypeId, Types};

/// The key and the value of a table.
#[derive(Clone, Copy)]
pub struct Pair {
    pub key: TypeId,
    pub value: TypeId,
}

/// The key and the value of a table.
pub fn pair_of(line: u32, id: TypeId, types: &Types) -> Result<Pair, ScriptFault>
    requires { id < length types.now }
    ensures gives { Gives (pair_at types.now) result (spec.pair_of line (type_at types.now id)) }
    ensures within { IfOk result (λ pair.
        (pair.key < length types.now) × (pair.value < length types.now)) }
{
    match types.shape(id) {
        Shape::Rec(parts) => key_and_value(line, parts.as_slice()),
        _ => Err(refused(line, ScriptKind::NotTable)),
    }
}

fn key_and_value(line: u32, parts: &[Part]) -> Result<Pair, ScriptFault>
    ensures gives { (types : List Ty) → Gives (pair_at types) result
        (or_fault line ScriptKind.NotTable (spec.key_and_value (map (field_at types) parts.now))) }
    ensures within { (n : ℕ) → AreWithin n parts.now →
        IfOk result (λ pair. (pair.key < n) × (pair.value < n)) }
{
    match parts {
        [key, value] if key.name.is(b"key") && value.name.is(b"value") => Ok(Pair {
            key: key.ty,
            value: value.ty,
        }),
        _ => Err(refused(line, ScriptKind::NotTable)),
    }
}

/// The type of a list's members.
pub fn member_of(line: u32, id: TypeId, types: &Types) -> Result<TypeId, ScriptFault>
    requires { id < length types.now }
    ensures gives { Gives (type_at types.now) result (spec.member_of line (type_at types.now id)) }
    ensures within { IfOk result (λ id. id < length types.now) }
{
    match types.shape(id) {
        Shape::List(member) => Ok(*member),
        _ => Err(refused(line, ScriptKind::NotTable)),
    }
}
