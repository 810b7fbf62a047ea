//! The types of records and lists, from those of their parts.
ghost use Rattle.std.specs.Prelude.{◌≡◌, ◌<◌, ℕ, List, length, map, IfOk};
ghost use Rattle.std.specs.List.{All, list_all};
ghost use Rattle.flume_types.specs.declared.types.Ty.{Ty};
ghost use Rattle.type_table.specs.Table.{type_at, field_at, AreWithin, Extends};
ghost use Rattle.written_types.specs.Answer.{Gives};
ghost use Rattle.expression_types.specs.Fields as fields;
ghost use Rattle.expression_types.specs.Held.{AreTypes};
ghost use Rattle.expression_types.specs.Types as spec;

use crate::different::are_different;
use crate::scope::Scope;
use crate::types::made;
use flume_grammar::{ScriptFault, ScriptKind};
use flume_value::{Pile, Str};
use std::alloc::{AllocError, Global};
use type_table::{Part, Parts, Shape, TypeId, Types};
use written_types::refused;

/// The type of a record of parts of these types under as many names, each another.
pub fn record_type(
    alloc: Global,
    line: u32,
    names: &[Str],
    types: &[TypeId],
    scope: &mut Scope,
) -> Result<TypeId, ScriptFault>
    requires { AreTypes (length scope.old.types) types.now }
    ensures gives { Gives (type_at scope.new.types) result
        (spec.record_type line names.now (map (type_at scope.old.types) types.now)) }
    ensures within { IfOk result (λ id. id < length scope.new.types) }
    ensures extends { Extends scope.old.types scope.new.types }
    ensures sight { scope.new.sight ≡ scope.old.sight }
{
    if !are_different(names) {
        return Err(refused(line, ScriptKind::Twice));
    }
    if names.len() != types.len() {
        return Err(refused(line, ScriptKind::Mistyped));
    }
    let parts = parts_of(alloc, names, types)?;
    made(line, Shape::Rec(parts), scope)
}

/// Fields of these names and types, in order.
fn parts_of(alloc: Global, names: &[Str], types: &[TypeId]) -> Result<Parts, AllocError>
    requires { length names.now ≡ length types.now }
    ensures ok { (known : List Ty) → IfOk result (λ parts. map (field_at known) parts
        ≡ fields.typed_fields names.now (map (type_at known) types.now)) }
    ensures within { (n : ℕ) → AreTypes n types.now → IfOk result (λ parts. AreWithin n parts) }
{
    let mut parts = Pile::new(alloc);
    for i in 0..names.len() {
        let ty = types[i];
        let name = names[i].copy(alloc)?;
        parts.push(Part { name, ty })?;
    }
    Ok(parts)
}

/// The type of a list of members of these types.
pub fn list_type(line: u32, types: &[TypeId], scope: &mut Scope) -> Result<TypeId, ScriptFault>
    requires { AreTypes (length scope.old.types) types.now }
    ensures gives { Gives (type_at scope.new.types) result
        (spec.list_type line (map (type_at scope.old.types) types.now)) }
    ensures within { IfOk result (λ id. id < length scope.new.types) }
    ensures extends { Extends scope.old.types scope.new.types }
    ensures sight { scope.new.sight ≡ scope.old.sight }
{
    if types.is_empty() {
        return Err(refused(line, ScriptKind::Mistyped));
    }
    let first = types[0];
    if !are_all(first, &types[1..], scope.types()) {
        return Err(refused(line, ScriptKind::Mistyped));
    }
    made(line, Shape::List(first), scope)
}

fn are_all(first: TypeId, others: &[TypeId], types: &Types) -> bool
    requires first_in { first < length types.now }
    requires others_in { AreTypes (length types.now) others.now }
    ensures { result ≡ list_all (spec.is_same (type_at types.now first))
        (map (type_at types.now) others.now) }
{
    for other in others {
        if !types.same(first, *other) {
            return false;
        }
    }
    true
}
