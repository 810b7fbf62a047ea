// The type that a script writes, names replaced and depth checked, or its first fault.
ghost use Rattle.std.specs.Prelude.{◌≡◌, ◌<◌, [], List, length, map, not, IfOk};
ghost use Rattle.flume_types.specs.declared.types.Ty.{Ty};
ghost use Rattle.type_table.specs.Table.{type_at, field_at, AreWithin, Extends};
ghost use Rattle.written_types.specs.Answer.{Gives, unless, or_fault};
ghost use Rattle.written_types.specs.Named.{find};
ghost use Rattle.written_types.specs.Written as spec;

use crate::fault::refused;
use crate::names::TypeNames;
use crate::tables::table;
use flume_grammar::{ScriptFault, ScriptKind, Type};
use flume_value::{Pile, Str};
use std::alloc::Global;
use type_table::{Part, Parts, Shape, TypeId, Types};

/// The type that is written, where it is at most 8 deep once names are replaced; or the first fault
/// from the left. Every name keeps its type.
pub fn whole_type(
    alloc: Global,
    line: u32,
    ty: &Type,
    known: &mut TypeNames,
) -> Result<TypeId, ScriptFault>
    ensures gives { Gives (type_at known.new.types) result
        (spec.whole_type line ty.now known.old.names) }
    ensures within { IfOk result (λ id. id < length known.new.types) }
    ensures extends { Extends known.old.types known.new.types }
    ensures names { known.new.names ≡ known.old.names }
{
    let id = written(alloc, line, ty, known)?;
    shallow(line, id, known.types())
}

/// The type, where it is at most 8 deep.
pub fn shallow(line: u32, id: TypeId, types: &Types) -> Result<TypeId, ScriptFault>
    requires { id < length types.now }
    ensures gives { Gives (type_at types.now) result
        (spec.shallow line (type_at types.now id)) }
    ensures same { IfOk result (λ shallow. shallow ≡ id) }
{
    if types.depth(id) <= 8 {
        Ok(id)
    } else {
        Err(refused(line, ScriptKind::TooDeep))
    }
}

/// The type that is written.
#[cycle(written)]
fn written(
    alloc: Global,
    line: u32,
    ty: &Type,
    known: &mut TypeNames,
) -> Result<TypeId, ScriptFault>
    ensures gives { Gives (type_at known.new.types) result
        (spec.written line ty.now known.old.names) }
    ensures within { IfOk result (λ id. id < length known.new.types) }
    ensures extends { Extends known.old.types known.new.types }
    ensures names { known.new.names ≡ known.old.names }
{
    match ty {
        Type::Int => Ok(known.intern(Shape::Int)?),
        Type::Bool => Ok(known.intern(Shape::Bool)?),
        Type::Text => Ok(known.intern(Shape::Text)?),
        Type::Named(name) => named(line, name, known),
        Type::List(part) => {
            let part = written(alloc, line, part.get(), known)?;
            let id = known.intern(Shape::List(part))?;
            Ok(id)
        }
        Type::Either(left, right) => {
            let left = written(alloc, line, left.get(), known)?;
            let right = written(alloc, line, right.get(), known)?;
            let id = known.intern(Shape::Either(left, right))?;
            Ok(id)
        }
        Type::Table(key, value) => {
            let key = written(alloc, line, key.get(), known)?;
            let value = written(alloc, line, value.get(), known)?;
            let id = table(alloc, key, value, known)?;
            Ok(id)
        }
        Type::Record(names, types) => {
            let fields = fields(alloc, line, names.as_slice(), types.as_slice(), known)?;
            let id = known.intern(Shape::Rec(fields))?;
            Ok(id)
        }
    }
}

/// The fields of a record, from the left.
#[cycle(written)]
fn fields(
    alloc: Global,
    line: u32,
    names: &[Str],
    types: &[Type],
    known: &mut TypeNames,
) -> Result<Parts, ScriptFault>
    ensures gives { Gives (λ fields. map (field_at known.new.types) fields) result
        (spec.fields_behind line (spec.written line) [] names.now types.now known.old.names) }
    ensures within { IfOk result (λ fields. AreWithin (length known.new.types) fields) }
    ensures extends { Extends known.old.types known.new.types }
    ensures names { known.new.names ≡ known.old.names }
{
    let mut fields = Pile::new(alloc);
    for i in 0..names.len().min(types.len()) {
        let name = &names[i];
        let ty = &types[i];
        unused(line, name, fields.as_slice())?;
        let ty = written(alloc, line, ty, known)?;
        let name = name.copy(alloc)?;
        fields.push(Part { name, ty })?;
    }
    Ok(fields)
}

/// A name that no field so far has.
fn unused(line: u32, name: &Str, fields: &[Part]) -> Result<(), ScriptFault>
    ensures { (types : List Ty) → Gives (λ _. tt) result (unless line ScriptKind.Twice
        (not (spec.has_field name.now (map (field_at types) fields.now)))) }
{
    for field in fields {
        if name.is(field.name.as_bytes()) {
            return Err(refused(line, ScriptKind::Twice));
        }
    }
    Ok(())
}

/// The type that a name stands for.
fn named(line: u32, name: &Str, known: &TypeNames) -> Result<TypeId, ScriptFault>
    ensures gives { Gives (type_at known.now.types) result
        (or_fault line ScriptKind.Unknown (find name.now known.now.names)) }
    ensures within { IfOk result (λ id. id < length known.now.types) }
{
    match known.named(name) {
        Some(id) => Ok(id),
        None => Err(refused(line, ScriptKind::Unknown)),
    }
}
