// The type of a table's elements, from those of its key and its value.
ghost use Rattle.std.specs.Prelude.{◌≡◌, ◌<◌, [], ◌∷◌, length, IfOk, codes};
ghost use Rattle.flume_types.specs.Tables.{table_of};
ghost use Rattle.type_table.specs.Table.{type_at, Extends};

use crate::names::TypeNames;
use flume_value::Pile;
use std::alloc::{AllocError, Global};
use type_table::{Part, Parts, Shape, TypeId};

/// The type of a table's elements: a record of a key and a value.
pub fn table(
    alloc: Global,
    key: TypeId,
    value: TypeId,
    known: &mut TypeNames,
) -> Result<TypeId, AllocError>
    requires key_in { key < length known.old.types }
    requires value_in { value < length known.old.types }
    ensures ok { IfOk result (λ id. type_at known.new.types id
        ≡ table_of (type_at known.old.types key) (type_at known.old.types value)) }
    ensures within { IfOk result (λ id. id < length known.new.types) }
    ensures extends { Extends known.old.types known.new.types }
    ensures names { known.new.names ≡ known.old.names }
{
    let fields = table_fields(alloc, key, value)?;
    known.intern(Shape::Rec(fields))
}

fn table_fields(alloc: Global, key: TypeId, value: TypeId) -> Result<Parts, AllocError>
    ensures { IfOk result (λ fields. fields ≡ record { name = codes "key"; ty = key }
        ∷ record { name = codes "value"; ty = value } ∷ []) }
{
    let mut fields = Pile::new(alloc);
    fields.push(Part::named(alloc, b"key", key)?)?;
    fields.push(Part::named(alloc, b"value", value)?)?;
    Ok(fields)
}
