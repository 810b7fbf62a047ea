// The type of a table's elements.
ghost use Rattle.std.specs.Prelude.{◌≡◌, IfOk};
ghost use Rattle.flume_types.specs.Tables.{table_of};

use crate::types::{Field, Ty};
use flume_value::{Pile, Str};
use std::alloc::{AllocError, Global};

/// The type of a table's elements: the record of a `key` and a `value` of these types.
pub fn table_type(alloc: Global, key: Ty, value: Ty) -> Result<Ty, AllocError>
    ensures { IfOk result (λ t. t ≡ table_of key value) }
{
    let mut fields = Pile::new(alloc);
    fields.push(Field {
        name: Str::from_slice(alloc, b"key")?,
        ty: key,
    })?;
    fields.push(Field {
        name: Str::from_slice(alloc, b"value")?,
        ty: value,
    })?;
    Ok(Ty::Rec(fields))
}
