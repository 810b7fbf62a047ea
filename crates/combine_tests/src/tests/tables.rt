// Tables of ints.
ghost use Rattle.std.specs.Prelude.{All, IfOk};
ghost use Rattle.bag_groups.specs.Pairs.{IsPair};
ghost use Rattle.flume_types.specs.declared.types.Ty.TheVariants as ty;
ghost use Rattle.flume_types.specs.Tables.{table_of};
ghost use Rattle.flume_types.specs.Typing.{AllHave, Has};

use bag_groups::pair;
use flume_value::Value;
use std::alloc::{AllocError, Global};

/// The pair of a key and a value.
pub fn ints(alloc: Global, key: i64, value: i64) -> Result<Value, AllocError>
    ensures typed { IfOk result (Has (table_of ty.Int ty.Int)) }
    ensures pair { IfOk result IsPair }
{
    pair(alloc, Value::Int(key), Value::Int(value))
}

/// These pairs of keys and values.
pub fn table(alloc: Global, pairs: &[(i64, i64)]) -> Result<Vec<Value>, AllocError>
    ensures typed { IfOk result (λ table. AllHave (table_of ty.Int ty.Int) table.items) }
    ensures pairs { IfOk result (λ table. All IsPair table.items) }
{
    let mut table = Vec::new(alloc);
    for pair in pairs {
        table.push(ints(alloc, pair.0, pair.1)?)?;
    }
    Ok(table)
}
