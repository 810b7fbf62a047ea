// The rows of a made input, as values.
ghost use Rattle.std.specs.Prelude.{◌≡◌, ◌≤◌, IfOk};
ghost use Rattle.made_rows.specs.Rows.{made_rows, most_made, made_row};

use flume_value::{Items, Pile, Value};
use std::alloc::{AllocError, Global};

/// The rows of a made input: so many, whose numbers follow on the first one.
pub fn rows_made(alloc: Global, start: u32, rows: u32) -> Result<Items, AllocError>
    requires start { start ≤ most_made }
    requires rows { rows ≤ most_made }
    ensures { IfOk result (λ items. items ≡ made_rows start rows) }
{
    let mut items = Vec::with_capacity(alloc, rows as usize)?;
    for turn in 0..rows {
        items.push(row(alloc, start + turn + 1)?)?;
    }
    Ok(Pile::from_vec(items))
}

// The row of a number.
fn row(alloc: Global, number: u32) -> Result<Value, AllocError>
    ensures { IfOk result (λ value. value ≡ made_row number) }
{
    let cells = [
        Value::Int(i64::from(number % 10)),
        Value::Int(i64::from(number)),
    ];
    Ok(Value::Rec(Pile::from_vec(Vec::from_array(alloc, cells)?)))
}
