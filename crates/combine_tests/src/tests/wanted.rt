// What is to come of values.
use flume_value::{CallFault, Kind, Value};

/// A value, or the kind of a trap.
#[derive(Clone, Copy)]
pub enum Wanted {
    Int(i64),
    Bool(bool),
    List(&'static [i64]),
    Traps(Kind),
}

/// Whether that value, or that trap, is what was made.
pub fn is_wanted(made: &Result<Value, CallFault>, wanted: Wanted) -> bool {
    match made {
        Ok(value) => is_value(value, wanted),
        Err(CallFault::Trap(kind)) => matches!(wanted, Wanted::Traps(other) if *kind == other),
        Err(CallFault::Memory) => false,
    }
}

/// Whether it is that value.
pub fn is_value(value: &Value, wanted: Wanted) -> bool {
    match wanted {
        Wanted::Int(n) => is_int(value, n),
        Wanted::Bool(b) => matches!(value, Value::Bool(other) if *other == b),
        Wanted::List(all) => is_list(value, all),
        Wanted::Traps(_) => false,
    }
}

/// Whether it is that int.
pub fn is_int(value: &Value, wanted: i64) -> bool {
    matches!(value, Value::Int(n) if *n == wanted)
}

/// Whether it is the list of these ints.
pub fn is_list(value: &Value, all: &[i64]) -> bool {
    match value {
        Value::List(items) => are_ints(items.as_slice(), all),
        _ => false,
    }
}

fn are_ints(items: &[Value], all: &[i64]) -> bool {
    if items.len() != all.len() {
        return false;
    }
    for (item, n) in items.iter().zip(all.iter()) {
        if !is_int(item, *n) {
            return false;
        }
    }
    true
}
