// What a combination comes to at its end: an int, a member or a mean, or a trap.
ghost use Rattle.std.specs.Prelude.{◌≡◌, ◌≤◌, length};
ghost use Rattle.combine_table.specs.Combinations.{answer, int_or_overflow as int_or_overflow_of, first_or_bad_index as first_or_bad_index_of, mean as mean_of};

use flume_value::{CallFault, Kind, Value};

/// The number as an int.
pub(crate) fn int_or_overflow(n: i128) -> Result<Value, CallFault>
    ensures { result ≡ answer (int_or_overflow_of n) }
{
    if n < i128::from(i64::MIN) || i128::from(i64::MAX) < n {
        return Err(CallFault::Trap(Kind::Overflow));
    }
    Ok(Value::Int(n as i64))
}

/// The one member of a list of at most one.
pub(crate) fn first_or_bad_index(mut values: Vec<Value>) -> Result<Value, CallFault>
    requires { length values.items ≤ 1 }
    ensures { result ≡ answer (first_or_bad_index_of values.items) }
{
    match values.pop() {
        Some(value) => Ok(value),
        None => Err(CallFault::Trap(Kind::BadIndex)),
    }
}

/// The mean of values with that sum and count, rounded down.
pub(crate) fn mean(sum: i128, count: i128) -> Result<Value, CallFault>
    ensures { result ≡ answer (mean_of sum count) }
{
    if count == 0 {
        return Err(CallFault::Trap(Kind::BadIndex));
    }
    if count < 0 {
        return Err(CallFault::Trap(Kind::Overflow));
    }
    int_or_overflow(sum.div_euclid(count))
}
