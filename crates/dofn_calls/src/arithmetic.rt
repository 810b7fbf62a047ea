// What operations and comparisons of numbers give, with the traps where no int is the result.
ghost use Rattle.std.specs.Prelude.{◌≡◌, pos, ◌+ℤ◌, ◌-ℤ◌, ◌*ℤ◌};
ghost use Rattle.dofn_eval.specs.Operations.{whole_number, quotient, remainder, arithmetic, holds};
ghost use Rattle.dofn_calls.specs.inner.Evaluates.{Returns};

use dofn_eval::{Arithmetic, Comparison};
use flume_value::{CallFault, Kind, Value};
use std::cmp::Ordering;

/// What the operation gives of two numbers.
pub fn compute(op: Arithmetic, m: i64, n: i64) -> Result<Value, CallFault>
    ensures { Returns result (arithmetic op m n) }
{
    match op {
        Arithmetic::Add => sum(m, n),
        Arithmetic::Subtract => difference(m, n),
        Arithmetic::Multiply => product(m, n),
        Arithmetic::Divide => ratio(m, n),
        Arithmetic::Remainder => rest(m, n),
    }
}

fn sum(m: i64, n: i64) -> Result<Value, CallFault>
    ensures { Returns result (whole_number (m +ℤ n)) }
{
    match m.checked_add(n) {
        Some(sum) => Ok(Value::Int(sum)),
        None => Err(CallFault::Trap(Kind::Overflow)),
    }
}

/// The difference.
pub fn difference(m: i64, n: i64) -> Result<Value, CallFault>
    ensures { Returns result (whole_number (m -ℤ n)) }
{
    match m.checked_sub(n) {
        Some(difference) => Ok(Value::Int(difference)),
        None => Err(CallFault::Trap(Kind::Overflow)),
    }
}

fn product(m: i64, n: i64) -> Result<Value, CallFault>
    ensures { Returns result (whole_number (m *ℤ n)) }
{
    match m.checked_mul(n) {
        Some(product) => Ok(Value::Int(product)),
        None => Err(CallFault::Trap(Kind::Overflow)),
    }
}

fn ratio(m: i64, n: i64) -> Result<Value, CallFault>
    ensures { Returns result (quotient m n) }
{
    if n == 0 {
        Err(CallFault::Trap(Kind::DivideByZero))
    } else {
        match m.checked_div(n) {
            Some(ratio) => Ok(Value::Int(ratio)),
            None => Err(CallFault::Trap(Kind::Overflow)),
        }
    }
}

fn rest(m: i64, n: i64) -> Result<Value, CallFault>
    ensures { Returns result (remainder m n) }
{
    if n == 0 {
        Err(CallFault::Trap(Kind::DivideByZero))
    } else {
        Ok(Value::Int(m.wrapping_rem(n)))
    }
}

/// A length as a value.
pub fn length_value(n: usize) -> Result<Value, CallFault>
    ensures { Returns result (whole_number (pos n)) }
{
    if n < 9223372036854775808 {
        Ok(Value::Int(n as i64))
    } else {
        Err(CallFault::Trap(Kind::Overflow))
    }
}

/// Whether the comparison holds where two values stand so to one another.
pub fn is_met(op: Comparison, order: Ordering) -> bool
    ensures { result ≡ holds op order }
{
    match op {
        Comparison::Equal => order.is_eq(),
        Comparison::NotEqual => order.is_ne(),
        Comparison::Less => order.is_lt(),
        Comparison::LessEqual => order.is_le(),
        Comparison::Greater => order.is_gt(),
        Comparison::GreaterEqual => order.is_ge(),
    }
}
