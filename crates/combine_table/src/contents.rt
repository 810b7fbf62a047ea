// What values that combiners take and keep have in them: numbers, truths, sums and lists.
ghost use Rattle.std.specs.Prelude.{◌≡◌, ◌+ℤ◌, IfOk};
ghost use Rattle.flume_value.specs.Parts.{members_or_none};
ghost use Rattle.combine_table.specs.Contents.{IsInt, IsBool, IsList, int_or_zero, truth_of, wide_or_zero, sum_in as sum_of, count_in as count_of};
ghost use Rattle.combine_table.specs.inner.Wide.{IsWide, IsSumAndCount};
ghost use Rattle.combine_table.specs.Combinations.{wrapped};
ghost use Rattle.combine_table.specs.Accumulators.{sum_and_count as sum_and_count_of};

use flume_value::{Pile, Value};
use std::alloc::{AllocError, Global};

/// The number of an int.
pub(crate) fn int(value: &Value) -> i64
    requires { IsInt value.now }
    ensures { result ≡ int_or_zero value.now }
{
    match value {
        Value::Int(n) => *n,
        _ => unreachable!(),
    }
}

/// Whether a bool is true.
pub(crate) fn truth(value: &Value) -> bool
    requires { IsBool value.now }
    ensures { result ≡ truth_of value.now }
{
    match value {
        Value::Bool(b) => *b,
        _ => unreachable!(),
    }
}

/// The number of a wide number.
pub(crate) fn wide(value: &Value) -> i128
    requires { IsWide value.now }
    ensures { result ≡ wide_or_zero value.now }
{
    match value {
        Value::Wide(n) => *n,
        _ => unreachable!(),
    }
}

/// The sum of two wide numbers, wrapped.
#[tactic(auto, using(std::proofs::lemmas::Int::wraps))]
pub(crate) fn wide_sum(left: &Value, right: &Value) -> i128
    requires left { IsWide left.now }
    requires right { IsWide right.now }
    ensures { result ≡ wrapped (wide_or_zero left.now +ℤ wide_or_zero right.now) }
{
    wide(left).wrapping_add(wide(right))
}

/// A sum beside a count.
pub(crate) fn sum_and_count(alloc: Global, sum: i128, count: i128) -> Result<Value, AllocError>
    ensures { IfOk result (λ v. v ≡ sum_and_count_of sum count) }
{
    let mut both = Vec::with_capacity(alloc, 2)?;
    both.push(Value::Wide(sum))?;
    both.push(Value::Wide(count))?;
    Ok(Value::Rec(Pile::from_vec(both)))
}

/// The sum of a sum beside a count.
pub(crate) fn sum_in(both: &Value) -> i128
    requires { IsSumAndCount both.now }
    ensures { result ≡ sum_of both.now }
{
    match both {
        Value::Rec(fields) => wide(&fields.as_slice()[0]),
        _ => unreachable!(),
    }
}

/// And the count.
pub(crate) fn count_in(both: &Value) -> i128
    requires { IsSumAndCount both.now }
    ensures { result ≡ count_of both.now }
{
    match both {
        Value::Rec(fields) => wide(&fields.as_slice()[1]),
        _ => unreachable!(),
    }
}

/// The sum of two sums, each beside a count, wrapped.
#[tactic(auto, using(std::proofs::lemmas::Int::wraps))]
pub(crate) fn both_sums(left: &Value, right: &Value) -> i128
    requires left { IsSumAndCount left.now }
    requires right { IsSumAndCount right.now }
    ensures { result ≡ wrapped (sum_of left.now +ℤ sum_of right.now) }
{
    sum_in(left).wrapping_add(sum_in(right))
}

/// And of their counts.
#[tactic(auto, using(std::proofs::lemmas::Int::wraps))]
pub(crate) fn both_counts(left: &Value, right: &Value) -> i128
    requires left { IsSumAndCount left.now }
    requires right { IsSumAndCount right.now }
    ensures { result ≡ wrapped (count_of left.now +ℤ count_of right.now) }
{
    count_in(left).wrapping_add(count_in(right))
}

/// The members of a list.
pub(crate) fn into_list(value: Value) -> Vec<Value>
    requires { IsList value }
    ensures { result.items ≡ members_or_none value }
{
    match value {
        Value::List(items) => items.into_vec(),
        _ => unreachable!(),
    }
}

/// The list of these members.
pub(crate) fn list(values: Vec<Value>) -> Value
    ensures { result ≡ Value.List values.items }
{
    Value::List(Pile::from_vec(values))
}
