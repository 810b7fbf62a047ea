// Accumulators: that of no value, that of one, the merge of two, and what one comes to.
ghost use Rattle.std.specs.Prelude.{◌≡◌, ◌∷◌, [], IfOk};
ghost use Rattle.combine_table.specs.declared.comb.Comb.TheVariants as by;
ghost use Rattle.combine_table.specs.Combinations.{Suits, answer};
ghost use Rattle.combine_table.specs.Accumulators.{accumulator, HasShape, merged, finished};

use crate::comb::Comb;
use crate::contents::{
    both_counts, both_sums, count_in, int, into_list, list, sum_and_count, sum_in, truth, wide,
    wide_sum,
};
use crate::lists::{distinct_of_both, greater, greatest_of_both, lesser};
use crate::outcome::{first_or_bad_index, int_or_overflow, mean};
use flume_value::{CallFault, Pile, Value};
use std::alloc::{AllocError, Global};

/// The accumulator that stands for the empty bag. The one error is want of memory, here and in
/// `lift` and `merge`.
pub fn zero(alloc: Global, comb: Comb) -> Result<Value, AllocError>
    ensures { IfOk result (λ v. v ≡ accumulator comb []) }
{
    match comb {
        Comb::Sum | Comb::Count => Ok(Value::Wide(0)),
        Comb::Min | Comb::Max | Comb::Top(_) | Comb::Distinct => {
            Ok(Value::List(Pile::new(alloc)))
        }
        Comb::All => Ok(Value::Bool(true)),
        Comb::Any => Ok(Value::Bool(false)),
        Comb::Mean => sum_and_count(alloc, 0, 0),
    }
}

/// The accumulator that stands for the bag of this one value.
pub fn lift(alloc: Global, comb: Comb, value: &Value) -> Result<Value, AllocError>
    requires { Suits comb value.now }
    ensures { IfOk result (λ v. v ≡ accumulator comb (value.now ∷ [])) }
{
    match comb {
        Comb::Sum => Ok(Value::Wide(i128::from(int(value)))),
        Comb::Count => Ok(Value::Wide(1)),
        Comb::All | Comb::Any => Ok(Value::Bool(truth(value))),
        Comb::Top(0) => Ok(Value::List(Pile::new(alloc))),
        Comb::Mean => sum_and_count(alloc, i128::from(int(value)), 1),
        Comb::Min | Comb::Max | Comb::Top(_) | Comb::Distinct => {
            let mut only = Vec::new(alloc);
            only.push(value.copy(alloc)?)?;
            Ok(Value::List(Pile::from_vec(only)))
        }
    }
}

/// The accumulator that stands for the sum of the bags that the two stand for. It moves their
/// members, and goes once over those that it keeps.
pub fn merge(alloc: Global, comb: Comb, left: Value, right: Value) -> Result<Value, AllocError>
    requires left { HasShape comb left }
    requires right { HasShape comb right }
    ensures { IfOk result (λ v. v ≡ merged comb left right) }
{
    match comb {
        Comb::Sum | Comb::Count => Ok(Value::Wide(wide_sum(&left, &right))),
        Comb::Min => Ok(list(lesser(into_list(left), into_list(right)))),
        Comb::Max => Ok(list(greater(into_list(left), into_list(right)))),
        Comb::All => Ok(Value::Bool(truth(&left) && truth(&right))),
        Comb::Any => Ok(Value::Bool(truth(&left) || truth(&right))),
        Comb::Top(n) => Ok(list(greatest_of_both(alloc, n, into_list(left), into_list(right))?)),
        Comb::Mean => merged_means(alloc, &left, &right),
        Comb::Distinct => Ok(list(distinct_of_both(alloc, into_list(left), into_list(right))?)),
    }
}

fn merged_means(alloc: Global, left: &Value, right: &Value) -> Result<Value, AllocError>
    requires left { HasShape by.Mean left.now }
    requires right { HasShape by.Mean right.now }
    ensures { IfOk result (λ v. v ≡ merged by.Mean left.now right.now) }
{
    sum_and_count(alloc, both_sums(left, right), both_counts(left, right))
}

/// What the bag comes to that the accumulator stands for: a value, or a trap where the bag's
/// combination traps. It takes no memory.
pub fn finish(comb: Comb, accumulator: Value) -> Result<Value, CallFault>
    requires { HasShape comb accumulator }
    ensures { result ≡ answer (finished comb accumulator) }
{
    match comb {
        Comb::Sum | Comb::Count => int_or_overflow(wide(&accumulator)),
        Comb::Min | Comb::Max => first_or_bad_index(into_list(accumulator)),
        Comb::Mean => mean(sum_in(&accumulator), count_in(&accumulator)),
        Comb::All | Comb::Any | Comb::Top(_) | Comb::Distinct => Ok(accumulator),
    }
}
