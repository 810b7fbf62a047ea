// Combining a whole bag at once, with no accumulator.
ghost use Rattle.std.specs.Prelude.{◌≡◌, ℤ, pos, map, length, All, IfOk, IfErr, Ok};
ghost use Rattle.std.specs.List.{list_all, list_any};
ghost use Rattle.std.specs.Option.{option_copied, option_to_list};
ghost use Rattle.flume_value.specs.Bag.{bag_of};
ghost use Rattle.combine_table.specs.Contents.{IsInt, IsBool, truth_of};
ghost use Rattle.combine_table.specs.Combinations.{Suits, combined, IsTrapFault, int_total as total_of, wrapped, first_or_bad_index, least as least_of, greatest as greatest_of, distinct as distinct_of};

use crate::comb::Comb;
use crate::contents::{int, truth};
use crate::outcome::{int_or_overflow, mean};
use flume_value::{CallFault, Items, Kind, Pile, Value, ascending};
use std::alloc::{AllocError, Global};

/// What the combiner makes of these values as a bag: a value, or a trap exactly where their
/// combination traps; want of memory is the other fault.
#[tactic(auto, using(crate::proofs::Totals::bags))]
pub fn combine(alloc: Global, comb: Comb, values: &Items) -> Result<Value, CallFault>
    requires { All (Suits comb) values.now }
    ensures ok { IfOk result (λ v. combined comb (bag_of values.now) ≡ Ok v) }
    ensures err { IfErr result (IsTrapFault (combined comb (bag_of values.now))) }
{
    let values = values.as_slice();
    match comb {
        Comb::Sum => int_or_overflow(total(values)),
        Comb::Count => int_or_overflow(count(values)),
        Comb::Min => copy_or_bad_index(alloc, least(values)),
        Comb::Max => copy_or_bad_index(alloc, greatest(values)),
        Comb::All => Ok(Value::Bool(all_true(values))),
        Comb::Any => Ok(Value::Bool(any_true(values))),
        Comb::Top(n) => Ok(Value::List(Pile::from_vec(top(alloc, n, values)?))),
        Comb::Mean => mean(total(values), count(values)),
        Comb::Distinct => Ok(Value::List(Pile::from_vec(distinct(alloc, values)?))),
    }
}

fn total(values: &[Value]) -> i128
    requires { All IsInt values.now }
    ensures { result ≡ wrapped (total_of values.now) }
{
    let mut sum = 0i128;
    for value in values {
        sum = sum.wrapping_add(i128::from(int(value)));
    }
    sum
}

#[tactic(auto, using(std::proofs::lemmas::Int::int_wrap_fits))]
fn count(values: &[Value]) -> i128
    ensures { result ≡ wrapped (pos (length values.now)) }
{
    values.len() as i128
}

fn all_true(values: &[Value]) -> bool
    requires { All IsBool values.now }
    ensures { result ≡ list_all truth_of values.now }
{
    values.iter().all(|value| truth(value))
}

fn any_true(values: &[Value]) -> bool
    requires { All IsBool values.now }
    ensures { result ≡ list_any truth_of values.now }
{
    values.iter().any(|value| truth(value))
}

fn least(values: &[Value]) -> Option<&Value>
    ensures { option_to_list (option_copied result) ≡ least_of 1 (bag_of values.now) }
{
    values.iter().min()
}

fn greatest(values: &[Value]) -> Option<&Value>
    ensures { option_to_list (option_copied result) ≡ greatest_of 1 (bag_of values.now) }
{
    values.iter().max()
}

fn copy_or_bad_index(alloc: Global, value: Option<&Value>) -> Result<Value, CallFault>
    ensures ok { IfOk result (λ v.
        first_or_bad_index (option_to_list (option_copied value.entry)) ≡ Ok v) }
    ensures err { IfErr result
        (IsTrapFault (first_or_bad_index (option_to_list (option_copied value.entry)))) }
{
    match value {
        Some(value) => Ok(value.copy(alloc)?),
        None => Err(CallFault::Trap(Kind::BadIndex)),
    }
}

/// The n greatest, ascending. It sorts references, and copies no value but those.
fn top(alloc: Global, n: u32, values: &[Value]) -> Result<Vec<Value>, AllocError>
    ensures { IfOk result (λ kept. kept.items ≡ greatest_of n (bag_of values.now)) }
{
    let all = ascending(alloc, values)?;
    let rest = all.len().saturating_sub(n as usize);
    copy_each(alloc, &all[rest..])
}

/// Each value that occurs, once, ascending. It sorts references, and copies no value but those.
fn distinct(alloc: Global, values: &[Value]) -> Result<Vec<Value>, AllocError>
    ensures { IfOk result (λ kept. kept.items ≡ distinct_of (bag_of values.now)) }
{
    let mut all = ascending(alloc, values)?;
    all.dedup();
    copy_each(alloc, &all)
}

fn copy_each(alloc: Global, values: &[&Value]) -> Result<Vec<Value>, AllocError>
    ensures { IfOk result (λ copied. copied.items ≡ map (λ v. v.now) values.now) }
{
    let mut copied = Vec::with_capacity(alloc, values.len())?;
    for value in values {
        copied.push(value.copy(alloc)?)?;
    }
    Ok(copied)
}
