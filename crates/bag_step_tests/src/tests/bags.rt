// Bags of ints, words and pairs for the rows of tests.
ghost use Rattle.std.specs.Prelude.{All, IfOk};
ghost use Rattle.std.specs.List.Sorted.{IsSorted};
ghost use Rattle.flume_value.specs.Order.{value_cmp};
ghost use Rattle.bag_groups.specs.Pairs.{IsPair};

use bag_groups::pair;
use flume_value::{Items, Pile, Str, Value, sorted};
use std::alloc::{AllocError, Global};

/// The bag of these ints.
pub(crate) fn ints(alloc: Global, members: &[i64]) -> Result<Vec<Value>, AllocError>
    ensures { IfOk result (λ bag. IsSorted value_cmp bag.items) }
{
    let mut bag = Vec::new(alloc);
    for member in members {
        bag.push(Value::Int(*member))?;
    }
    sorted(bag)
}

/// The bag of these words.
pub(crate) fn words(alloc: Global, members: &[&str]) -> Result<Vec<Value>, AllocError>
    ensures { IfOk result (λ bag. IsSorted value_cmp bag.items) }
{
    let mut bag = Vec::new(alloc);
    for member in members {
        bag.push(word(alloc, member)?)?;
    }
    sorted(bag)
}

/// The text of a word.
pub(crate) fn word(alloc: Global, word: &str) -> Result<Value, AllocError> {
    Ok(Value::Text(Str::from_slice(alloc, word.as_bytes())?))
}

/// The bag of the pairs of these keys and values.
pub(crate) fn table(alloc: Global, members: &[(i64, i64)]) -> Result<Vec<Value>, AllocError>
    ensures pairs { IfOk result (λ bag. All IsPair bag.items) }
    ensures ascending { IfOk result (λ bag. IsSorted value_cmp bag.items) }
{
    let mut bag = Vec::new(alloc);
    for member in members {
        bag.push(int_pair(alloc, member.0, member.1)?)?;
    }
    sorted(bag)
}

fn int_pair(alloc: Global, key: i64, value: i64) -> Result<Value, AllocError>
    ensures { IfOk result IsPair }
{
    pair(alloc, Value::Int(key), Value::Int(value))
}

/// The list of these ints.
pub(crate) fn list(alloc: Global, members: &[i64]) -> Result<Items, AllocError> {
    let mut list = Pile::new(alloc);
    for member in members {
        list.push(Value::Int(*member))?;
    }
    Ok(list)
}
