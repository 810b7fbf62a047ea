// What the derived functions give of an element, to their one output.
ghost use Rattle.std.specs.Prelude.{◌≡◌, ◌∷◌, ◌++◌, [], IfOk, OnOk};
ghost use Rattle.std.specs.Option.{option_to_list};
ghost use Rattle.flume_value.specs.Parts.{left_of, right_of};
ghost use Rattle.bag_groups.specs.Combining.{group_of};
ghost use Rattle.exec_graph.specs.Derived.{with_one, under_zero, left_tagged, right_tagged, sides_apart, split, spread};
ghost use Rattle.forest_steps.specs.Answers.{lists_of};

use crate::emissions::{Answer, only};
use bag_groups::{into_parts, pair};
use flume_value::{Items, Pile, Value};
use key_order::Couple;
use std::alloc::{AllocError, Global};

/// The element with the number 1.
#[inline(always)]
pub(crate) fn with_one(x: Value) -> Answer
    ensures { lists_of result ≡ with_one x ∷ [] }
{
    Answer::Pair(Couple::of_int(x, 1))
}

/// The number 0 with the element.
#[inline(always)]
pub(crate) fn under_zero(x: Value) -> Answer
    ensures { lists_of result ≡ under_zero x ∷ [] }
{
    Answer::Pair(Couple::of(Value::Int(0), x))
}

/// A pair with its value made a left side.
pub(crate) fn left_tagged(alloc: Global, x: Value) -> Result<Answer, AllocError>
    ensures { IfOk result (λ answer. lists_of answer ≡ left_tagged x ∷ []) }
{
    match into_parts(x) {
        Some((key, value)) => Ok(Answer::Pair(Couple::of_left(key, value))),
        None => only(alloc, Pile::new(alloc)),
    }
}

/// A pair with its value made a right side.
pub(crate) fn right_tagged(alloc: Global, x: Value) -> Result<Answer, AllocError>
    ensures { IfOk result (λ answer. lists_of answer ≡ right_tagged x ∷ []) }
{
    match into_parts(x) {
        Some((key, value)) => Ok(Answer::Pair(Couple::of_right(key, value))),
        None => only(alloc, Pile::new(alloc)),
    }
}

/// A key and a list of eithers with the sides of the list apart.
pub(crate) fn split(alloc: Global, x: Value) -> Result<Answer, AllocError>
    ensures { IfOk result (λ answer. lists_of answer ≡ split x ∷ []) }
{
    match into_group(x) {
        Some((key, eithers)) => match sides_of(alloc, eithers) {
            Ok(sides) => Ok(Answer::Pair(Couple::of(key, sides))),
            Err(fault) => {
                drop(key);
                Err(fault)
            }
        },
        None => only(alloc, Pile::new(alloc)),
    }
}

/// The members of the list of a key.
pub(crate) fn spread(alloc: Global, x: Value) -> Result<Answer, AllocError>
    ensures { IfOk result (λ answer. lists_of answer ≡ spread x ∷ []) }
{
    match into_group(x) {
        Some((key, members)) => {
            drop(key);
            only(alloc, members)
        }
        None => only(alloc, Pile::new(alloc)),
    }
}

/// The lefts of eithers and their rights, each in order.
#[derive(Drop)]
struct Sides {
    lefts: Vec<Value>,
    rights: Vec<Value>,
}

/// The record of the lefts of eithers and of their rights.
fn sides_of(alloc: Global, eithers: Items) -> Result<Value, AllocError>
    ensures { IfOk result (λ sides. sides ≡ sides_apart eithers) }
{
    let mut sides = Sides {
        lefts: Vec::new(alloc),
        rights: Vec::new(alloc),
    };
    for either in eithers.into_vec() {
        push_side(either, &mut sides)?;
    }
    let Sides { lefts, rights } = sides;
    let lefts = Value::List(Pile::from_vec(lefts));
    pair(alloc, lefts, Value::List(Pile::from_vec(rights)))
}

fn push_side(either: Value, sides: &mut Sides) -> Result<(), AllocError>
    ensures left { OnOk result (sides.new.lefts.items
        ≡ sides.old.lefts.items ++ option_to_list (left_of either)) }
    ensures right { OnOk result (sides.new.rights.items
        ≡ sides.old.rights.items ++ option_to_list (right_of either)) }
{
    match either {
        Value::Left(side) => push(side.into_inner(), &mut sides.lefts),
        Value::Right(side) => push(side.into_inner(), &mut sides.rights),
        other => {
            drop(other);
            Ok(())
        }
    }
}

fn push(value: Value, values: &mut Vec<Value>) -> Result<(), AllocError>
    ensures { OnOk result (values.new.items ≡ values.old.items ++ value ∷ []) }
{
    values.push(value)?;
    Ok(())
}

/// The key and the list of a group.
fn into_group(x: Value) -> Option<(Value, Items)>
    ensures { result ≡ group_of x }
{
    let (key, value) = into_parts(x)?;
    match value {
        Value::List(members) => Some((key, members)),
        other => {
            drop(key);
            drop(other);
            None
        }
    }
}
