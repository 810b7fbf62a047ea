// What a step answered of an element: one emission, or lists of them.
ghost use Rattle.std.specs.Prelude.{◌≡◌, ◌∷◌, [], IfOk};
ghost use Rattle.forest_steps.specs.Answers.{lists_of};

use flume_value::{Items, Pile, Value};
use key_order::Couple;
use std::alloc::{AllocError, Global};

/// What a step answered. Mostly that is one emission to one output, for which no list is made.
#[derive(Drop)]
pub enum Answer {
    /// One emission to the first output.
    One(Value),
    /// One pair to the first output, for which no record was made.
    Pair(Couple),
    /// One list of emissions for each output.
    Lists(Vec<Items>),
}

/// These emissions to the first output.
pub(crate) fn only(alloc: Global, emitted: Items) -> Result<Answer, AllocError>
    ensures { IfOk result (λ answer. lists_of answer ≡ emitted ∷ []) }
{
    let lists = first_list(alloc, emitted)?;
    Ok(Answer::Lists(lists))
}

/// One emission to the first output, as lists.
pub(crate) fn one_in_lists(alloc: Global, value: Value) -> Result<Vec<Items>, AllocError>
    ensures { IfOk result (λ lists. lists.items ≡ (value ∷ []) ∷ []) }
{
    match Vec::with_capacity(alloc, 1) {
        Ok(mut values) => {
            values.push(value)?;
            first_list(alloc, Pile::from_vec(values))
        }
        Err(fault) => {
            drop(value);
            Err(fault)
        }
    }
}

fn first_list(alloc: Global, emitted: Items) -> Result<Vec<Items>, AllocError>
    ensures { IfOk result (λ lists. lists.items ≡ emitted ∷ []) }
{
    let mut lists = Vec::with_capacity(alloc, 1)?;
    lists.push(emitted)?;
    Ok(lists)
}
