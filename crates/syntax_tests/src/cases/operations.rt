//! The trees of operations, on the collection `c` first.

use super::parts::are_words;
use flume_syntax::{Combiner, Operation};

/// An operation on the collection `c`.
#[derive(Clone, Copy)]
pub enum Operated {
    /// by this function
    Do(&'static [u8]),
    Group,
    /// these collections
    Flatten(&'static [&'static [u8]]),
    Count,
    /// with this other collection
    Join(&'static [u8]),
    /// of this number
    Top(&'static [u8]),
    /// by the combiner that is written so
    Combine(&'static [u8]),
    CombineAll(&'static [u8]),
    /// of these objects, by this function
    Operate(&'static [&'static [u8]], &'static [u8]),
    /// by this function, with this object
    DoWith(&'static [u8], &'static [u8]),
}

/// Whether the operation is the wanted one.
pub fn is_operation(operation: &Operation, wanted: Operated) -> bool {
    match operation {
        Operation::Do(name, function) => {
            name.is(b"c") && matches!(wanted, Operated::Do(f) if function.is(f))
        }
        Operation::Group(name) => name.is(b"c") && matches!(wanted, Operated::Group),
        Operation::Combine(name, combiner) => {
            name.is(b"c") && matches!(wanted, Operated::Combine(by) if is_combiner(combiner, by))
        }
        Operation::Flatten(names) => {
            matches!(wanted, Operated::Flatten(all) if are_words(names.as_slice(), all))
        }
        Operation::Count(name) => name.is(b"c") && matches!(wanted, Operated::Count),
        Operation::Join(name, other) => {
            name.is(b"c") && matches!(wanted, Operated::Join(right) if other.is(right))
        }
        Operation::Top(number, name) => {
            name.is(b"c") && matches!(wanted, Operated::Top(digits) if number.is(digits))
        }
        Operation::CombineAll(_, _) | Operation::Operate(_, _) | Operation::DoWith(_, _, _) => {
            is_with_objects(operation, wanted)
        }
    }
}

/// Whether it is the wanted one, of those that have objects.
fn is_with_objects(operation: &Operation, wanted: Operated) -> bool {
    match operation {
        Operation::CombineAll(name, combiner) => {
            name.is(b"c") && matches!(wanted, Operated::CombineAll(by) if is_combiner(combiner, by))
        }
        Operation::Operate(objects, function) => match wanted {
            Operated::Operate(all, f) => are_words(objects.as_slice(), all) && function.is(f),
            _ => false,
        },
        Operation::DoWith(name, function, object) => match wanted {
            Operated::DoWith(f, o) => name.is(b"c") && function.is(f) && object.is(o),
            _ => false,
        },
        _ => false,
    }
}

fn is_combiner(combiner: &Combiner, text: &[u8]) -> bool {
    written(combiner) == text
}

/// How the combiner is written, where its number, if it has one, is 3.
fn written(combiner: &Combiner) -> &'static [u8] {
    match combiner {
        Combiner::Sum => b"sum",
        Combiner::Count => b"count",
        Combiner::Min => b"min",
        Combiner::Max => b"max",
        Combiner::All => b"all",
        Combiner::Any => b"any",
        Combiner::Top(number) if number.is(b"3") => b"top 3",
        Combiner::Top(_) => b"",
        Combiner::Mean => b"mean",
        Combiner::Distinct => b"distinct",
    }
}
