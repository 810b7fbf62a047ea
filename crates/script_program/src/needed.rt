// Which collections are needed, as outputs read from them.
ghost use Rattle.std.specs.Prelude.{◌≡◌, ℕ, ◌<◌, List, ◌∷◌, [], ◌++◌, length, false, replicate};
ghost use Rattle.std.specs.Prelude.{IfOk};
ghost use Rattle.script_program.specs.Needed.{operands, with_reads, read_from};
ghost use Rattle.script_program.specs.inner.Flags.{AreFlags, held_made, held_reads, TellNeeded};

use crate::made::{Made, Node, Output};
use flume_value::Str;
use indexmap::IndexMap;
use std::alloc::{AllocError, Global};

/// For each collection whether it is needed: whether a path of reads leads from it to an output.
pub fn needed_flags(
    alloc: Global,
    nodes: &[(Str, Node)],
    outputs: &IndexMap<Str, Output>,
) -> Result<Vec<bool>, AllocError>
    ensures { IfOk result (λ flags.
        TellNeeded nodes.now outputs.now.entries flags.items) }
{
    let mut flags = unmarked(alloc, nodes.len())?;
    mark_outputs(outputs, &mut flags);
    mark_needed(nodes, &mut flags);
    Ok(flags)
}

/// The same in flags that there are already, one for each collection. It takes no memory.
pub fn needed_anew(nodes: &[(Str, Node)], outputs: &IndexMap<Str, Output>, flags: &mut Vec<bool>)
    requires { length flags.old.items ≡ length nodes.now }
    ensures { TellNeeded nodes.now outputs.now.entries flags.new.items }
{
    unmark_all(flags);
    mark_outputs(outputs, flags);
    mark_needed(nodes, flags);
}

/// For each collection whether the one of that number rests on it.
pub fn rested(alloc: Global, nodes: &[(Str, Node)], asked: usize) -> Result<Vec<bool>, AllocError>
    ensures many { IfOk result (λ flags. length flags.items ≡ length nodes.now) }
    ensures told { IfOk result (λ flags.
        AreFlags (read_from (asked ∷ []) 0 (held_made nodes.now)) flags.items) }
{
    let mut flags = unmarked(alloc, nodes.len())?;
    mark(asked, &mut flags);
    mark_needed(nodes, &mut flags);
    Ok(flags)
}

/// Unmarks all.
fn unmark_all(flags: &mut Vec<bool>)
    ensures many { length flags.new.items ≡ length flags.old.items }
    ensures none { AreFlags [] flags.new.items }
{
    for number in 0..flags.len() {
        flags[number] = false;
    }
}

/// So many flags, of which none is set.
fn unmarked(alloc: Global, count: usize) -> Result<Vec<bool>, AllocError>
    ensures { IfOk result (λ flags. flags.items ≡ replicate count false) }
{
    let mut flags = Vec::with_capacity(alloc, count)?;
    for _number in 0..count {
        flags.push(false)?;
    }
    Ok(flags)
}

/// Marks what outputs read.
fn mark_outputs(outputs: &IndexMap<Str, Output>, flags: &mut Vec<bool>)
    ensures many { length flags.new.items ≡ length flags.old.items }
    ensures marked { AreFlags [] flags.old.items →
        AreFlags (held_reads outputs.now.entries) flags.new.items }
{
    for number in 0..outputs.len() {
        match outputs.get_index(number) {
            Some((_, output)) => mark(output.reads, flags),
            None => unreachable!(),
        }
    }
}

/// Marks what marked collections are made from, from the last to the first.
fn mark_needed(nodes: &[(Str, Node)], flags: &mut Vec<bool>)
    requires { length flags.old.items ≡ length nodes.now }
    ensures many { length flags.new.items ≡ length flags.old.items }
    ensures marked { (numbers : List ℕ) → AreFlags numbers flags.old.items →
        AreFlags (read_from numbers 0 (held_made nodes.now)) flags.new.items }
{
    let mut number = nodes.len();
    while 0 < number {
        number -= 1;
        match nodes.get(number) {
            Some((_, node)) => mark_reads(number, &node.made, flags),
            None => unreachable!(),
        }
    }
}

/// Marks what a collection is made from, where it is marked.
fn mark_reads(number: usize, how: &Made, flags: &mut Vec<bool>)
    requires { number < length flags.old.items }
    ensures many { length flags.new.items ≡ length flags.old.items }
    ensures marked { (numbers : List ℕ) → AreFlags numbers flags.old.items →
        AreFlags (with_reads numbers number how.now) flags.new.items }
{
    if flags[number] {
        mark_operands(how, flags);
    }
}

/// Marks what a collection is made from.
fn mark_operands(how: &Made, flags: &mut Vec<bool>)
    ensures many { length flags.new.items ≡ length flags.old.items }
    ensures marked { (numbers : List ℕ) → AreFlags numbers flags.old.items →
        AreFlags (operands how.now ++ numbers) flags.new.items }
{
    match how {
        Made::Input {
            file: _,
            columns: _,
        } => (),
        Made::Do {
            source,
            function: _,
            output: _,
        } => mark(*source, flags),
        Made::Group { source } => mark(*source, flags),
        Made::Combine { source, by: _ } => mark(*source, flags),
        Made::Flatten { sources } => mark_all(sources.as_slice(), flags),
        Made::Count { source } => mark(*source, flags),
        Made::Join { left, right } => mark_both(*left, *right, flags),
        Made::Top { number: _, source } => mark(*source, flags),
        Made::CombineAll { source, by: _ } => mark(*source, flags),
        Made::Operate {
            objects,
            function: _,
        } => mark_all(objects.as_slice(), flags),
        Made::DoWith {
            source,
            function: _,
            object,
        } => mark_both(*source, *object, flags),
        Made::Saved {
            is_object: _,
            call: _,
        } => (),
    }
}

fn mark_both(first: usize, second: usize, flags: &mut Vec<bool>)
    ensures many { length flags.new.items ≡ length flags.old.items }
    ensures marked { (numbers : List ℕ) → AreFlags numbers flags.old.items →
        AreFlags (first ∷ second ∷ numbers) flags.new.items }
{
    mark(second, flags);
    mark(first, flags);
}

fn mark_all(sources: &[usize], flags: &mut Vec<bool>)
    ensures many { length flags.new.items ≡ length flags.old.items }
    ensures marked { (numbers : List ℕ) → AreFlags numbers flags.old.items →
        AreFlags (sources.now ++ numbers) flags.new.items }
{
    for source in sources {
        mark(*source, flags);
    }
}

/// Marks the collection of this number, where there is one.
fn mark(number: usize, flags: &mut Vec<bool>)
    ensures many { length flags.new.items ≡ length flags.old.items }
    ensures marked { (numbers : List ℕ) → AreFlags numbers flags.old.items →
        AreFlags (number ∷ numbers) flags.new.items }
{
    if number < flags.len() {
        flags[number] = true;
    }
}
