// What a statement is to keys: what it defines, and what it reads and calls.
ghost use Rattle.std.specs.Prelude.{◌≡◌, ◌++◌, ◌∷◌, [], IfOk, OnOk};
ghost use Rattle.script_keys.specs.Outlines as spec;

use crate::names::{add_all, copies, with_name};
use flume_grammar::{Form, Operation, Repeat};
use flume_value::{Pile, Str};
use std::alloc::{AllocError, Global};

/// A statement, by the names that it defines and those that it names.
#[derive(Drop)]
pub enum Outline {
    /// A type, whatever it is.
    Type,
    /// A collection of the rows of a file.
    Input {
        name: Str,
        file: Str,
    },
    Function {
        name: Str,
    },
    /// Collections, which are made of what it reads by what it calls.
    Let {
        names: Pile<Str>,
        reads: Pile<Str>,
        calls: Pile<Str>,
    },
    Output,
}

/// The outline of a statement.
pub fn outline_of(alloc: Global, form: &Form) -> Result<Outline, AllocError>
    ensures { IfOk result (λ it. it ≡ spec.outline_of form.now) }
{
    match form {
        Form::Type(_, _) => Ok(Outline::Type),
        Form::Input(name, _, file) => input(alloc, name, file),
        Form::Function(function) => Ok(Outline::Function {
            name: function.name.copy(alloc)?,
        }),
        Form::Let(names, by) => plain_let(alloc, names.as_slice(), by),
        Form::Repeat(names, repeat) => repeat_let(alloc, names.as_slice(), repeat),
        Form::Output(_, _) => Ok(Outline::Output),
    }
}

fn input(alloc: Global, name: &Str, file: &Str) -> Result<Outline, AllocError>
    ensures { IfOk result (λ it. it ≡ Outline.Input name.now file.now) }
{
    Ok(Outline::Input {
        name: name.copy(alloc)?,
        file: file.copy(alloc)?,
    })
}

fn plain_let(alloc: Global, names: &[Str], by: &Operation) -> Result<Outline, AllocError>
    ensures { IfOk result (λ it. it
        ≡ Outline.Let names.now (spec.operand_names by.now) (spec.callees by.now)) }
{
    let names = copies(alloc, names)?;
    let mut reads = Pile::new(alloc);
    add_operands(alloc, by, &mut reads)?;
    let mut calls = Pile::new(alloc);
    add_callees(alloc, by, &mut calls)?;
    Ok(Outline::Let {
        names,
        reads,
        calls,
    })
}

fn repeat_let(alloc: Global, names: &[Str], repeat: &Repeat) -> Result<Outline, AllocError>
    ensures { IfOk result (λ it. it
        ≡ Outline.Let names.now (spec.read_in repeat.now) (spec.called_in repeat.now)) }
{
    let names = copies(alloc, names)?;
    let reads = read_in(alloc, repeat)?;
    let calls = called_in(alloc, repeat)?;
    Ok(Outline::Let {
        names,
        reads,
        calls,
    })
}

// What a repeat reads: what enters its first turn, what its body names, and what it gives.
fn read_in(alloc: Global, repeat: &Repeat) -> Result<Pile<Str>, AllocError>
    ensures { IfOk result (λ reads. reads ≡ spec.read_in repeat.now) }
{
    let mut reads = copies(alloc, repeat.from.as_slice())?;
    let lets = repeat.lets.as_slice();
    for own in lets {
        add_operands(alloc, &own.by, &mut reads)?;
    }
    add_all(alloc, &mut reads, repeat.gives.as_slice())?;
    Ok(reads)
}

// What the body of a repeat calls.
fn called_in(alloc: Global, repeat: &Repeat) -> Result<Pile<Str>, AllocError>
    ensures { IfOk result (λ calls. calls ≡ spec.called_in repeat.now) }
{
    let mut calls = Pile::new(alloc);
    let lets = repeat.lets.as_slice();
    for own in lets {
        add_callees(alloc, &own.by, &mut calls)?;
    }
    Ok(calls)
}

// Puts the collections and objects that an operation reads behind others.
fn add_operands(alloc: Global, by: &Operation, reads: &mut Pile<Str>) -> Result<(), AllocError>
    ensures { OnOk result (reads.new ≡ reads.old ++ spec.operand_names by.now) }
{
    match by {
        Operation::Do(source, _) => with_name(alloc, reads, source),
        Operation::Group(source) => with_name(alloc, reads, source),
        Operation::Combine(source, _) => with_name(alloc, reads, source),
        Operation::Flatten(sources) => add_all(alloc, reads, sources.as_slice()),
        Operation::Count(source) => with_name(alloc, reads, source),
        Operation::Join(left, right) => add_both(alloc, reads, left, right),
        Operation::Top(_, source) => with_name(alloc, reads, source),
        Operation::CombineAll(source, _) => with_name(alloc, reads, source),
        Operation::Operate(objects, _) => add_all(alloc, reads, objects.as_slice()),
        Operation::DoWith(source, _, object) => add_both(alloc, reads, source, object),
    }
}

// Puts two names behind others.
fn add_both(alloc: Global, names: &mut Pile<Str>, left: &Str, right: &Str) -> Result<(), AllocError>
    ensures { OnOk result (names.new ≡ names.old ++ left.now ∷ right.now ∷ []) }
{
    with_name(alloc, names, left)?;
    with_name(alloc, names, right)
}

// Puts the function that an operation calls behind others.
fn add_callees(alloc: Global, by: &Operation, calls: &mut Pile<Str>) -> Result<(), AllocError>
    ensures { OnOk result (calls.new ≡ calls.old ++ spec.callees by.now) }
{
    match by {
        Operation::Do(_, function) => with_name(alloc, calls, function),
        Operation::Operate(_, function) => with_name(alloc, calls, function),
        Operation::DoWith(_, function, _) => with_name(alloc, calls, function),
        _ => Ok(()),
    }
}
