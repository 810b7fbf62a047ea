//! The trees of statements: types, operations, inputs, outputs and a function with a scale.

use super::bodies::has_head;
use super::operations::{Operated, is_operation};
use super::parts::{Leaf, are_words, is_leaf, read, sole};
use flume_syntax::{Ast, Form, Function, Operation, Type};
use flume_value::{Held, Str};
use std::alloc::Global;
use std::test::Fail;

/// A type with parts that have none.
#[derive(Clone, Copy)]
enum Written {
    Leaf(Leaf),
    Named(&'static [u8]),
    List(Leaf),
    Either(Leaf, Leaf),
    Table(Leaf, Leaf),
    /// of an int and a text
    Record(&'static [&'static [u8]]),
}

/// A statement.
#[derive(Clone, Copy)]
enum Wanted {
    /// of the name `t`
    Type(Written),
    /// of the collection `l`
    Let(Operated),
    /// of these collections
    Lets(&'static [&'static [u8]], Operated),
    /// of the collection `c`, an int, from `c.csv`
    Input,
    /// of no body, and this scale
    Function(&'static [u8]),
    /// of no body, and a bool, a text and an int for its outputs
    Outputs,
    /// of the collection `c`, to `d.csv`
    Output,
}

static STATEMENTS: [(&[u8], Wanted); 24] = [
    (b"type t = int", Wanted::Type(Written::Leaf(Leaf::Int))),
    (b"type t = bool", Wanted::Type(Written::Leaf(Leaf::Bool))),
    (b"type t = text", Wanted::Type(Written::Leaf(Leaf::Text))),
    (b"type t = r", Wanted::Type(Written::Named(b"r"))),
    (
        b"type t = list<int>",
        Wanted::Type(Written::List(Leaf::Int)),
    ),
    (
        b"type t = either<int, bool>",
        Wanted::Type(Written::Either(Leaf::Int, Leaf::Bool)),
    ),
    (
        b"type t = table<bool, int>",
        Wanted::Type(Written::Table(Leaf::Bool, Leaf::Int)),
    ),
    (
        b"type t = {type: int, b: text}",
        Wanted::Type(Written::Record(&[b"type", b"b"])),
    ),
    // operations
    (b"let l = group c", Wanted::Let(Operated::Group)),
    (b"let l = count c", Wanted::Let(Operated::Count)),
    (b"let l = top 3 c", Wanted::Let(Operated::Top(b"3"))),
    (b"let l = do c f", Wanted::Let(Operated::Do(b"f"))),
    (
        b"let l = flatten c, d, c",
        Wanted::Let(Operated::Flatten(&[b"c", b"d", b"c"])),
    ),
    (b"let l = join c, d", Wanted::Let(Operated::Join(b"d"))),
    (
        b"let a, b = do c f",
        Wanted::Lets(&[b"a", b"b"], Operated::Do(b"f")),
    ),
    (
        b"let a, b, a = flatten c, d",
        Wanted::Lets(&[b"a", b"b", b"a"], Operated::Flatten(&[b"c", b"d"])),
    ),
    // operations with objects
    (
        b"let l = operate c by f",
        Wanted::Let(Operated::Operate(&[b"c"], b"f")),
    ),
    (
        b"let l = operate c, d, c by f",
        Wanted::Let(Operated::Operate(&[b"c", b"d", b"c"], b"f")),
    ),
    (
        b"let l = do c f with d",
        Wanted::Let(Operated::DoWith(b"f", b"d")),
    ),
    (
        b"let a, b = do c f with c",
        Wanted::Lets(&[b"a", b"b"], Operated::DoWith(b"f", b"c")),
    ),
    (b"fn f(x: int) -> bool scale 20 {}", Wanted::Function(b"20")),
    (b"fn f(x: int) -> bool, text, int {}", Wanted::Outputs),
    (b"input c: int from \"c.csv\"", Wanted::Input),
    (b"output c to \"d.csv\"", Wanted::Output),
];

/// How combiners are written, with a comma between two.
const COMBINERS: &[u8] = b"sum,count,min,max,all,any,mean,distinct,top 3";

fn is_type(ty: &Type, written: Written) -> bool {
    match written {
        Written::Leaf(leaf) => is_leaf(ty, leaf),
        Written::Named(name) => matches!(ty, Type::Named(word) if word.is(name)),
        Written::List(leaf) => matches!(ty, Type::List(part) if is_leaf(part.get(), leaf)),
        Written::Either(left, right) => {
            matches!(ty, Type::Either(one, other) if are_leaves(one, other, left, right))
        }
        Written::Table(key, value) => {
            matches!(ty, Type::Table(one, other) if are_leaves(one, other, key, value))
        }
        Written::Record(names) => is_record(ty, names),
    }
}

fn are_leaves(one: &Held<Type>, other: &Held<Type>, left: Leaf, right: Leaf) -> bool {
    is_leaf(one.get(), left) && is_leaf(other.get(), right)
}

fn is_record(ty: &Type, names: &[&[u8]]) -> bool {
    match ty {
        Type::Record(words, types) => {
            are_words(words.as_slice(), names) && are_int_and_text(types.as_slice())
        }
        _ => false,
    }
}

fn are_int_and_text(types: &[Type]) -> bool {
    matches!(types, [Type::Int, Type::Text])
}

fn is_form(form: &Form, wanted: Wanted) -> bool {
    match form {
        Form::Type(name, ty) => {
            name.is(b"t") && matches!(wanted, Wanted::Type(written) if is_type(ty, written))
        }
        Form::Let(names, operation) => is_let(names.as_slice(), operation, wanted),
        Form::Input(name, ty, file) => {
            matches!(wanted, Wanted::Input)
                && name.is(b"c")
                && is_leaf(ty, Leaf::Int)
                && file.is(b"c.csv")
        }
        Form::Function(function) => is_function(function, wanted),
        Form::Repeat(_, _) => false,
        Form::Output(name, file) => {
            matches!(wanted, Wanted::Output) && name.is(b"c") && file.is(b"d.csv")
        }
    }
}

fn is_let(names: &[Str], operation: &Operation, wanted: Wanted) -> bool {
    match wanted {
        Wanted::Let(it) => are_words(names, &[b"l"]) && is_operation(operation, it),
        Wanted::Lets(words, it) => are_words(names, words) && is_operation(operation, it),
        _ => false,
    }
}

fn is_function(function: &Function, wanted: Wanted) -> bool {
    match wanted {
        Wanted::Function(scale) => function.more.is_empty() && is_scaled(function, scale),
        Wanted::Outputs => {
            has_head(function)
                && function.body.is_empty()
                && function.scale.is_none()
                && matches!(function.more.as_slice(), [Type::Text, Type::Int])
        }
        _ => false,
    }
}

/// Whether the function has the head of all of them, this scale, and no body.
fn is_scaled(function: &Function, wanted: &[u8]) -> bool {
    match &function.scale {
        Some(scale) => { has_head(function) && function.body.is_empty() && scale.is(wanted) }
        None => false,
    }
}

fn has_form(ast: &Ast, wanted: Wanted) -> bool {
    matches!(sole(ast), Some(form) if is_form(form, wanted))
}

/// Whether the two parts of a script are read as the wanted statement.
fn is_read(alloc: Global, before: &[u8], script: &[u8], wanted: Wanted) -> bool {
    match read(alloc, before, script, b"") {
        Ok(ast) => has_form(&ast, wanted),
        Err(_) => false,
    }
}

/// Whether the combiner is read behind both words.
fn are_combined(alloc: Global, written: &'static [u8]) -> bool {
    let one = Wanted::Let(Operated::Combine(written));
    let whole = Wanted::Let(Operated::CombineAll(written));
    is_read(alloc, b"let l = combine c by ", written, one)
        && is_read(alloc, b"let l = combineall c by ", written, whole)
}

#[test]
fn statements(rt: HostRuntime) -> Result<(), Fail> {
    let alloc = rt.alloc();
    let other = STATEMENTS
        .iter()
        .position(|row| !is_read(alloc, b"", row.0, row.1));
    assert_eq!(rt; other, None);
    let other = COMBINERS
        .split(|byte| *byte == b',')
        .position(|written| !are_combined(alloc, written));
    assert_eq!(rt; other, None);
    Ok(())
}
