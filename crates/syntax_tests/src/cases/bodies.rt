//! The trees of functions' bodies.

use super::parts::{Leaf, is_leaf, is_name, read, sole};
use flume_syntax::{Ast, Body, Expr, Form, Function};
use flume_value::Str;
use std::alloc::Global;
use std::test::Fail;

/// What each of these functions has before its body, without a scale.
pub const HEAD: &[u8] = b"fn f(x: int) -> bool {";

/// Whether the function is named and typed as the head says.
pub fn has_head(function: &Function) -> bool {
    function.name.is(b"f")
        && function.argument.is(b"x")
        && is_leaf(&function.takes, Leaf::Int)
        && is_leaf(&function.gives, Leaf::Bool)
}

/// Whether the function has that head, and no further outputs.
fn is_single(function: &Function) -> bool {
    has_head(function) && function.more.is_empty()
}

/// The only statement of the only function of a script, if that has this head and no scale.
pub fn sole_body(ast: &Ast) -> Option<&Body> {
    match sole(ast) {
        Some(Form::Function(function)) if is_single(function) && function.scale.is_none() => {
            only(function.body.as_slice())
        }
        _ => None,
    }
}

fn only(bodies: &[Body]) -> Option<&Body> {
    match bodies {
        [body] => Some(body),
        _ => None,
    }
}

/// A statement of a body, which tests the name `b` and emits the name `a`.
#[derive(Clone, Copy)]
enum Wanted {
    /// `let y = a`
    Let,
    Emit,
    /// to this output
    EmitTo(&'static [u8]),
    If,
    /// with this line of what is emitted in its `else`
    IfElse(u32),
    /// `for y in b`
    For,
    /// `left y` and `right z`, with this line of what the right emits
    Case(u32),
}

static BODIES: [(&[u8], u32, Wanted); 7] = [
    (b"\nlet y = a", 2, Wanted::Let),
    (b"emit a", 1, Wanted::Emit),
    (b"emit to 02 a", 1, Wanted::EmitTo(b"02")),
    (b"if b { emit a }", 1, Wanted::If),
    (b"if b { emit a } else {\nemit a }", 1, Wanted::IfElse(2)),
    (b"for y in b { emit a }", 1, Wanted::For),
    (
        b"case b left y { emit a }\nright z { emit a }",
        1,
        Wanted::Case(2),
    ),
];

/// Whether `emit a` on this line is all of a body.
fn emits(bodies: &[Body], line: u32) -> bool {
    match bodies {
        [Body::Emit(at, None, expr)] => *at == line && is_name(expr, b"a"),
        _ => false,
    }
}

/// Whether the statement begins on this line, and is the wanted one.
fn is_wanted(body: &Body, line: u32, wanted: Wanted) -> bool {
    match body {
        Body::Let(at, word, expr) => *at == line && is_let(word, expr, wanted),
        Body::If(at, test, then, other) => {
            *at == line && is_if(test, then.as_slice(), other.as_slice(), wanted)
        }
        Body::For(at, word, list, all) => *at == line && is_for(word, list, all.as_slice(), wanted),
        Body::Case(at, either, y, left, z, right) => {
            *at == line
                && is_name(either, b"b")
                && is_left(y, left.as_slice())
                && is_right(z, right.as_slice(), wanted)
        }
        Body::Emit(at, to, expr) => *at == line && is_name(expr, b"a") && is_to(to, wanted),
    }
}

fn is_to(to: &Option<Str>, wanted: Wanted) -> bool {
    match to {
        Some(digits) => matches!(wanted, Wanted::EmitTo(own) if digits.is(own)),
        None => matches!(wanted, Wanted::Emit),
    }
}

fn is_let(word: &Str, expr: &Expr, wanted: Wanted) -> bool {
    matches!(wanted, Wanted::Let) && word.is(b"y") && is_name(expr, b"a")
}

fn is_if(test: &Expr, then: &[Body], other: &[Body], wanted: Wanted) -> bool {
    if !is_name(test, b"b") || !emits(then, 1) {
        return false;
    }
    match wanted {
        Wanted::If => other.is_empty(),
        Wanted::IfElse(line) => emits(other, line),
        _ => false,
    }
}

fn is_for(word: &Str, list: &Expr, all: &[Body], wanted: Wanted) -> bool {
    matches!(wanted, Wanted::For) && word.is(b"y") && is_name(list, b"b") && emits(all, 1)
}

fn is_left(word: &Str, all: &[Body]) -> bool {
    word.is(b"y") && emits(all, 1)
}

fn is_right(word: &Str, all: &[Body], wanted: Wanted) -> bool {
    match wanted {
        Wanted::Case(line) => word.is(b"z") && emits(all, line),
        _ => false,
    }
}

fn has_body(ast: &Ast, line: u32, wanted: Wanted) -> bool {
    matches!(sole_body(ast), Some(body) if is_wanted(body, line, wanted))
}

/// Whether the text is read as this statement of a body.
fn is_read(alloc: Global, text: &[u8], line: u32, wanted: Wanted) -> bool {
    match read(alloc, HEAD, text, b"}") {
        Ok(ast) => has_body(&ast, line, wanted),
        Err(_) => false,
    }
}

#[test]
fn bodies(rt: HostRuntime) -> Result<(), Fail> {
    let alloc = rt.alloc();
    let other = BODIES
        .iter()
        .position(|row| !is_read(alloc, row.0, row.1, row.2));
    assert_eq!(rt; other, None);
    Ok(())
}
