//! The trees of expressions, one operation each.

use super::bodies::sole_body;
use super::parts::{Leaf, are_words, is_leaf, is_name, read};
use flume_syntax::{Ast, Binary, Body, Expr, Side, Unary};
use flume_value::Held;
use std::alloc::Global;
use std::test::Fail;

/// An expression whose parts are the names `a`, `b` and `c`, as many as it needs.
#[derive(Clone, Copy)]
enum Wanted {
    Number(&'static [u8]),
    Text(&'static [u8]),
    Bool(bool),
    Name,
    Empty(Leaf),
    Unary(Unary),
    Binary(Binary),
    Field(&'static [u8]),
    Index,
    /// of two fields
    Record(&'static [&'static [u8]]),
    /// of two members
    List,
    Side(Side, Leaf),
    Concat,
    Pick,
}

static EXPRESSIONS: [(&[u8], Wanted); 33] = [
    (b"a or b", Wanted::Binary(Binary::Or)),
    (b"a and b", Wanted::Binary(Binary::And)),
    (b"a == b", Wanted::Binary(Binary::Equal)),
    (b"a != b", Wanted::Binary(Binary::NotEqual)),
    (b"a < b", Wanted::Binary(Binary::Less)),
    (b"a <= b", Wanted::Binary(Binary::AtMost)),
    (b"a > b", Wanted::Binary(Binary::Greater)),
    (b"a >= b", Wanted::Binary(Binary::AtLeast)),
    (b"a + b", Wanted::Binary(Binary::Add)),
    (b"a - b", Wanted::Binary(Binary::Subtract)),
    (b"a * b", Wanted::Binary(Binary::Multiply)),
    (b"a / b", Wanted::Binary(Binary::Divide)),
    (b"a % b", Wanted::Binary(Binary::Remainder)),
    // prefixes and calls
    (b"not a", Wanted::Unary(Unary::Not)),
    (b"-a", Wanted::Unary(Unary::Negate)),
    (b"len(a)", Wanted::Unary(Unary::Len)),
    (b"words(a)", Wanted::Unary(Unary::Words)),
    (b"text(a)", Wanted::Unary(Unary::Text)),
    (b"number(a)", Wanted::Unary(Unary::Number)),
    (b"concat(a, b)", Wanted::Concat),
    (b"pick(a, b, c)", Wanted::Pick),
    // leaves
    (b"007", Wanted::Number(b"007")),
    (b"\"a\\n\"", Wanted::Text(b"a\n")),
    (b"true", Wanted::Bool(true)),
    (b"(false)", Wanted::Bool(false)),
    (b"a", Wanted::Name),
    (b"empty<int>", Wanted::Empty(Leaf::Int)),
    // literals, fields, indexes and sides
    (b"{k: a, emit: b}", Wanted::Record(&[b"k", b"emit"])),
    (b"[a, b]", Wanted::List),
    (b"a.in", Wanted::Field(b"in")),
    (b"a[b]", Wanted::Index),
    (b"left<int>(a)", Wanted::Side(Side::Left, Leaf::Int)),
    (b"right<text>(a)", Wanted::Side(Side::Right, Leaf::Text)),
];

/// Whether the expression is the wanted one.
fn is_wanted(expr: &Expr, wanted: Wanted) -> bool {
    match wanted {
        Wanted::Number(digits) => matches!(expr, Expr::Number(word) if word.is(digits)),
        Wanted::Text(text) => matches!(expr, Expr::Text(word) if word.is(text)),
        Wanted::Bool(truth) => matches!(expr, Expr::Bool(it) if *it == truth),
        Wanted::Name => is_name(expr, b"a"),
        Wanted::Empty(leaf) => matches!(expr, Expr::Empty(ty) if is_leaf(ty, leaf)),
        Wanted::Unary(operator) => is_unary(expr, operator),
        Wanted::Binary(operator) => is_binary(expr, operator),
        Wanted::Field(field) => is_field(expr, field),
        Wanted::Index => matches!(expr, Expr::Index(left, right) if are_two(left, right)),
        Wanted::Record(fields) => is_record(expr, fields),
        Wanted::List => matches!(expr, Expr::List(parts) if are_parts(parts.as_slice())),
        Wanted::Side(side, leaf) => is_side(expr, side, leaf),
        Wanted::Concat => matches!(expr, Expr::Concat(left, right) if are_two(left, right)),
        Wanted::Pick => is_pick(expr),
    }
}

fn is_a(part: &Held<Expr>) -> bool {
    is_name(part.get(), b"a")
}

fn are_two(left: &Held<Expr>, right: &Held<Expr>) -> bool {
    is_a(left) && is_name(right.get(), b"b")
}

fn are_parts(parts: &[Expr]) -> bool {
    match parts {
        [left, right] => is_name(left, b"a") && is_name(right, b"b"),
        _ => false,
    }
}

fn is_unary(expr: &Expr, wanted: Unary) -> bool {
    matches!(expr, Expr::Unary(operator, part) if *operator == wanted && is_a(part))
}

fn is_binary(expr: &Expr, wanted: Binary) -> bool {
    matches!(
        expr,
        Expr::Binary(operator, left, right) if *operator == wanted && are_two(left, right)
    )
}

fn is_field(expr: &Expr, wanted: &[u8]) -> bool {
    matches!(expr, Expr::Field(part, field) if field.is(wanted) && is_a(part))
}

fn is_record(expr: &Expr, wanted: &[&[u8]]) -> bool {
    match expr {
        Expr::Record(fields, parts) => {
            are_words(fields.as_slice(), wanted) && are_parts(parts.as_slice())
        }
        _ => false,
    }
}

fn is_side(expr: &Expr, wanted: Side, leaf: Leaf) -> bool {
    match expr {
        Expr::Side(side, ty, part) => *side == wanted && is_leaf(ty, leaf) && is_a(part),
        _ => false,
    }
}

fn is_pick(expr: &Expr) -> bool {
    match expr {
        Expr::Pick(test, yes, no) => are_two(test, yes) && is_name(no.get(), b"c"),
        _ => false,
    }
}

/// Whether the script has one function, whose body emits the wanted expression on line 1.
fn emits(ast: &Ast, wanted: Wanted) -> bool {
    match sole_body(ast) {
        Some(Body::Emit(line, None, expr)) => *line == 1 && is_wanted(expr, wanted),
        _ => false,
    }
}

/// Whether the text is read as the wanted expression.
fn is_read(alloc: Global, text: &[u8], wanted: Wanted) -> bool {
    match read(alloc, b"fn f(x: int) -> bool {emit ", text, b"}") {
        Ok(ast) => emits(&ast, wanted),
        Err(_) => false,
    }
}

#[test]
fn expressions(rt: HostRuntime) -> Result<(), Fail> {
    let alloc = rt.alloc();
    let other = EXPRESSIONS
        .iter()
        .position(|row| !is_read(alloc, row.0, row.1));
    assert_eq!(rt; other, None);
    Ok(())
}
