//! As many parts and levels as there may be, and one more.

use super::made::repeated;
use super::outcome::{Outcome, Repeated, told};
use flume_syntax::ScriptKind;
use std::alloc::Global;
use std::test::Fail;

const EMIT: &[u8] = b"fn f(x: r) -> r { emit ";

/// As many parts as there may be.
static PARTS: [Repeated<'static>; 6] = [
    (b"type r = {a: int", b",a: int", 15, b"}"),
    (b"fn f(x: r) -> r { emit {a: 1", b",a: 1", 15, b"} }"),
    (b"let a = flatten b", b",b", 255, b""),
    (b"let a = operate b", b",b", 255, b" by f"),
    (b"fn f(x: r) -> r { emit [a", b",a", 63, b"] }"),
    (b"fn f(x: r) -> r", b",r", 7, b" {}"),
];

/// As many levels.
static LEVELS: [Repeated<'static>; 3] = [
    (
        b"type t = ",
        b"list<",
        31,
        b"int>>>>>>>>>>>>>>>>>>>>>>>>>>>>>>>",
    ),
    (EMIT, b"1+", 30, b"1}"),
    (EMIT, b"[", 30, b"1]]]]]]]]]]]]]]]]]]]]]]]]]]]]]]}"),
];

/// The statements of a body and the names of a let, which have no limit here.
static UNLIMITED: [Repeated<'static>; 2] = [
    (b"fn f(x: r) -> r {", b"emit 1\n", 9000, b"}"),
    (b"let a", b",a", 300, b" = do c f"),
];

/// Whether the script is one statement.
fn is_one(alloc: Global, script: Repeated<'_>) -> bool {
    told(alloc, script) == Outcome::Statements(1)
}

/// What comes of a piece more, which stands on line 2.
fn with_more(alloc: Global, script: Repeated<'_>) -> Outcome {
    let (before, piece, times, after) = script;
    match repeated(alloc, before, piece, times, b"\n") {
        Ok(begun) => told(alloc, (&begun, piece, 1, after)),
        Err(_) => Outcome::WantOfMemory,
    }
}

/// Whether so many are accepted, and one more is refused for that.
fn is_limit(alloc: Global, script: Repeated<'_>, kind: ScriptKind) -> bool {
    is_one(alloc, script) && with_more(alloc, script) == Outcome::Refused(2, kind)
}

#[test]
fn limits(rt: HostRuntime) -> Result<(), Fail> {
    let alloc = rt.alloc();
    let other = PARTS
        .iter()
        .position(|row| !is_limit(alloc, *row, ScriptKind::TooMany));
    assert_eq!(rt; other, None);
    let other = LEVELS
        .iter()
        .position(|row| !is_limit(alloc, *row, ScriptKind::TooDeep));
    assert_eq!(rt; other, None);
    let other = UNLIMITED.iter().position(|row| !is_one(alloc, *row));
    assert_eq!(rt; other, None);
    Ok(())
}
