//! The trees of lets with repeat.

use super::operations::{Operated, is_operation};
use super::parts::{are_words, read, sole};
use flume_syntax::{Ast, Form, Repeat, TurnLet};
use flume_value::Str;
use std::alloc::Global;
use std::test::Fail;

/// A let of a body: its line, its names, and its operation.
type Inner = (u32, &'static [&'static [u8]], Operated);

/// What stands in a let with repeat.
#[derive(Clone, Copy)]
struct Wanted {
    names: &'static [&'static [u8]],
    turns: &'static [u8],
    from: &'static [&'static [u8]],
    entering: &'static [&'static [u8]],
    lets: &'static [Inner],
    gives: &'static [&'static [u8]],
}

static REPEATS: [(&[u8], Wanted); 4] = [
    (
        b"let t = repeat 3 from a as c { let d = do c f give d }",
        Wanted {
            names: &[b"t"],
            turns: b"3",
            from: &[b"a"],
            entering: &[b"c"],
            lets: &[(1, &[b"d"], Operated::Do(b"f"))],
            gives: &[b"d"],
        },
    ),
    (
        b"let p, q = repeat 257 from a, b as c, e {\n let x, y = do c f\n\n\
            let z = flatten c, e let w = group c give y, z }",
        Wanted {
            names: &[b"p", b"q"],
            turns: b"257",
            from: &[b"a", b"b"],
            entering: &[b"c", b"e"],
            lets: &[
                (2, &[b"x", b"y"], Operated::Do(b"f")),
                (4, &[b"z"], Operated::Flatten(&[b"c", b"e"])),
                (4, &[b"w"], Operated::Group),
            ],
            gives: &[b"y", b"z"],
        },
    ),
    // objects in a body; behind an operation another let stands, or `give`
    (
        b"let t = repeat 2 from a as c { let n = combineall c by max let d = do c f with n\n\
            let e = do c f let g = operate n, n by h give g }",
        Wanted {
            names: &[b"t"],
            turns: b"2",
            from: &[b"a"],
            entering: &[b"c"],
            lets: &[
                (1, &[b"n"], Operated::CombineAll(b"max")),
                (1, &[b"d"], Operated::DoWith(b"f", b"n")),
                (2, &[b"e"], Operated::Do(b"f")),
                (2, &[b"g"], Operated::Operate(&[b"n", b"n"], b"h")),
            ],
            gives: &[b"g"],
        },
    ),
    // how many names there are, and whether they differ, is no matter of the grammar
    (
        b"let t = repeat 000 from t, t as t { give t, d, e }",
        Wanted {
            names: &[b"t"],
            turns: b"000",
            from: &[b"t", b"t"],
            entering: &[b"t"],
            lets: &[],
            gives: &[b"t", b"d", b"e"],
        },
    ),
];

fn is_inner(it: &TurnLet, wanted: Inner) -> bool {
    let (line, names, operated) = wanted;
    it.line == line && are_words(it.names.as_slice(), names) && is_operation(&it.by, operated)
}

fn are_inner(lets: &[TurnLet], wanted: &[Inner]) -> bool {
    if lets.len() != wanted.len() {
        return false;
    }
    for (it, inner) in lets.iter().zip(wanted.iter()) {
        if !is_inner(it, *inner) {
            return false;
        }
    }
    true
}

fn is_repeat(names: &[Str], repeat: &Repeat, wanted: Wanted) -> bool {
    are_words(names, wanted.names)
        && repeat.turns.is(wanted.turns)
        && are_words(repeat.from.as_slice(), wanted.from)
        && are_words(repeat.entering.as_slice(), wanted.entering)
        && are_inner(repeat.lets.as_slice(), wanted.lets)
        && are_words(repeat.gives.as_slice(), wanted.gives)
}

fn has_repeat(ast: &Ast, wanted: Wanted) -> bool {
    match sole(ast) {
        Some(Form::Repeat(names, repeat)) => is_repeat(names.as_slice(), repeat, wanted),
        _ => false,
    }
}

/// Whether the script is read as the wanted let.
fn is_read(alloc: Global, script: &[u8], wanted: Wanted) -> bool {
    match read(alloc, b"", script, b"") {
        Ok(ast) => has_repeat(&ast, wanted),
        Err(_) => false,
    }
}

#[test]
fn repeats(rt: HostRuntime) -> Result<(), Fail> {
    let alloc = rt.alloc();
    let other = REPEATS.iter().position(|row| !is_read(alloc, row.0, row.1));
    assert_eq!(rt; other, None);
    Ok(())
}
