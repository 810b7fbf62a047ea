//! The first fault of a script: its line and its kind.

use super::outcome::{Outcome, Repeated, as_it_is, first_wrong, told};
use flume_syntax::ScriptKind;
use std::test::Fail;

/// Scripts with the first fault of each.
static FAULTS: [(&[u8], Outcome); 9] = [
    (b"type type = int", Outcome::Refused(1, ScriptKind::Syntax)),
    (b"@", Outcome::Refused(1, ScriptKind::Token)),
    (b"\xff", Outcome::Refused(1, ScriptKind::Utf8)),
    (
        b"type aaaaaaaaaaaaaaaaaaaaaaaaaaaaaaaaa = int",
        Outcome::Refused(1, ScriptKind::TooLong),
    ),
    (
        b"# type ( \ntype r = # int\n\n  @@",
        Outcome::Refused(4, ScriptKind::Token),
    ),
    (
        b"type r = int\r\n\r\ntype r int",
        Outcome::Refused(3, ScriptKind::Syntax),
    ),
    (
        b"let t = combineall c,\nd by sum",
        Outcome::Refused(1, ScriptKind::Syntax),
    ),
    // at the end of the tokens a fault is on the last line
    (b"type r =", Outcome::Refused(1, ScriptKind::Syntax)),
    (
        b"type r = # int\r\n\r\n",
        Outcome::Refused(3, ScriptKind::Syntax),
    ),
];

/// Scripts in which the first token that cannot go on stands on line 2.
static ASTRAY: [&[u8]; 33] = [
    b"# a comment\ntype r = (",
    b"fn f(x: r) -> r { emit 1 < 2\n< 3 }",
    b"fn f(x: r) -> r { emit 1 +\nnot 2 }",
    b"fn f(x: r) -> r { emit 1\n}}",
    b"fn f(x: r) -> r { emit to\nx }",
    b"fn f(x: r) -> r { emit to 2\nto }",
    b"fn f(x: r) -> r,\n{ }",
    b"let a,\n= do c f",
    b"let a\nb = do c f",
    b"let a\n, b, = do c f",
    // a repeat in a repeat, no give, nothing else in a body, and names that are reserved
    b"let t = repeat 2 from a as c { let d =\nrepeat 2 from c as e { give e } give d }",
    b"let t = repeat 2 from a as c { let d = do c f\n}",
    b"let t = repeat\nfrom a as c { give c }",
    b"let t = repeat 2 from a\n{ give a }",
    b"let t = repeat 2 from a as c {\ntype r = int give c }",
    b"let t = repeat 2 from a as c { give c\nlet d = do c f }",
    b"let t = repeat 2 from\nas as c { give c }",
    b"let\ngive = do c f",
    b"let t = repeat 2 from a as c { give c\n",
    // operations with objects that lack a part or have another, and names that are reserved
    b"let t = combineall\nby sum",
    b"let t = combineall c\nsum",
    b"let t = combineall c by\nf",
    b"let t = operate o,\nby f",
    b"let t = operate o, p\nf",
    b"let t = operate o by\nsum",
    b"let t = do c f with\n",
    b"let t = do c f with o\n, p",
    b"let t = do c f with o\nwith p",
    b"let t = group c\nwith o",
    b"let\nwith = do c f",
    b"let t = do\noperate f",
    // at the end of the tokens a fault is on the last line
    b"type r =\n",
    b"fn f(x: r) -> r { emit 1\n",
];

/// Scripts that are too long, or nearly so, and one that is too deep.
static LONG: [(Repeated<'static>, Outcome); 4] = [
    ((b"", b"\n", 65536, b""), Outcome::Statements(0)),
    (
        (b"", b"\n", 65537, b""),
        Outcome::Refused(0, ScriptKind::TooLong),
    ),
    (
        (b"fn f(x: r) -> r { emit\n", b"(", 30000, b"x"),
        Outcome::Refused(2, ScriptKind::Syntax),
    ),
    (
        (b"fn f(x: r) -> r { emit ", b"[", 30, b"1\n+ 1"),
        Outcome::Refused(2, ScriptKind::TooDeep),
    ),
];

#[test]
fn first_faults(rt: HostRuntime) -> Result<(), Fail> {
    let alloc = rt.alloc();
    assert_eq!(rt; first_wrong(alloc, &FAULTS), None);
    let astray = Outcome::Refused(2, ScriptKind::Syntax);
    let other = ASTRAY
        .iter()
        .position(|script| told(alloc, as_it_is(*script)) != astray);
    assert_eq!(rt; other, None);
    assert_eq!(rt;
        LONG.iter().position(|row| told(alloc, row.0) != row.1),
        None
    );
    Ok(())
}
