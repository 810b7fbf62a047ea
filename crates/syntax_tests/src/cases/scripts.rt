// Rows of scripts that are accepted, and of pairs of trees.
use super::made::repeated;
use super::outcome::{Outcome, Repeated, first_wrong, parsed};
use flume_syntax::Ast;
use std::alloc::Global;
use std::test::Fail;

/// Scripts, and how many statements each has.
static SMALL: [(&[u8], Outcome); 6] = [
    (b"", Outcome::Statements(0)),
    (
        b"type r = {type: int, fn: either<table<r, list<bool>>, text>}\n\
          input a: r from \"f\"\n\
          let b = do a f let c = flatten b, b, a\n\
          let d = combine c by top 3 let e = join c, d let f = top 2 e\n\
          let g = count f let h = group g output h to \"o\"",
        Outcome::Statements(10),
    ),
    (
        b"fn f(x: r) -> int scale 20 { \
          let y = not x.type == 1 and -2 * 3 - 4 < 5 or true \
          if y { emit [1, 2][0] } else { for z in words(\"a b\") { emit len(z) } } \
          case left<int>({k: 1, v: empty<int>}.v) \
          left a { emit concat(a, text(number(\"7\"))) } \
          right b { emit pick(false, right<list<int>>(1), b) } }",
        Outcome::Statements(1),
    ),
    (
        b"fn f(y: r) -> int, text scale 2 { emit y.x emit to 2 text(y.x) emit to 1 -1 }\n\
          let b, c = do a f let d = flatten b, b let e, g = group c",
        Outcome::Statements(4),
    ),
    (
        b"let t = combineall b by sum let u = operate t by f\n\
          let v = operate t, u by g let c = do b h with v let d = do c k output d to \"o\"",
        Outcome::Statements(6),
    ),
    // words that are reserved may name fields
    (
        b"fn f(r: {with: int, operate: int}) -> int { \
          emit r.with - {combineall: r.operate}.combineall }",
        Outcome::Statements(1),
    ),
];

const EMIT: &[u8] = b"fn f(x: r) -> r { emit ";

/// Whether the script is read, and its tree is, or is not, the same as another.
fn is_beside(alloc: Global, script: Repeated<'_>, other: &Ast, same: bool) -> bool {
    match parsed(alloc, script) {
        Ok(ast) => (ast == *other) == same,
        Err(_) => false,
    }
}

/// Whether both scripts are read, and their trees are, or are not, the same.
fn are_beside(alloc: Global, one: Repeated<'_>, other: Repeated<'_>, same: bool) -> bool {
    match parsed(alloc, one) {
        Ok(ast) => is_beside(alloc, other, &ast, same),
        Err(_) => false,
    }
}

/// Whether the trees of both expressions are, or are not, the same.
fn are_pair(alloc: Global, one: &[u8], other: &[u8], same: bool) -> bool {
    are_beside(alloc, (EMIT, one, 1, b" }"), (EMIT, other, 1, b" }"), same)
}

/// Two expressions, and whether their trees are the same.
type Pair<'a> = (&'a [u8], &'a [u8], bool);

static PARENTHESES: [Pair<'static>; 8] = [
    (b"1 - 2 - 3", b"((1 - 2) - 3)", true),
    (b"1 - 2 - 3", b"1 - (2 - 3)", false),
    (b"a or b and c", b"a or (b and c)", true),
    (b"not a == b and c", b"(not (a == b)) and c", true),
    (b"a + b * c < -d % e", b"(a + (b * c)) < ((-d) % e)", true),
    (b"-a.in[0].b", b"-(((a.in)[0]).b)", true),
    (
        b"pick(a, {k: 1}, [b]).k",
        b"(pick((a), {k: (1)}, [(b)])).k",
        true,
    ),
    (
        b"left<int>(a) == right<int>(a)",
        b"(left<int>((a))) == (right<int>((a)))",
        true,
    ),
];

/// Whether `x.v` in so many parentheses has the tree of `x.v` alone. Parentheses open no depth, and
/// none is kept open on the stack.
fn is_field_within(alloc: Global, parentheses: usize) -> bool {
    let field: Repeated<'_> = (EMIT, b"x.v", 1, b"}");
    match repeated(alloc, EMIT, b"(", parentheses, b"x.v") {
        Ok(open) => are_beside(alloc, (&open, b")", parentheses, b"}"), field, true),
        Err(_) => false,
    }
}

#[test]
fn accepted_scripts(rt: HostRuntime) -> Result<(), Fail> {
    let alloc = rt.alloc();
    assert_eq!(rt; first_wrong(alloc, &SMALL), None);
    Ok(())
}

#[test]
fn parentheses_show_the_tree(rt: HostRuntime) -> Result<(), Fail> {
    let alloc = rt.alloc();
    let other = PARENTHESES
        .iter()
        .position(|row| !are_pair(alloc, row.0, row.1, row.2));
    assert_eq!(rt; other, None);
    assert!(rt; is_field_within(alloc, 30000));
    Ok(())
}
