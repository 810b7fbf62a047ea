// Texts on both sides of the 22 bytes that stand in place, as one table.
use flume_value::Str;
use std::alloc::{AllocError, Global};
use std::cmp::Ordering;
use std::test::Fail;

/// Two texts, how the first stands to the second, and the bytes of both together.
type Pair = (&'static [u8], &'static [u8], Ordering, &'static [u8]);

const LESS: Ordering = Ordering::Less;

const SAME: Ordering = Ordering::Equal;

const MORE: Ordering = Ordering::Greater;

// texts of 21, 22 and 23 bytes, the shorter at the front of the longer
const A21: &[u8] = b"abcdefghijklmnopqrstu";

const A22: &[u8] = b"abcdefghijklmnopqrstuv";

const A23: &[u8] = b"abcdefghijklmnopqrstuvw";

static PAIRS: [Pair; 24] = [
    (b"", b"", SAME, b""),
    (b"", b"\0", LESS, b"\0"),
    (b"a", b"", MORE, b"a"),
    (b"a", b"b", LESS, b"ab"),
    (b"\xff", b"\x7f", MORE, b"\xff\x7f"),
    (b"north", b"northern", LESS, b"northnorthern"),
    // the same first eight bytes, and the same first sixteen
    (b"abcdefghz", b"abcdefgha", MORE, b"abcdefghzabcdefgha"),
    (
        b"abcdefghijklmnopq",
        b"abcdefghijklmnopr",
        LESS,
        b"abcdefghijklmnopqabcdefghijklmnopr",
    ),
    // zeros at the end count
    (b"ab\0", b"ab", MORE, b"ab\0ab"),
    (b"ab\0", b"ab\0\0", LESS, b"ab\0ab\0\0"),
    (b"\0\0", b"\0\0", SAME, b"\0\0\0\0"),
    (
        b"abcdefghijklmnopqrstu\0",
        A21,
        MORE,
        b"abcdefghijklmnopqrstu\0abcdefghijklmnopqrstu",
    ),
    (
        b"abcdefghijklmnopqrstuv\0",
        A22,
        MORE,
        b"abcdefghijklmnopqrstuv\0abcdefghijklmnopqrstuv",
    ),
    (
        b"abcdefghijklmnopqrst\0",
        b"\0",
        MORE,
        b"abcdefghijklmnopqrst\0\0",
    ),
    // up to the edge, and across it
    (A21, b"", MORE, A21),
    (A21, b"v", LESS, A22),
    (A21, b"vw", LESS, A23),
    (A22, b"", MORE, A22),
    (A22, b"w", LESS, A23),
    (b"", A23, LESS, A23),
    // a text in place beside a longer one
    (
        A22,
        A23,
        LESS,
        b"abcdefghijklmnopqrstuvabcdefghijklmnopqrstuvw",
    ),
    (b"abcdefghj", A23, MORE, b"abcdefghjabcdefghijklmnopqrstuvw"),
    // two longer ones
    (
        A23,
        A23,
        SAME,
        b"abcdefghijklmnopqrstuvwabcdefghijklmnopqrstuvw",
    ),
    (
        A23,
        b"abcdefghijklmnopqrstuvx",
        LESS,
        b"abcdefghijklmnopqrstuvwabcdefghijklmnopqrstuvx",
    ),
];

fn has(text: &Str, bytes: &[u8]) -> bool {
    text.is(bytes)
        && text.as_bytes() == bytes
        && text.len() == bytes.len()
        && text.is_empty() == bytes.is_empty()
}

fn stand_so(front: &Str, back: &Str, order: Ordering) -> bool {
    front.cmp(back) == order
        && back.cmp(front) == order.reverse()
        && (front == back) == order.is_eq()
}

/// Whether a copy's bytes, taken out and put back, make the same text.
fn comes_back(alloc: Global, text: &Str) -> Result<bool, AllocError> {
    let again = Str::from_vec(text.copy(alloc)?.into_vec()?)?;
    Ok(again == *text)
}

/// Whether the first text, with the other behind it, has these bytes.
fn is_joined(alloc: Global, front: &[u8], back: &Str, whole: &[u8]) -> Result<bool, AllocError> {
    let joined = Str::from_slice(alloc, front)?.joined(alloc, back)?;
    Ok(has(&joined, whole) && comes_back(alloc, &joined)?)
}

/// Whether the pair's second text stands so to the first, which has the bytes that are told.
fn stands_so(alloc: Global, back: &Str, it: Pair) -> Result<bool, AllocError> {
    let front = Str::from_slice(alloc, it.0)?;
    Ok(has(&front, it.0) && stand_so(&front, back, it.2))
}

fn are_so(alloc: Global, it: Pair) -> Result<bool, AllocError> {
    let back = Str::from_slice(alloc, it.1)?;
    Ok(stands_so(alloc, &back, it)? && is_joined(alloc, it.0, &back, it.3)?)
}

#[test]
fn orders_and_joins_texts(rt: HostRuntime) -> Result<(), Fail> {
    let alloc = rt.alloc();
    let other = PAIRS
        .iter()
        .position(|pair| !matches!(are_so(alloc, *pair), Ok(true)));
    assert_eq!(rt; other, None);
    Ok(())
}
