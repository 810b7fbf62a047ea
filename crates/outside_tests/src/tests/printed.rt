// Values on screens in memory. The printed texts are written by hand.
use flume_value::{Held, Items, Pile, Str, Value};
use memory_outside::MemScreen;
use printing::{joined, push_quoted, say_named, say_value};
use std::alloc::{AllocError, Global};
use std::test::Fail as TestFail;

// A value that is printed, as plain data.
#[derive(Clone, Copy)]
enum Sample {
    Int(i64),
    Wide(i128),
    Bool(bool),
    Text(&'static [u8]),
    // a list and a record of nothing
    NoItems,
    NoParts,
    // the list of a 1 and a 2
    Items,
    // a 1 on the left, a false on the right
    Left,
    Right,
    Nested,
}

fn value_of(alloc: Global, sample: Sample) -> Result<Value, AllocError> {
    match sample {
        Sample::Int(n) => Ok(Value::Int(n)),
        Sample::Wide(n) => Ok(Value::Wide(n)),
        Sample::Bool(b) => Ok(Value::Bool(b)),
        Sample::Text(bytes) => text(alloc, bytes),
        Sample::NoItems => Ok(Value::List(Pile::new(alloc))),
        Sample::NoParts => Ok(Value::Rec(Pile::new(alloc))),
        Sample::Items => ints(alloc, 1, 2),
        Sample::Left => left(alloc, Value::Int(1)),
        Sample::Right => right(alloc, Value::Bool(false)),
        Sample::Nested => nested(alloc),
    }
}

fn text(alloc: Global, bytes: &[u8]) -> Result<Value, AllocError> {
    Ok(Value::Text(Str::from_slice(alloc, bytes)?))
}

fn two(alloc: Global, first: Value, second: Value) -> Result<Items, AllocError> {
    let mut items = Pile::new(alloc);
    items.push(first)?;
    items.push(second)?;
    Ok(items)
}

fn ints(alloc: Global, first: i64, second: i64) -> Result<Value, AllocError> {
    Ok(Value::List(two(alloc, Value::Int(first), Value::Int(second))?))
}

fn left(alloc: Global, part: Value) -> Result<Value, AllocError> {
    Ok(Value::Left(Held::new(alloc, part)?))
}

fn right(alloc: Global, part: Value) -> Result<Value, AllocError> {
    Ok(Value::Right(Held::new(alloc, part)?))
}

// An empty list, and a list of numbers.
fn lists(alloc: Global) -> Result<Value, AllocError> {
    let list = ints(alloc, 1, -2)?;
    Ok(Value::List(two(alloc, Value::List(Pile::new(alloc)), list)?))
}

// An either of a record.
fn sides(alloc: Global) -> Result<Value, AllocError> {
    let pair = two(alloc, Value::Bool(true), text(alloc, b"a,b")?)?;
    right(alloc, left(alloc, Value::Rec(pair))?)
}

// A record of a list, of an either of a record, and of a record of nothing.
fn nested(alloc: Global) -> Result<Value, AllocError> {
    let mut parts = Pile::new(alloc);
    push_parts(alloc, &mut parts)?;
    Ok(Value::Rec(parts))
}

fn push_parts(alloc: Global, parts: &mut Items) -> Result<(), AllocError> {
    parts.push(lists(alloc)?)?;
    parts.push(sides(alloc)?)?;
    parts.push(Value::Rec(Pile::new(alloc)))
}

// Values, and what is printed of them.
static PRINTED: [(Sample, &[u8]); 16] = [
    (Sample::Int(0), b"0"),
    (Sample::Int(-7), b"-7"),
    (Sample::Int(i64::MAX), b"9223372036854775807"),
    (Sample::Int(i64::MIN), b"-9223372036854775808"),
    (
        Sample::Wide(-9_223_372_036_854_775_809),
        b"-9223372036854775809",
    ),
    (Sample::Bool(true), b"true"),
    (Sample::Bool(false), b"false"),
    (Sample::Text(b""), b"\"\""),
    (Sample::Text(b"a \x01'\xff/"), b"\"a \x01'\xff/\""),
    (
        Sample::Text(b"a\nb\tc\rd\\e\"f"),
        b"\"a\\nb\\tc\\rd\\\\e\\\"f\"",
    ),
    (Sample::NoItems, b"[]"),
    (Sample::NoParts, b"()"),
    (Sample::Items, b"[1, 2]"),
    (Sample::Left, b"left(1)"),
    (Sample::Right, b"right(false)"),
    (
        Sample::Nested,
        b"([[], [1, -2]], right(left((true, \"a,b\"))), ())",
    ),
];

// A screen in memory, whose calls of these numbers fail.
fn screen_of(alloc: Global, fails: &[u32]) -> Result<MemScreen, AllocError> {
    let fails = Pile::from_vec(Vec::from_slice(alloc, fails)?);
    MemScreen::new(alloc, fails, 200)
}

// Whether the value is said whole to the screen, where this text is then all that it has.
fn says(screen: &mut MemScreen, value: &Value, wanted: &[u8]) -> bool {
    say_value(screen, value).is_ok() && screen.text() == wanted
}

fn is_said(alloc: Global, value: &Value, wanted: &[u8]) -> Result<bool, AllocError> {
    let mut screen = screen_of(alloc, &[])?;
    Ok(says(&mut screen, value, wanted))
}

fn is_printed(alloc: Global, sample: Sample, wanted: &[u8]) -> Result<bool, AllocError> {
    let value = value_of(alloc, sample)?;
    is_said(alloc, &value, wanted)
}

// The place of the first value that is printed otherwise.
fn first_other(alloc: Global, table: &[(Sample, &[u8])]) -> Option<usize> {
    for place in 0..table.len() {
        let (sample, wanted) = table[place];
        if !matches!(is_printed(alloc, sample, wanted), Ok(true)) {
            return Some(place);
        }
    }
    None
}

// Whether the screen fails once at the value, and keeps this text.
fn fails_at(screen: &mut MemScreen, value: &Value, kept: &[u8]) -> bool {
    say_value(screen, value).is_err() && screen.text() == kept && screen.faults() == 1
}

// Whether a screen whose second call fails keeps what was said of a list before it.
fn stops_behind_one(alloc: Global, value: &Value) -> Result<bool, AllocError> {
    let mut screen = screen_of(alloc, &[1])?;
    Ok(fails_at(&mut screen, value, b"["))
}

// Whether a screen that fails keeps what was said before the call that failed.
fn stops(alloc: Global) -> Result<bool, AllocError> {
    let value = ints(alloc, 1, 2)?;
    stops_behind_one(alloc, &value)
}

// Whether the name is said in quotes between what stands before and behind it.
fn says_name(screen: &mut MemScreen) -> bool {
    say_named(screen, b"no file: ", b"a\"b", &[b"!", b"\n"]).is_ok()
        && screen.text() == b"no file: \"a\\\"b\"!\n".as_slice()
}

fn is_named(alloc: Global) -> Result<bool, AllocError> {
    let mut screen = screen_of(alloc, &[])?;
    Ok(says_name(&mut screen))
}

// Whether the name is written in quotes into a buffer.
fn is_joined(alloc: Global) -> Result<bool, AllocError> {
    let mut line = joined(alloc, &[b"no ", b"file: "])?;
    push_quoted(&mut line, b"a\"b")?;
    Ok(line.as_slice() == b"no file: \"a\\\"b\"".as_slice())
}

#[test]
fn prints_values_and_names(rt: HostRuntime) -> Result<(), TestFail> {
    let alloc = rt.alloc();
    assert_eq!(&rt; first_other(alloc, &PRINTED), None);
    assert!(&rt; stops(alloc)?);
    assert!(&rt; is_named(alloc)?);
    assert!(&rt; is_joined(alloc)?);
    Ok(())
}
