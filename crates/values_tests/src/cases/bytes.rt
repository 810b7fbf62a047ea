// Rows of values, the canonical bytes of each, and its partition.
use super::samples::{Sample, value_of};
use flume_value::{Value, canonical_bytes, partition};
use std::alloc::{AllocError, Global};
use std::test::Fail;

/// A value, its canonical bytes, and its partition of so many.
type Written = (Sample, &'static [u8], u32, u32);

const MOST: u32 = u32::MAX;

static WRITTEN: [Written; 14] = [
    (
        Sample::Int(-2),
        b"\x01\xff\xff\xff\xff\xff\xff\xff\xfe",
        MOST,
        1000869650,
    ),
    (Sample::Bool(false), b"\x02\0", MOST, 3173681734),
    (Sample::Bool(true), b"\x02\x01", MOST, 3173681043),
    (
        Sample::Wide(-1),
        b"\x08\xff\xff\xff\xff\xff\xff\xff\xff\xff\xff\xff\xff\xff\xff\xff\xff",
        MOST,
        3862871941,
    ),
    (Sample::Text(b""), b"\x03\0\0\0\0\0\0\0\0", MOST, 848951146),
    (
        Sample::Text(b"a"),
        b"\x03\0\0\0\0\0\0\0\x01\x61",
        MOST,
        650544188,
    ),
    (
        Sample::Text(b"hi"),
        b"\x03\0\0\0\0\0\0\0\x02hi",
        MOST,
        5335092,
    ),
    (Sample::Text(b"a"), b"\x03\0\0\0\0\0\0\0\x01\x61", 2, 0),
    (Sample::Text(b"b"), b"\x03\0\0\0\0\0\0\0\x01\x62", 2, 1),
    (Sample::Empty, b"\x04\0\0\0\0\0\0\0\0", MOST, 1786740279),
    (
        Sample::Nested,
        b"\x04\0\0\0\0\0\0\0\x01\x04\0\0\0\0\0\0\0\x01\x01\0\0\0\0\0\0\0\x07",
        MOST,
        3277255589,
    ),
    (
        Sample::Record,
        b"\x05\0\0\0\0\0\0\0\x02\x01\0\0\0\0\0\0\0\x01\x03\0\0\0\0\0\0\0\x02hi",
        MOST,
        3505080422,
    ),
    (Sample::Left, b"\x06\x02\0", MOST, 709222604),
    (Sample::Right, b"\x07\x02\0", MOST, 479937149),
];

fn has_bytes(alloc: Global, value: &Value, bytes: &[u8]) -> Result<bool, AllocError> {
    let written = canonical_bytes(alloc, value)?;
    Ok(written.as_slice() == bytes)
}

fn has_partition(value: &Value, parts: u32, part: u32) -> bool {
    1 <= parts && partition(value, parts) == part
}

/// Whether the value is written and parted so.
fn is_so(alloc: Global, value: &Value, it: Written) -> Result<bool, AllocError> {
    let (_, bytes, parts, part) = it;
    Ok(has_bytes(alloc, value, bytes)? && has_partition(value, parts, part))
}

fn is_written(alloc: Global, it: Written) -> Result<bool, AllocError> {
    let value = value_of(alloc, it.0)?;
    is_so(alloc, &value, it)
}

#[test]
fn writes_and_parts_values(rt: HostRuntime) -> Result<(), Fail> {
    let alloc = rt.alloc();
    let other = WRITTEN
        .iter()
        .position(|it| !matches!(is_written(alloc, *it), Ok(true)));
    assert_eq!(rt; other, None);
    Ok(())
}
