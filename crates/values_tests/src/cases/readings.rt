// Rows of bytes, and the value that is read from each, if there is one.
use super::samples::{Sample, value_of};
use flume_value::{Value, equals};
use std::alloc::{AllocError, Global};
use std::test::Fail;
use value_reading::{ReadFault, read_canonical};

/// Canonical bytes and their value.
type Read = (&'static [u8], Sample);

static READ: [Read; 12] = [
    (b"\x01\xff\xff\xff\xff\xff\xff\xff\xfe", Sample::Int(-2)),
    (
        b"\x01\x7f\xff\xff\xff\xff\xff\xff\xff",
        Sample::Int(i64::MAX),
    ),
    (b"\x02\0", Sample::Bool(false)),
    (b"\x02\x01", Sample::Bool(true)),
    (
        b"\x08\xff\xff\xff\xff\xff\xff\xff\xff\xff\xff\xff\xff\xff\xff\xff\xff",
        Sample::Wide(-1),
    ),
    (b"\x03\0\0\0\0\0\0\0\0", Sample::Text(b"")),
    (b"\x03\0\0\0\0\0\0\0\x02hi", Sample::Text(b"hi")),
    (b"\x04\0\0\0\0\0\0\0\0", Sample::Empty),
    (
        b"\x04\0\0\0\0\0\0\0\x01\x04\0\0\0\0\0\0\0\x01\x01\0\0\0\0\0\0\0\x07",
        Sample::Nested,
    ),
    (
        b"\x05\0\0\0\0\0\0\0\x02\x01\0\0\0\0\0\0\0\x01\x03\0\0\0\0\0\0\0\x02hi",
        Sample::Record,
    ),
    (b"\x06\x02\0", Sample::Left),
    (b"\x07\x02\0", Sample::Right),
];

/// Bytes of no value: none; another first byte; a truth that is neither; a part cut off, or one
/// that is there twice; more members than there are; and a value of 17 levels.
static NOT_ONE: [&[u8]; 12] = [
    b"",
    b"\0",
    b"\x09\0",
    b"\x02",
    b"\x02\x02",
    b"\x02\0\0",
    b"\x01\0\0\0\0\0\0\x07",
    b"\x03\0\0\0\0\0\0\0\x03hi",
    b"\x03\0\0\0\0\0\0\0\x01hi",
    b"\x04\0\0\0\0\0\0\0\x02\x02\0",
    b"\x04\xff\xff\xff\xff\xff\xff\xff\xff\x02\0",
    b"\x06\x06\x06\x06\x06\x06\x06\x06\x06\x06\x06\x06\x06\x06\x06\x06\x02\0",
];

fn is_value(alloc: Global, read: &Value, sample: Sample) -> Result<bool, AllocError> {
    let value = value_of(alloc, sample)?;
    Ok(equals(read, &value))
}

fn is_read(alloc: Global, it: Read) -> Result<bool, ReadFault> {
    let read = read_canonical(alloc, it.0)?;
    Ok(is_value(alloc, &read, it.1)?)
}

fn is_taken(alloc: Global, bytes: &[u8]) -> bool {
    !matches!(read_canonical(alloc, bytes), Err(ReadFault::NotOne))
}

#[test]
fn reads_what_was_written(rt: HostRuntime) -> Result<(), Fail> {
    let alloc = rt.alloc();
    let other = READ
        .iter()
        .position(|it| !matches!(is_read(alloc, *it), Ok(true)));
    assert_eq!(rt; other, None);
    Ok(())
}

#[test]
fn reads_nothing_else(rt: HostRuntime) -> Result<(), Fail> {
    let alloc = rt.alloc();
    assert_eq!(rt;
        NOT_ONE.iter().position(|bytes| is_taken(alloc, *bytes)),
        None
    );
    Ok(())
}

/// Fifteen eithers round a truth are 16 levels, which are read.
#[test]
fn reads_sixteen_levels(rt: HostRuntime) -> Result<(), Fail> {
    let bytes = b"\x06\x06\x06\x06\x06\x06\x06\x06\x06\x06\x06\x06\x06\x06\x06\x02\0";
    assert_eq!(rt; read_canonical(rt.alloc(), bytes).is_ok(), true);
    Ok(())
}
