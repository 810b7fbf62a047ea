// Calls of a cache in memory, one after another, and what each of them answers.
use cache_store::{Cache, FindFault, NoCache};
use flume_value::Pile;
use memory_outside::MemCache;
use std::alloc::{AllocError, Global};
use std::test::Fail;

/// A call, and its answer.
#[derive(Clone, Copy)]
enum Call {
    /// The value is kept under the key.
    Keeps(&'static [u8], &'static [u8]),
    /// It is not.
    Refuses(&'static [u8], &'static [u8]),
    /// The value of the key is found.
    Finds(&'static [u8], &'static [u8]),
    /// There is none.
    Lacks(&'static [u8]),
    /// The look for it fails.
    Fails(&'static [u8]),
}

/// A cache of two entries and twelve bytes, whose calls 3 and 5 fail.
static CALLS: [Call; 16] = [
    Call::Lacks(b"a"),
    Call::Keeps(b"a", b"one"),
    Call::Finds(b"a", b"one"),
    Call::Fails(b"a"),
    Call::Finds(b"a", b"one"),
    Call::Refuses(b"b", b"two"),
    Call::Lacks(b"b"),
    Call::Keeps(b"b", b"two"),
    Call::Keeps(b"a", b"three"),
    Call::Finds(b"a", b"three"),
    Call::Refuses(b"c", b""),
    Call::Lacks(b"c"),
    Call::Refuses(b"b", b"seven!"),
    Call::Finds(b"b", b"two"),
    Call::Keeps(b"a", b""),
    Call::Keeps(b"b", b"ten bytes."),
];

/// A cache that has none and keeps none.
static NONE: [Call; 3] = [
    Call::Lacks(b"a"),
    Call::Refuses(b"a", b"one"),
    Call::Lacks(b"a"),
];

fn finds<C: Cache>(alloc: Global, cache: &mut C, key: &[u8], value: &[u8]) -> bool {
    match cache.find(alloc, key) {
        Ok(Some(found)) => found.as_slice() == value,
        _ => false,
    }
}

fn lacks<C: Cache>(alloc: Global, cache: &mut C, key: &[u8]) -> bool {
    matches!(cache.find(alloc, key), Ok(None))
}

fn fails<C: Cache>(alloc: Global, cache: &mut C, key: &[u8]) -> bool {
    matches!(cache.find(alloc, key), Err(FindFault::Failed))
}

fn is_so<C: Cache>(alloc: Global, cache: &mut C, call: Call) -> bool {
    match call {
        Call::Keeps(key, value) => cache.keep(key, value).is_ok(),
        Call::Refuses(key, value) => cache.keep(key, value).is_err(),
        Call::Finds(key, value) => finds(alloc, cache, key, value),
        Call::Lacks(key) => lacks(alloc, cache, key),
        Call::Fails(key) => fails(alloc, cache, key),
    }
}

/// The place of the first call that answers otherwise.
fn first_other<C: Cache>(alloc: Global, cache: &mut C, calls: &[Call]) -> Option<usize> {
    for place in 0..calls.len() {
        if !is_so(alloc, cache, calls[place]) {
            return Some(place);
        }
    }
    None
}

fn two_failing(alloc: Global) -> Result<Pile<u32>, AllocError> {
    let mut fails = Pile::new(alloc);
    fails.push(3)?;
    fails.push(5)?;
    Ok(fails)
}

fn of_two(alloc: Global) -> Result<MemCache, AllocError> {
    MemCache::new(alloc, Pile::new(alloc), two_failing(alloc)?, 2, 12)
}

/// The place of the first call of the table that a cache of two entries answers otherwise.
fn first_of_two(alloc: Global) -> Result<Option<usize>, AllocError> {
    let mut cache = of_two(alloc)?;
    Ok(first_other(alloc, &mut cache, &CALLS))
}

#[test]
fn keeps_and_finds(rt: HostRuntime) -> Result<(), Fail> {
    assert_eq!(rt; first_of_two(rt.alloc())?, None);
    Ok(())
}

#[test]
fn keeps_none(rt: HostRuntime) -> Result<(), Fail> {
    let mut cache = NoCache::new();
    assert_eq!(rt; first_other(rt.alloc(), &mut cache, &NONE), None);
    Ok(())
}
