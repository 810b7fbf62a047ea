// The calls of the outside that fail, as they are written.
use crate::cases::{Faults, HostDown, When};
use crate::mistakes::{Mistake, Unread};
use crate::numbers::{cut, first_word, number_of, parts};
use memory_outside::Fail;
use outside::{At, Phase};
use std::alloc::Global;

/// What fails in one more call.
pub fn when_of(alloc: Global, line: &[u8]) -> Result<When, Unread> {
    let mut when = When {
        line: Vec::from_slice(alloc, line)?,
        faults: Faults::new(alloc),
    };
    push_faults(alloc, &mut when.faults, line)?;
    Ok(when)
}

/// Adds faults that are parted by commas.
pub fn push_faults(alloc: Global, faults: &mut Faults, line: &[u8]) -> Result<(), Unread> {
    for part in &parts(alloc, line, b',')? {
        push_fault(faults, part.trim_ascii())?;
    }
    Ok(())
}

fn push_fault(faults: &mut Faults, text: &[u8]) -> Result<(), Unread> {
    let (kind, rest) = first_word(text);
    if kind == b"source".as_slice() {
        push_read(&mut faults.source, fail_of(rest))
    } else if kind == b"shelf".as_slice() {
        push_read(&mut faults.shelf, fail_of(rest))
    } else if kind == b"step".as_slice() {
        faults.step = Some(number_of(rest)?);
        Ok(())
    } else if kind == b"screen".as_slice() {
        push_read(&mut faults.screen, number_of(rest))
    } else if kind == b"cache".as_slice() {
        push_read(&mut faults.cache, number_of(rest))
    } else {
        push_read(&mut faults.hosts, down_of(kind, rest))
    }
}

// Adds what was read, if it was.
fn push_read<T: Drop>(all: &mut Vec<T>, read: Result<T, Mistake>) -> Result<(), Unread> {
    all.push(read?)?;
    Ok(())
}

fn down_of(kind: &[u8], rest: &[u8]) -> Result<HostDown, Mistake> {
    if kind == b"hosts".as_slice() {
        let at = at_of(rest)?;
        return Ok(HostDown { number: None, at });
    }
    if kind != b"host".as_slice() {
        return Err(Mistake::Fault);
    }
    let (number, place) = first_word(rest);
    let number = Some(number_of(number)?);
    let at = at_of(place)?;
    Ok(HostDown { number, at })
}

// A call by the number of its `begin`, and its own number since then.
fn fail_of(text: &[u8]) -> Result<Fail, Mistake> {
    let (begun, call) = first_word(text);
    Ok(Fail {
        begun: number_of(begun)?,
        call: number_of(call)?,
    })
}

fn at_of(text: &[u8]) -> Result<At, Mistake> {
    match (cut(text, b'm'), cut(text, b'r')) {
        (Some((stage, rest)), None) => place_of(stage, Phase::Map, rest),
        (None, Some((stage, rest))) => place_of(stage, Phase::Reduce, rest),
        _ => Err(Mistake::Place),
    }
}

fn place_of(stage: &[u8], phase: Phase, rest: &[u8]) -> Result<At, Mistake> {
    let (task, rest) = cut(rest, b'.').ok_or(Mistake::Place)?;
    let (attempt, place) = cut(rest, b'@').ok_or(Mistake::Place)?;
    Ok(At {
        stage: number_of(stage)?,
        phase,
        task: number_of(task)?,
        attempt: number_of(attempt)?,
        place: u64::from(number_of(place)?),
    })
}
