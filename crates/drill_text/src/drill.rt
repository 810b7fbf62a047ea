// The drill that a text spells.
ghost use Rattle.std.specs.Prelude.{◌≡◌, IfOk, IfSome};
ghost use Rattle.crew.specs.Drills.{is_drilled, names};
ghost use Rattle.run_settings.specs.Limits.{IsDrill};
ghost use Rattle.drill_text.specs.Drills as spec;

use crate::entry::entry_in;
use crew::{Drill, Entry};
use flume_value::Pile;
use run_settings::MOST_ENTRIES;
use std::alloc::{AllocError, Global};

/// The drill that a text spells, if it spells one. Fails only where no memory is left.
pub fn drill_of(alloc: Global, text: &str) -> Result<Option<Drill>, AllocError>
    ensures value { IfOk result (λ drill. drill ≡ spec.drill_in text.now) }
    ensures within { IfOk result (λ drill. IfSome drill IsDrill) }
{
    match entries_in(alloc, text)? {
        Some(entries) if is_drill(entries.as_slice()) => Ok(Some(Drill::new(entries))),
        _ => Ok(None),
    }
}

// The attempts that a text names, where each of its parts names one.
fn entries_in(alloc: Global, text: &str) -> Result<Option<Pile<Entry>>, AllocError>
    ensures { IfOk result (λ entries. entries ≡ spec.entries_in (spec.drill_parts text.now)) }
{
    let mut entries = Pile::new(alloc);
    for part in text.split(',') {
        match entry_in(part) {
            Some(entry) => entries.push(entry)?,
            None => return Ok(None),
        }
    }
    Ok(Some(entries))
}

// Whether a drill may have these entries.
fn is_drill(entries: &[Entry]) -> bool
    ensures { result ≡ spec.is_drill entries.now }
{
    entries.len() <= MOST_ENTRIES && are_apart(entries)
}

// Whether none of them comes again.
fn are_apart(entries: &[Entry]) -> bool
    ensures { result ≡ spec.are_apart entries.now }
{
    match entries.split_first() {
        Some((first, rest)) => !is_among(rest, first) && are_apart(rest),
        None => true,
    }
}

fn is_among(entries: &[Entry], entry: &Entry) -> bool
    ensures { result ≡ is_drilled entries.now entry.now }
{
    entries.iter().any(|other| is_same(other, entry))
}

fn is_same(entry: &Entry, other: &Entry) -> bool
    ensures { result ≡ names other.now entry.now }
{
    entry.stage == other.stage
        && entry.phase == other.phase
        && entry.task == other.task
        && entry.attempt == other.attempt
}
