// The collections that are asked for and were not found, and what is kept of them.
ghost use Rattle.std.specs.Prelude.{◌≡◌, ◌++◌, IfOk, List, OnOk, drop, length, map, slice_get, take, ℕ};
ghost use Rattle.std.specs.List.{AllByRecursion};
ghost use Rattle.std.specs.Vec.Iter.{into_iter_items};
ghost use Rattle.flume_value.specs.Canonical.{canonical};
ghost use Rattle.flume_value.specs.Ranges.{IsHeld};
ghost use Rattle.cached_course.specs.Looked.{missing_as, not_found};
ghost use Rattle.cached_course.specs.inner.Missing as spec;

use cache_store::CacheEntry;
use flume_value::{Items, Pile, Str, copy_all};
use kept_results::{kept_bytes, rested_nodes};
use saved_results::Saved;
use script_program::Program;
use std::alloc::{AllocError, Global};
use std::vec::IntoIter;

/// A collection that was not found: its number, its key, and what it rests on.
#[derive(Drop)]
pub struct Missing {
    pub number: u32,
    pub key: Str,
    pub nodes: Vec<(u32, Str)>,
}

/// Those that were not found, in order.
pub fn missing_of(
    alloc: Global,
    program: &Program,
    asked: &[(u32, Str)],
    looked: &[Option<Saved>],
) -> Result<Vec<Missing>, AllocError>
    requires { length looked.now ≡ length asked.now }
    ensures { IfOk result (λ missing. spec.AreMissing program.now.script
        (not_found asked.now looked.now) missing.items) }
{
    let mut missing = Vec::new(alloc);
    for place in 0..asked.len() {
        push_missing(alloc, program, &asked[place], &looked[place], &mut missing)?;
    }
    Ok(missing)
}

// Adds one, where nothing was found of it.
fn push_missing(
    alloc: Global,
    program: &Program,
    asked: &(u32, Str),
    looked: &Option<Saved>,
    missing: &mut Vec<Missing>,
) -> Result<(), AllocError>
    ensures { OnOk result ((so_far : List (ℕ × List ℕ)) →
        spec.AreMissing program.now.script so_far missing.old.items →
        spec.AreMissing program.now.script (so_far ++ missing_as asked.now looked.now)
        missing.new.items) }
{
    match looked {
        Some(_) => Ok(()),
        None => {
            missing.push(missing_at(alloc, program, asked)?)?;
            Ok(())
        }
    }
}

fn missing_at(alloc: Global, program: &Program, asked: &(u32, Str)) -> Result<Missing, AllocError>
    ensures { IfOk result (spec.IsMissing program.now.script asked.now) }
{
    let nodes = rested_nodes(alloc, program, asked.0 as usize)?;
    let key = asked.1.copy(alloc)?;
    Ok(Missing {
        number: asked.0,
        key,
        nodes,
    })
}

/// What is kept of these, where the outputs of a run write these members and this is known of
/// sizes.
pub fn entries_of(
    alloc: Global,
    program: &Program,
    missing: Vec<Missing>,
    known: &[(u32, u64)],
    written: &[Items],
) -> Result<Vec<CacheEntry>, AllocError>
    requires count { length written.now ≡ length program.now.script.outputs }
    ensures entries { IfOk result (λ entries. entries.items
        ≡ map (spec.entry_of program.now.script known.now written.now) missing.items) }
    ensures held { OnOk result (AllByRecursion (λ it.
        IsHeld (spec.kept_value program.now.script known.now written.now it)) missing.items) }
{
    let count = missing.len();
    let mut left = missing.into_iter();
    let mut entries = Vec::new(alloc);
    for _turn in 0..count {
        push_entry(alloc, program, &mut left, known, written, &mut entries)?;
    }
    Ok(entries)
}

// Adds what is kept of the next one.
fn push_entry(
    alloc: Global,
    program: &Program,
    left: &mut IntoIter<Missing>,
    known: &[(u32, u64)],
    written: &[Items],
    entries: &mut Vec<CacheEntry>,
) -> Result<(), AllocError>
    requires count { length written.now ≡ length program.now.script.outputs }
    ensures left { OnOk result (into_iter_items left.new ≡ drop 1 (into_iter_items left.old)) }
    ensures entries { OnOk result (entries.new.items ≡ entries.old.items
        ++ map (spec.entry_of program.now.script known.now written.now)
        (take 1 (into_iter_items left.old))) }
    ensures held { OnOk result (AllByRecursion (λ it.
        IsHeld (spec.kept_value program.now.script known.now written.now it))
        (take 1 (into_iter_items left.old))) }
{
    let next = next_missing(left);
    add_entry(alloc, program, next, known, written, entries)?;
    Ok(())
}

// The next one, if there is one.
fn next_missing(left: &mut IntoIter<Missing>) -> Option<Missing>
    ensures next { result ≡ slice_get (into_iter_items left.old) 0 }
    ensures left { into_iter_items left.new ≡ drop 1 (into_iter_items left.old) }
{
    left.next()
}

// Adds what is kept of one, if there is one.
fn add_entry(
    alloc: Global,
    program: &Program,
    next: Option<Missing>,
    known: &[(u32, u64)],
    written: &[Items],
    entries: &mut Vec<CacheEntry>,
) -> Result<(), AllocError>
    requires count { length written.now ≡ length program.now.script.outputs }
    ensures entries { OnOk result (entries.new.items ≡ entries.old.items
        ++ map (spec.entry_of program.now.script known.now written.now) (spec.one_of next)) }
    ensures held { OnOk result (AllByRecursion (λ it.
        IsHeld (spec.kept_value program.now.script known.now written.now it))
        (spec.one_of next)) }
{
    match next {
        Some(missing) => {
            entries.push(entry_of(alloc, program, missing, known, written)?)?;
            Ok(())
        }
        None => Ok(()),
    }
}

fn entry_of(
    alloc: Global,
    program: &Program,
    missing: Missing,
    known: &[(u32, u64)],
    written: &[Items],
) -> Result<CacheEntry, AllocError>
    requires count { length written.now ≡ length program.now.script.outputs }
    ensures entry { IfOk result (λ entry. entry
        ≡ spec.entry_of program.now.script known.now written.now missing) }
    ensures held { OnOk result (IsHeld
        (spec.kept_value program.now.script known.now written.now missing)) }
{
    match value_of(alloc, program, &missing, known, written) {
        Ok(value) => {
            let Missing {
                number: _,
                key,
                nodes,
            } = missing;
            drop(nodes);
            Ok(CacheEntry { key, value })
        }
        Err(e) => {
            drop(missing);
            Err(e)
        }
    }
}

// The bytes that are kept of one.
fn value_of(
    alloc: Global,
    program: &Program,
    missing: &Missing,
    known: &[(u32, u64)],
    written: &[Items],
) -> Result<Str, AllocError>
    requires count { length written.now ≡ length program.now.script.outputs }
    ensures value { IfOk result (λ value. value
        ≡ canonical (spec.kept_value program.now.script known.now written.now missing.now)) }
    ensures held { OnOk result (IsHeld
        (spec.kept_value program.now.script known.now written.now missing.now)) }
{
    let members = members_for(alloc, program, missing.number as usize, written)?;
    let rested = missing.nodes.as_slice();
    let value = kept_bytes(alloc, known, rested, members)?;
    Ok(value)
}

// The members of the first output that reads the collection of a number.
fn members_for(
    alloc: Global,
    program: &Program,
    number: usize,
    written: &[Items],
) -> Result<Items, AllocError>
    requires count { length written.now ≡ length program.now.script.outputs }
    ensures { IfOk result (λ members. members
        ≡ spec.members_for program.now.script.outputs written.now number) }
{
    for place in 0..program.output_count() {
        if program.output(place).reads == number {
            let members = copy_all(alloc, written[place].as_slice())?;
            return Ok(members);
        }
    }
    Ok(Pile::new(alloc))
}
