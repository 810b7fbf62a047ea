// What is found of a collection in a cache.
ghost use Rattle.std.specs.Prelude.{◌≡◌, ◌≤◌, ◌<◌, All, IfNone, IfOk, IfSome, length};
ghost use Rattle.kept_results.specs.Kept.{AreFound, AreKept, Finds, FindsEach, FindsUnlessFailed, IsFound, IsKeptOf};
ghost use Rattle.outside.specs.Cause.{Rose};
ghost use Rattle.saved_results.specs.Saved.{saved_value};
ghost use Rattle.saved_results.specs.declared.saved.Saved.{Saved as Kept};
ghost use Rattle.value_reading.specs.Written.{IsCanonical};

use crate::fitting::is_kept_of;
use cache_store::{Cache, FindFault};
use flume_value::Str;
use saved_results::{Saved, read_saved};
use script_program::Program;
use std::alloc::{AllocError, Global};
use value_reading::reading_law;

/// What is found of the collection of a number under a key, if that may be kept of it. Where the
/// cache fails nothing is found.
pub fn find_saved<C: Cache>(
    alloc: Global,
    program: &Program,
    number: usize,
    key: &[u8],
    cache: &mut C,
) -> Result<Option<Saved>, AllocError>
    requires { number < length program.now.script.nodes }
    ensures entries { (C.seen cache.new).entries ≡ (C.seen cache.old).entries }
    ensures later { (C.seen cache.old).faults ≤ (C.seen cache.new).faults }
    ensures kept { IfOk result (λ found. IfSome found (IsKeptOf program.now.script number)) }
    ensures found { IfSome (C.seen cache.old).entries (λ entries. IfOk result (λ found.
        IfSome found (IsFound program.now.script number key.now entries))) }
    ensures finds { IfSome (C.seen cache.old).entries (λ entries.
        (Rose (C.seen cache.old).faults (C.seen cache.new).faults → ⊥) →
        IfOk result (Finds program.now.script number key.now entries)) }
{
    match cache.find(alloc, key) {
        Ok(Some(bytes)) => kept_in(alloc, program, number, &bytes),
        Ok(None) => Ok(None),
        Err(FindFault::Failed) => Ok(None),
        Err(FindFault::Memory) => Err(AllocError),
    }
}

/// The same of each collection that is asked for, by its number and its key. Where the cache fails
/// for one, the others are looked for.
pub fn find_each<C: Cache>(
    alloc: Global,
    program: &Program,
    asked: &[(u32, Str)],
    cache: &mut C,
) -> Result<Vec<Option<Saved>>, AllocError>
    requires { All (λ it. it.0 < length program.now.script.nodes) asked.now }
    ensures entries { (C.seen cache.new).entries ≡ (C.seen cache.old).entries }
    ensures later { (C.seen cache.old).faults ≤ (C.seen cache.new).faults }
    ensures kept { IfOk result (λ looked.
        AreKept program.now.script asked.now looked.items) }
    ensures found { IfSome (C.seen cache.old).entries (λ entries. IfOk result (λ looked.
        AreFound program.now.script entries asked.now looked.items)) }
    ensures finds { IfSome (C.seen cache.old).entries (λ entries.
        (Rose (C.seen cache.old).faults (C.seen cache.new).faults → ⊥) → IfOk result (λ looked.
        FindsEach program.now.script entries asked.now looked.items)) }
    ensures failed { IfSome (C.seen cache.old).entries (λ entries. IfOk result (λ looked.
        FindsUnlessFailed (C.seen cache.old).faults (C.seen cache.new).faults program.now.script
        entries asked.now looked.items)) }
{
    let mut looked = Vec::new(alloc);
    for one in asked {
        looked.push(find_next(alloc, program, one, cache)?)?;
    }
    Ok(looked)
}

// The same of one of them.
fn find_next<C: Cache>(
    alloc: Global,
    program: &Program,
    one: &(u32, Str),
    cache: &mut C,
) -> Result<Option<Saved>, AllocError>
    requires { one.now.0 < length program.now.script.nodes }
    ensures entries { (C.seen cache.new).entries ≡ (C.seen cache.old).entries }
    ensures later { (C.seen cache.old).faults ≤ (C.seen cache.new).faults }
    ensures kept { IfOk result (λ found.
        IfSome found (IsKeptOf program.now.script one.now.0)) }
    ensures found { IfSome (C.seen cache.old).entries (λ entries. IfOk result (λ found.
        IfSome found (IsFound program.now.script one.now.0 one.now.1 entries))) }
    ensures finds { IfSome (C.seen cache.old).entries (λ entries.
        (Rose (C.seen cache.old).faults (C.seen cache.new).faults → ⊥) →
        IfOk result (Finds program.now.script one.now.0 one.now.1 entries)) }
{
    find_saved(alloc, program, one.0 as usize, one.1.as_bytes(), cache)
}

// What these bytes keep of the collection of a number, if that may be kept of it.
fn kept_in(
    alloc: Global,
    program: &Program,
    number: usize,
    bytes: &[u8],
) -> Result<Option<Saved>, AllocError>
    requires { number < length program.now.script.nodes }
    ensures some { IfOk result (λ found. IfSome found (λ saved.
        IsCanonical (saved_value saved) bytes.now × IsKeptOf program.now.script number saved)) }
    ensures none { IfOk result (λ found. IfNone found ((saved : Kept) →
        IsCanonical (saved_value saved) bytes.now → IsKeptOf program.now.script number saved → ⊥)) }
{
    reading_law();
    let Some(saved) = read_saved(alloc, bytes)? else {
        return Ok(None);
    };
    if is_kept_of(alloc, program, number, &saved)? {
        Ok(Some(saved))
    } else {
        Ok(None)
    }
}
