// The lists that a task's outputs were given go to the takes that read them: each is moved to the
// last of its takes, and copied for those before it.
ghost use Rattle.std.specs.Prelude.{◌≡◌, ◌↔◌, ℕ, false, true, [], IfOk, IsTrue, Some, map, slice_get};
ghost use Rattle.flume_collection.specs.Calls.{or_none};
ghost use Rattle.exec_plan.specs.declared.plan.Take.{Take as GhostTake};
ghost use Rattle.map_shard.specs.inner.Sending.{taken_by};
ghost use Rattle.map_shard.specs.inner.Takes.{AreLast, is_of};

use crate::takes::Takes;
use exec_plan::Take;
use flume_value::{Items, Pile};
use forest_steps::Emitted;
use std::alloc::{AllocError, Global};
use std::mem;

/// Takes the list of that number away, and leaves an empty one. The others stay.
pub fn take_list(alloc: Global, lists: &mut Pile<Items>, number: usize) -> Items
    ensures list { result ≡ or_none (slice_get lists.old number) }
    ensures none { or_none (slice_get lists.new number) ≡ [] }
    ensures others { (n : ℕ) → (n ≡ number → ⊥) →
        or_none (slice_get lists.new n) ≡ or_none (slice_get lists.old n) }
{
    let mut members = mem::replace(lists, Pile::new(alloc)).into_vec();
    let list = if number < members.len() {
        mem::replace(&mut members[number], Pile::new(alloc))
    } else {
        Pile::new(alloc)
    };
    *lists = Pile::from_vec(members);
    list
}

/// The list that each of the takes gets of input channel m, whose outputs were given these lists.
pub(crate) fn taken_lists(
    alloc: Global,
    takes: &Takes,
    m: u32,
    lists: Vec<Emitted>,
) -> Result<Vec<Emitted>, AllocError>
    requires { AreLast m takes.now.all.items takes.now.last.items }
    ensures { IfOk result (λ all. all.items ≡ map (taken_by m lists.items) takes.now.all.items) }
{
    let mut lists = lists;
    let mut all = Vec::with_capacity(alloc, takes.all.len())?;
    for (k, take) in takes.all.iter().enumerate() {
        let is_last = is_at(takes.last.as_slice(), take.out, k);
        let list = taken_list(alloc, *take, m, &mut lists, is_last)?;
        all.push(list)?;
    }
    Ok(all)
}

// The list that a take gets. Other takes get what they got, also of the same list if this is not
// the last of it.
fn taken_list(
    alloc: Global,
    take: Take,
    m: u32,
    lists: &mut Vec<Emitted>,
    is_last: bool,
) -> Result<Emitted, AllocError>
    ensures list { IfOk result (λ list. list ≡ taken_by m lists.old.items take) }
    ensures others { (other : GhostTake) → (is_last ≡ true → is_of m take.out other ≡ false) →
        taken_by m lists.new.items other ≡ taken_by m lists.old.items other }
{
    if take.channel != m {
        return Ok(Emitted::new(alloc));
    }
    if is_last {
        return Ok(take_at(alloc, lists, take.out as usize));
    }
    copy_at(alloc, lists, take.out as usize)
}

// Takes what the output of that number was given away, and leaves nothing. The others stay.
fn take_at(alloc: Global, lists: &mut Vec<Emitted>, number: usize) -> Emitted
    ensures list { result ≡ or_none (slice_get lists.old.items number) }
    ensures others { (n : ℕ) → (n ≡ number → ⊥) →
        or_none (slice_get lists.new.items n) ≡ or_none (slice_get lists.old.items n) }
{
    if number < lists.len() {
        mem::replace(&mut lists[number], Emitted::new(alloc))
    } else {
        Emitted::new(alloc)
    }
}

// A copy of what the output of that number was given.
fn copy_at(alloc: Global, lists: &[Emitted], number: usize) -> Result<Emitted, AllocError>
    ensures { IfOk result (λ copy. copy ≡ or_none (slice_get lists.now number)) }
{
    match lists.get(number) {
        Some(list) => list.copy(alloc),
        None => Ok(Emitted::new(alloc)),
    }
}

// Whether that place stands at the number.
fn is_at(places: &[usize], number: u32, place: usize) -> bool
    ensures { IsTrue result ↔ (slice_get places.now number ≡ Some place) }
{
    match places.get(number as usize) {
        Some(k) => *k == place,
        None => false,
    }
}
