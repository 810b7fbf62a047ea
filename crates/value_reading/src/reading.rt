// A value from its canonical bytes, level after level.
ghost use Rattle.std.specs.Prelude.{◌≡◌, IfOk, IsErrOf, List, ℕ};
ghost use Rattle.flume_value.specs.declared.value.Value.{Value as Value_};
ghost use Rattle.value_reading.specs.Written.{IsCanonical};
ghost use Rattle.value_reading.specs.inner.Reading as spec;
ghost use Rattle.value_reading.specs.inner.Reads.{ReadsFront, Answers};

use crate::cursor::Cursor;
use crate::fault::ReadFault;
use crate::tag::Tag;
use flume_value::{Held, Items, Pile, Str, Value};
use std::alloc::Global;

/// The most levels of a value that is read.
pub const MOST_LEVELS: u32 = 16;

/// The value that has these canonical bytes and at most 16 levels.
///
/// It is the one that there is, and where there is none, that is the answer; else memory ran out.
pub fn read_canonical(alloc: Global, bytes: &[u8]) -> Result<Value, ReadFault>
    ensures value { IfOk result (λ v. IsCanonical v bytes.now) }
    ensures none { IsErrOf result ReadFault.NotOne → (v : Value_) → IsCanonical v bytes.now → ⊥ }
    ensures back { (v : Value_) → IsCanonical v bytes.now → IfOk result (λ w. w ≡ v) }
{
    whole(alloc, bytes)
}

/// No two values of at most 16 levels have one list of canonical bytes.
pub fn reading_law()
    ensures { (v w : Value_) (bytes : List ℕ) → IsCanonical v bytes → IsCanonical w bytes → v ≡ w }
{}

// The value that all of the bytes are read as.
fn whole(alloc: Global, bytes: &[u8]) -> Result<Value, ReadFault>
    ensures { Answers (spec.whole_at bytes.now) result }
{
    let mut left = Cursor::new(bytes);
    let value = value_of(alloc, &mut left, MOST_LEVELS)?;
    if left.is_empty() {
        Ok(value)
    } else {
        drop(value);
        Err(ReadFault::NotOne)
    }
}

// A value of so many levels at most.
#[cycle(values)]
#[tactic(auto, using(crate::proofs::Steps::value_step, crate::proofs::Steps::value_none))]
fn value_of(alloc: Global, left: &mut Cursor<'_>, levels: u32) -> Result<Value, ReadFault>
    ensures { ReadsFront (spec.value_at levels) left.old left.new result }
{
    if levels == 0 {
        return Err(ReadFault::NotOne);
    }
    let tag = left.tag()?;
    behind(alloc, left, levels - 1, tag)
}

// A value of this variant, whose parts have so many levels at most.
#[cycle(values)]
fn behind(alloc: Global, left: &mut Cursor<'_>, levels: u32, tag: Tag) -> Result<Value, ReadFault>
    ensures { ReadsFront (spec.behind (spec.value_at levels) tag) left.old left.new result }
{
    match tag {
        Tag::Int => Ok(Value::Int(left.int()?)),
        Tag::Bool => Ok(Value::Bool(left.truth()?)),
        Tag::Text => Ok(Value::Text(text_of(alloc, left)?)),
        Tag::List => Ok(Value::List(items_of(alloc, left, levels)?)),
        Tag::Rec => Ok(Value::Rec(items_of(alloc, left, levels)?)),
        Tag::Left => Ok(Value::Left(held_of(alloc, left, levels)?)),
        Tag::Right => Ok(Value::Right(held_of(alloc, left, levels)?)),
        Tag::Wide => Ok(Value::Wide(left.wide()?)),
    }
}

// A value in a box.
#[cycle(values)]
fn held_of(alloc: Global, left: &mut Cursor<'_>, levels: u32) -> Result<Held<Value>, ReadFault>
    ensures { ReadsFront (spec.value_at levels) left.old left.new result }
{
    let value = value_of(alloc, left, levels)?;
    Ok(Held::new(alloc, value)?)
}

// A list of values, with its length before it.
#[cycle(values)]
#[tactic(auto, unfolding(crate::specs::inner::Reading::items_at))]
fn items_of(alloc: Global, left: &mut Cursor<'_>, levels: u32) -> Result<Items, ReadFault>
    ensures { ReadsFront (spec.items_at (spec.value_at levels)) left.old left.new result }
{
    let count = left.length()?;
    members_of(alloc, left, levels, count)
}

// So many values, one behind another.
#[cycle(values)]
fn members_of(
    alloc: Global,
    left: &mut Cursor<'_>,
    levels: u32,
    count: u64,
) -> Result<Items, ReadFault>
    ensures { ReadsFront (spec.parts_at (spec.value_at levels) count) left.old left.new result }
{
    let mut members = Pile::new(alloc);
    for _turn in 0..count {
        let value = value_of(alloc, left, levels)?;
        members.push(value)?;
    }
    Ok(members)
}

// A text, with its length before it.
#[tactic(auto, unfolding(crate::specs::inner::Reading::text_at))]
fn text_of(alloc: Global, left: &mut Cursor<'_>) -> Result<Str, ReadFault>
    ensures { ReadsFront spec.text_at left.old left.new result }
{
    let count = left.length()?;
    let bytes = left.front(count)?;
    Ok(Str::from_slice(alloc, bytes)?)
}
