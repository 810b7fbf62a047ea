// The table of one combiner's accumulators by key, with bounded room.
ghost use Rattle.std.specs.Prelude.{◌≡◌, ◌<◌, ◌≤◌, ◌++◌, ◌∷◌, [], ◌+ℤ◌, map, length, IsFalse, IsSome, IfOk, IfErr, OnOk};
ghost use Rattle.std.specs.List.Sorted.{IsPermutation, IsSorted};
ghost use Rattle.flume_value.specs.Order.{value_cmp};
ghost use Rattle.flume_value.specs.Parts.{wide_of};
ghost use Rattle.combine_table.specs.Accumulators.{HasShape, merged};
ghost use Rattle.combine_table.specs.Combinations.{wrapped};
ghost use Rattle.combine_table.specs.Contents.{wide_or_zero};
ghost use Rattle.partial_tables.specs.declared.table.AddFault.TheVariants.{Memory};
ghost use Rattle.partial_tables.specs.Tables.{has_key, added, holding, HaveShape, HaveDistinctKeys, IsRefusedAdd};

use crate::entries::{append_entries, listed, sort_by_keys};
use combine_table::{Comb, merge};
use flume_value::Value;
use indexmap::IndexMap;
use std::alloc::{AllocError, Global};
use std::marker::Model;
use std::mem::replace;

/// A key, and an accumulator that stands for some of its values.
pub type Partial = (Value, Value);

/// The accumulators of one combiner by key, in order of first addition, with room for so many.
/// Contracts see them as a `Table`; no key stands twice, and all have the combiner's shape.
#[derive(Drop)]
pub struct Partials {
    comb: Comb,
    room: u64,
    table: IndexMap<Value, Value>,
}

impl Model for Partials {
    ghost use Rattle.partial_tables.specs.Tables.{Table, table_code, HaveShape, HaveDistinctKeys};

    ghost Value = { Table };

    ghost coded = { table_code };

    ghost view = { λ p. record { comb = p.comb; room = p.room; partials = p.table.entries } };

    ghost invariant = { λ p.
        HaveShape p.comb p.table.entries × HaveDistinctKeys p.table.entries };
}

/// Why an accumulator was not added.
#[derive(Drop)]
pub enum AddFault {
    /// The key is new, and there is no room for it. Both are handed back.
    Full {
        /// The key.
        key: Value,
        /// Its accumulator.
        acc: Value,
    },
    /// Want of memory. The table is empty.
    Memory,
}

impl AddFault {
    // The fault where the table had room.
    pub(crate) fn into_memory(self) -> AllocError
        requires { self ≡ Memory }
    {
        drop(self);
        AllocError
    }
}

impl Partials {
    /// A table with nothing in it. It takes no memory.
    pub fn new(alloc: Global, comb: Comb, room: u64) -> Partials
        ensures { result ≡ record { comb = comb; room = room; partials = [] } }
    {
        Partials {
            comb,
            room,
            table: IndexMap::new(alloc),
        }
    }

    /// Adds an accumulator. It is merged with that of its key, or stands last where the key is
    /// new; a new key is refused exactly where there is no room.
    #[inline(always)]
    pub fn add(&mut self, alloc: Global, key: Value, acc: Value) -> Result<(), AddFault>
        requires shape { HasShape self.old.comb acc }
        ensures added { OnOk result
            (self.new ≡ holding self.old (added self.old.comb self.old.partials key acc)) }
        ensures room { OnOk result
            (IsFalse (has_key key self.old.partials) → length self.old.partials < self.old.room) }
        ensures refused { IfErr result (IsRefusedAdd self.old key acc self.new) }
    {
        if self.table.len() as u64 >= self.room {
            return self.add_to_full(alloc, key, acc);
        }
        match put_or_merge(alloc, self.comb, &mut self.table, key, acc) {
            Ok(()) => Ok(()),
            Err(AllocError) => {
                clear(alloc, &mut self.table);
                Err(AddFault::Memory)
            }
        }
    }

    // Adds an accumulator where there is no room for a new key.
    fn add_to_full(&mut self, alloc: Global, key: Value, acc: Value) -> Result<(), AddFault>
        requires shape { HasShape self.old.comb acc }
        requires full { self.old.room ≤ length self.old.partials }
        ensures added { OnOk result
            (self.new ≡ holding self.old (added self.old.comb self.old.partials key acc)) }
        ensures room { OnOk result
            (IsFalse (has_key key self.old.partials) → length self.old.partials < self.old.room) }
        ensures refused { IfErr result (IsRefusedAdd self.old key acc self.new) }
    {
        match self.table.get_index_of(&key) {
            Some(at) => {
                drop(key);
                match merge_into(alloc, self.comb, &mut self.table[at], acc) {
                    Ok(()) => Ok(()),
                    Err(AllocError) => {
                        clear(alloc, &mut self.table);
                        Err(AddFault::Memory)
                    }
                }
            }
            None => Err(AddFault::Full { key, acc }),
        }
    }

    /// Adds an accumulator as `add` does, and copies the key where it is new alone.
    pub fn add_copy(&mut self, alloc: Global, key: &Value, acc: Value) -> Result<(), AddFault>
        requires shape { HasShape self.old.comb acc }
        ensures added { OnOk result
            (self.new ≡ holding self.old (added self.old.comb self.old.partials key.now acc)) }
        ensures room { OnOk result (IsFalse (has_key key.now self.old.partials) →
            length self.old.partials < self.old.room) }
        ensures refused { IfErr result (IsRefusedAdd self.old key.now acc self.new) }
    {
        match key {
            Value::Int(n) => self.add(alloc, Value::Int(*n), acc),
            _ => self.add_borrowed(alloc, key, acc),
        }
    }

    // The same of any key. It is looked up before it is copied, and again where it is put in.
    fn add_borrowed(&mut self, alloc: Global, key: &Value, acc: Value) -> Result<(), AddFault>
        requires shape { HasShape self.old.comb acc }
        ensures added { OnOk result
            (self.new ≡ holding self.old (added self.old.comb self.old.partials key.now acc)) }
        ensures room { OnOk result (IsFalse (has_key key.now self.old.partials) →
            length self.old.partials < self.old.room) }
        ensures refused { IfErr result (IsRefusedAdd self.old key.now acc self.new) }
    {
        match self.table.get_index_of(key) {
            Some(at) => match merge_into(alloc, self.comb, &mut self.table[at], acc) {
                Ok(()) => Ok(()),
                Err(AllocError) => {
                    clear(alloc, &mut self.table);
                    Err(AddFault::Memory)
                }
            },
            None => match key.copy(alloc) {
                Ok(key) => self.add_new(alloc, key, acc),
                Err(AllocError) => {
                    drop(acc);
                    clear(alloc, &mut self.table);
                    Err(AddFault::Memory)
                }
            },
        }
    }

    // Adds an accumulator of a key that is known to be new, so that it is not looked up again.
    fn add_new(&mut self, alloc: Global, key: Value, acc: Value) -> Result<(), AddFault>
        requires shape { HasShape self.old.comb acc }
        requires absent { IsFalse (has_key key self.old.partials) }
        ensures added { OnOk result
            (self.new ≡ holding self.old (added self.old.comb self.old.partials key acc)) }
        ensures room { OnOk result (length self.old.partials < self.old.room) }
        ensures refused { IfErr result (IsRefusedAdd self.old key acc self.new) }
    {
        if self.table.len() as u64 >= self.room {
            return Err(AddFault::Full { key, acc });
        }
        match put_last(&mut self.table, key, acc) {
            Ok(()) => Ok(()),
            Err(AllocError) => {
                clear(alloc, &mut self.table);
                Err(AddFault::Memory)
            }
        }
    }

    /// Takes all that the table has, in order. The table is empty afterwards, also where memory is
    /// wanting.
    pub fn take(&mut self, alloc: Global) -> Result<Vec<Partial>, AllocError>
        ensures taken { IfOk result (λ partials. partials.items ≡ self.old.partials) }
        ensures shape { IfOk result (λ partials. HaveShape self.old.comb partials.items) }
        ensures distinct { IfOk result (λ partials. HaveDistinctKeys partials.items) }
        ensures emptied { self.new ≡ holding self.old [] }
    {
        let table = replace(&mut self.table, IndexMap::new(alloc));
        listed(alloc, table)
    }

    /// Moves all that the table has behind others, in order. The table is empty afterwards, and has
    /// its memory for as many keys again.
    pub(crate) fn move_behind(
        &mut self,
        alloc: Global,
        others: &mut Vec<Partial>,
    ) -> Result<(), AllocError>
        ensures moved { OnOk result
            (others.new.items ≡ others.old.items ++ self.old.partials) }
        ensures emptied { OnOk result (self.new ≡ holding self.old []) }
    {
        let empty = IndexMap::with_capacity(alloc, self.table.len())?;
        let table = replace(&mut self.table, empty);
        append_entries(table, others)
    }

    /// Moves all that the table has behind others, in order, where nothing is put in any more.
    pub(crate) fn into_entries(self, others: &mut Vec<Partial>) -> Result<(), AllocError>
        ensures { OnOk result (others.new.items ≡ others.old.items ++ self.partials) }
    {
        let Partials { table, .. } = self;
        append_entries(table, others)
    }

    /// All that the table has, keys ascending.
    pub fn into_ascending(self, alloc: Global) -> Result<Vec<Partial>, AllocError>
        ensures same { IfOk result (λ partials. IsPermutation self.partials partials.items) }
        ensures ascending { IfOk result (λ partials.
            IsSorted value_cmp (map (λ p. p.0) partials.items)) }
        ensures shape { IfOk result (λ partials. HaveShape self.comb partials.items) }
        ensures distinct { IfOk result (λ partials. HaveDistinctKeys partials.items) }
    {
        let Partials { table, .. } = self;
        let mut partials = listed(alloc, table)?;
        sort_by_keys(&mut partials);
        Ok(partials)
    }
}

fn clear(alloc: Global, table: &mut IndexMap<Value, Value>)
    ensures { table.new.entries ≡ [] }
{
    *table = IndexMap::new(alloc);
}

fn put_last(table: &mut IndexMap<Value, Value>, key: Value, acc: Value) -> Result<(), AllocError>
    requires { IsFalse (has_key key table.old.entries) }
    ensures { OnOk result (table.new.entries ≡ table.old.entries ++ (key, acc) ∷ []) }
{
    match table.insert(key, acc) {
        Ok(former) => {
            drop(former);
            Ok(())
        }
        Err(refused) => {
            drop(refused);
            Err(AllocError)
        }
    }
}

// Puts an accumulator in, merged with that of its key where there is one: one look-up serves both.
#[inline(always)]
fn put_or_merge(
    alloc: Global,
    comb: Comb,
    table: &mut IndexMap<Value, Value>,
    key: Value,
    acc: Value,
) -> Result<(), AllocError>
    requires shapes { HaveShape comb table.old.entries }
    requires shape { HasShape comb acc }
    ensures { OnOk result (table.new.entries ≡ added comb table.old.entries key acc) }
{
    match table.insert_full(key, acc) {
        Ok((at, former)) => match former {
            None => Ok(()),
            Some(former) => {
                merge_behind(alloc, comb, former, &mut table[at])?;
                Ok(())
            }
        },
        Err(refused) => {
            drop(refused);
            Err(AllocError)
        }
    }
}

// Merges the accumulator of a slot with the one that stood there before it.
#[inline(always)]
fn merge_behind(
    alloc: Global,
    comb: Comb,
    former: Value,
    slot: &mut Value,
) -> Result<(), AllocError>
    requires former { HasShape comb former }
    requires slot { HasShape comb slot.old }
    ensures { OnOk result (slot.new ≡ merged comb former slot.old) }
{
    match comb {
        Comb::Sum | Comb::Count => {
            let sum = wide_sum(&former, slot);
            drop(former);
            put(slot, Value::Wide(sum));
            Ok(())
        }
        _ => {
            let acc = replace(slot, Value::Bool(false));
            let merged = merge(alloc, comb, former, acc)?;
            put(slot, merged);
            Ok(())
        }
    }
}

// Merges the accumulator of a slot with another. Numbers are added where they stand.
#[inline(always)]
fn merge_into(alloc: Global, comb: Comb, slot: &mut Value, acc: Value) -> Result<(), AllocError>
    requires slot { HasShape comb slot.old }
    requires acc { HasShape comb acc }
    ensures { OnOk result (slot.new ≡ merged comb slot.old acc) }
{
    match comb {
        Comb::Sum | Comb::Count => {
            let sum = wide_sum(slot, &acc);
            drop(acc);
            put(slot, Value::Wide(sum));
            Ok(())
        }
        _ => {
            let old = replace(slot, Value::Bool(false));
            let merged = merge(alloc, comb, old, acc)?;
            put(slot, merged);
            Ok(())
        }
    }
}

// Puts a value into a slot, and lets go the one that stood there.
#[inline(always)]
fn put(slot: &mut Value, value: Value)
    ensures { slot.new ≡ value }
{
    drop(replace(slot, value));
}

// The sum of two wide numbers, wrapped.
#[tactic(auto, using(std::proofs::lemmas::Int::wraps))]
fn wide_sum(left: &Value, right: &Value) -> i128
    requires left { IsSome (wide_of left.now) }
    requires right { IsSome (wide_of right.now) }
    ensures { result ≡ wrapped (wide_or_zero left.now +ℤ wide_or_zero right.now) }
{
    wide(left).wrapping_add(wide(right))
}

fn wide(value: &Value) -> i128
    requires { IsSome (wide_of value.now) }
    ensures { result ≡ wide_or_zero value.now }
{
    match value {
        Value::Wide(n) => *n,
        _ => unreachable!(),
    }
}
