// Accumulators of pairs, made in a table of bounded room that is emptied when it is full.
ghost use Rattle.std.specs.Prelude.{◌≡◌, ◌++◌, ◌∷◌, [], All, List, Some, IfOk, OnOk, map};
ghost use Rattle.flume_value.specs.declared.value.Value.{Value as GhostValue};
ghost use Rattle.bag_groups.specs.Pairs.{IsPair, pair as pair_of, pairs_of, parts_of};
ghost use Rattle.combine_table.specs.Accumulators.{HasShape, accumulator};
ghost use Rattle.combine_table.specs.Combinations.{Suits};
ghost use Rattle.partial_tables.specs.Lifted.{IsLifted, accumulators_of};
ghost use Rattle.partial_tables.specs.Merges.{StandFor, IsCombinable};
ghost use Rattle.partial_tables.specs.Runs.{AreTabled, AreTables, most_keys};
ghost use Rattle.partial_tables.specs.Tables.{Pairs, holding};

use crate::table::{AddFault, Partial, Partials};
use combine_table::{Comb, lift};
use flume_value::Value;
use std::alloc::{AllocError, Global};

/// How many keys the table has room for.
const ROOM: u64 = 1024;

/// Accumulators that stand for pairs which are put in one after another: those in a table of
/// bounded room, and those that it had whenever it was full. So a key may have several.
#[derive(Drop)]
pub struct Lifting {
    pub table: Partials,
    pub others: Vec<Partial>,
}

impl Lifting {
    /// Accumulators of no pairs. It takes no memory.
    pub fn new(alloc: Global, comb: Comb) -> Lifting
        ensures { IsLifted comb result [] }
    {
        let table = Partials::new(alloc, comb, ROOM);
        let others = Vec::new(alloc);
        Lifting { table, others }
    }

    /// Puts a pair in. Its key is copied where it is new in the table.
    pub fn put(&mut self, alloc: Global, comb: Comb, pair: &Value) -> Result<(), AllocError>
        requires pair { IsCombinable comb pair.now }
        requires comb { self.old.table.comb ≡ comb }
        requires room { self.old.table.room ≡ most_keys }
        ensures { (pairs : List GhostValue) → IsLifted comb self.old pairs →
            OnOk result (IsLifted comb self.new (pairs ++ pair.now ∷ [])) }
    {
        let (key, value) = parts(pair);
        let acc = lift(alloc, comb, value)?;
        put_copy(alloc, &mut self.table, &mut self.others, key, acc)?;
        Ok(())
    }

    /// Puts the pair of a key and a value in, which is not made: the key goes into the table.
    #[inline(always)]
    pub fn put_parts(
        &mut self,
        alloc: Global,
        comb: Comb,
        key: Value,
        value: &Value,
    ) -> Result<(), AllocError>
        requires suits { Suits comb value.now }
        requires comb { self.old.table.comb ≡ comb }
        requires room { self.old.table.room ≡ most_keys }
        ensures { (pairs : List GhostValue) → IsLifted comb self.old pairs →
            OnOk result (IsLifted comb self.new (pairs ++ pair_of key value.now ∷ [])) }
    {
        match lift(alloc, comb, value) {
            Ok(acc) => {
                put(alloc, &mut self.table, &mut self.others, key, acc)?;
                Ok(())
            }
            Err(fault) => {
                drop(key);
                Err(fault)
            }
        }
    }

    /// All the accumulators.
    pub fn into_partials(self) -> Result<Vec<Partial>, AllocError>
        ensures { IfOk result (λ partials. partials.items ≡ accumulators_of self) }
    {
        let Lifting { table, mut others } = self;
        table.into_entries(&mut others)?;
        Ok(others)
    }
}

/// Accumulators that stand for the pairs that are referred to, as `Lifting` makes them.
pub fn lift_borrowed(
    alloc: Global,
    comb: Comb,
    pairs: Vec<&Value>,
) -> Result<Vec<Partial>, AllocError>
    requires { All (λ pair. IsCombinable comb pair.now) pairs.items }
    ensures stands { IfOk result (λ partials. StandFor comb partials.items
        (pairs_of (map (λ pair. pair.now) pairs.entry.items))) }
    ensures tables { IfOk result (λ partials.
        AreTabled comb (pairs_of (map (λ pair. pair.now) pairs.entry.items)) partials.items) }
{
    let lifting = lift_each(alloc, comb, pairs)?;
    let partials = lifting.into_partials()?;
    Ok(partials)
}

// The pairs that are referred to, put in one after another.
fn lift_each(alloc: Global, comb: Comb, pairs: Vec<&Value>) -> Result<Lifting, AllocError>
    requires { All (λ pair. IsCombinable comb pair.now) pairs.items }
    ensures { IfOk result (λ lifting.
        IsLifted comb lifting (map (λ pair. pair.now) pairs.entry.items)) }
{
    let mut lifting = Lifting::new(alloc, comb);
    for pair in pairs {
        lifting.put(alloc, comb, pair)?;
    }
    Ok(lifting)
}

// The key of a pair and its value.
fn parts(pair: &Value) -> (&Value, &Value)
    requires { IsPair pair.now }
    ensures { parts_of pair.now ≡ Some (result.0.now, result.1.now) }
{
    match pair {
        Value::Rec(fields) => (&fields.as_slice()[0], &fields.as_slice()[1]),
        _ => unreachable!(),
    }
}

// Adds an accumulator as `put` does, and copies the key where it is new.
fn put_copy(
    alloc: Global,
    table: &mut Partials,
    others: &mut Vec<Partial>,
    key: &Value,
    acc: Value,
) -> Result<(), AllocError>
    requires room { table.old.room ≡ most_keys }
    requires shape { HasShape table.old.comb acc }
    ensures comb { OnOk result (table.new.comb ≡ table.old.comb) }
    ensures room { OnOk result (table.new.room ≡ table.old.room) }
    ensures tables { OnOk result ((pairs : Pairs) (value : GhostValue) →
        acc ≡ accumulator table.old.comb (value ∷ []) →
        AreTables table.old.comb pairs others.old.items table.old.partials →
        AreTables table.old.comb (pairs ++ (key.now, value) ∷ []) others.new.items
        table.new.partials) }
{
    match table.add_copy(alloc, key, acc) {
        Ok(()) => Ok(()),
        Err(fault) => match fault {
            AddFault::Memory => Err(AllocError),
            AddFault::Full { key, acc } => {
                put(alloc, table, others, key, acc)?;
                Ok(())
            }
        },
    }
}

// Adds an accumulator to the table. If that is full, what it has goes behind the others first.
#[inline(always)]
fn put(
    alloc: Global,
    table: &mut Partials,
    others: &mut Vec<Partial>,
    key: Value,
    acc: Value,
) -> Result<(), AllocError>
    requires room { table.old.room ≡ most_keys }
    requires shape { HasShape table.old.comb acc }
    ensures comb { OnOk result (table.new.comb ≡ table.old.comb) }
    ensures room { OnOk result (table.new.room ≡ table.old.room) }
    ensures tables { OnOk result ((pairs : Pairs) (value : GhostValue) →
        acc ≡ accumulator table.old.comb (value ∷ []) →
        AreTables table.old.comb pairs others.old.items table.old.partials →
        AreTables table.old.comb (pairs ++ (key, value) ∷ []) others.new.items
        table.new.partials) }
{
    match table.add(alloc, key, acc) {
        Ok(()) => Ok(()),
        Err(fault) => match fault {
            AddFault::Memory => Err(AllocError),
            AddFault::Full { key, acc } => match table.move_behind(alloc, others) {
                Ok(()) => {
                    put_first(alloc, table, key, acc)?;
                    Ok(())
                }
                Err(fault) => {
                    drop(key);
                    drop(acc);
                    Err(fault)
                }
            },
        },
    }
}

// Adds an accumulator to a table that has none.
fn put_first(alloc: Global, table: &mut Partials, key: Value, acc: Value) -> Result<(), AllocError>
    requires room { table.old.room ≡ most_keys }
    requires none { table.old.partials ≡ [] }
    requires shape { HasShape table.old.comb acc }
    ensures { OnOk result (table.new ≡ holding table.old ((key, acc) ∷ [])) }
{
    match table.add(alloc, key, acc) {
        Ok(()) => Ok(()),
        Err(fault) => Err(fault.into_memory()),
    }
}
