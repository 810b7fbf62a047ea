// What the outputs of steps are given.
ghost use Rattle.std.specs.Prelude.{◌≡◌, ◌∷◌, [], IfOk, OnOk};
ghost use Rattle.forest_steps.specs.Running.{counted_at, with_values_put};
ghost use Rattle.forest_steps.specs.Fresh.{empties, zeros};

use crate::emitted::Emitted;
use flume_value::{Items, Value};
use key_order::Couple;
use std::alloc::{AllocError, Global};
use std::marker::Model;

/// What each output that is kept is given, by its number, and how many elements each output of each
/// step emits, by its place in preorder. A count stops at its last value.
#[derive(Drop)]
pub struct Outputs {
    lists: Vec<Emitted>,
    counts: Vec<u64>,
}

impl Model for Outputs {
    ghost use Rattle.forest_steps.specs.Running.{Given, given_code};

    ghost Value = { Given };

    ghost coded = { given_code };

    ghost view = { λ o. record { lists = o.lists.items; counts = o.counts.items } };
}

impl Outputs {
    /// So many empty lists, and so many counts of nothing.
    pub fn new(alloc: Global, lists: usize, counts: usize) -> Result<Outputs, AllocError>
        ensures { IfOk result (λ o. o ≡ record { lists = empties lists; counts = zeros counts }) }
    {
        Ok(Outputs {
            lists: empty_lists(alloc, lists)?,
            counts: no_counts(alloc, counts)?,
        })
    }

    /// The lists, by the numbers of the outputs, and the counts. It takes no memory.
    pub fn into_parts(self) -> (Vec<Emitted>, Vec<u64>)
        ensures lists { result.0.items ≡ self.lists }
        ensures counts { result.1.items ≡ self.counts }
    {
        let Outputs { lists, counts } = self;
        (lists, counts)
    }

    /// The same, with each list as values.
    pub fn into_lists(self, alloc: Global) -> Result<(Vec<Items>, Vec<u64>), AllocError>
        ensures lists { IfOk result (λ parts. parts.0.items ≡ self.lists) }
        ensures counts { IfOk result (λ parts. parts.1.items ≡ self.counts) }
    {
        let Outputs { lists, counts } = self;
        Ok((all_items(alloc, lists)?, counts))
    }

    /// Counts so many elements more at a place.
    #[inline(always)]
    pub(crate) fn count(&mut self, at: usize, more: usize)
        ensures { self.new ≡ counted_at at more self.old }
    {
        if at < self.counts.len() {
            self.counts[at] = self.counts[at].saturating_add(more as u64);
        }
    }

    /// Puts what was emitted behind the list of the output, where it is kept.
    pub fn keep(
        &mut self,
        alloc: Global,
        number: Option<u32>,
        emitted: Items,
    ) -> Result<(), AllocError>
        ensures { OnOk result (self.new ≡ with_values_put number emitted self.old) }
    {
        if let Some(number) = number {
            let at = number as usize;
            if at < self.lists.len() {
                self.lists[at].append(alloc, emitted)?;
            }
        }
        Ok(())
    }

    /// Puts one emission behind the list of the output, where it is kept.
    pub(crate) fn keep_one(
        &mut self,
        alloc: Global,
        number: Option<u32>,
        value: Value,
    ) -> Result<(), AllocError>
        ensures { OnOk result (self.new ≡ with_values_put number (value ∷ []) self.old) }
    {
        match number {
            Some(number) if (number as usize) < self.lists.len() => {
                self.lists[number as usize].push(alloc, value)?;
            }
            _ => drop(value),
        }
        Ok(())
    }

    /// Puts a pair behind the list of the output, where it is kept.
    #[inline(always)]
    pub(crate) fn keep_couple(
        &mut self,
        number: Option<u32>,
        couple: Couple,
    ) -> Result<(), AllocError>
        ensures { OnOk result (self.new ≡ with_values_put number (couple ∷ []) self.old) }
    {
        match number {
            Some(number) if (number as usize) < self.lists.len() => {
                self.lists[number as usize].push_couple(couple)?;
            }
            _ => drop(couple),
        }
        Ok(())
    }
}

// So many empty lists.
fn empty_lists(alloc: Global, count: usize) -> Result<Vec<Emitted>, AllocError>
    ensures { IfOk result (λ lists. lists.items ≡ empties count) }
{
    let mut lists = Vec::with_capacity(alloc, count)?;
    for _i in 0..count {
        lists.push(Emitted::new(alloc))?;
    }
    Ok(lists)
}

/// So many counts of nothing.
pub fn no_counts(alloc: Global, count: usize) -> Result<Vec<u64>, AllocError>
    ensures { IfOk result (λ counts. counts.items ≡ zeros count) }
{
    let mut counts = Vec::with_capacity(alloc, count)?;
    for _i in 0..count {
        counts.push(0)?;
    }
    Ok(counts)
}

// Each list as values.
fn all_items(alloc: Global, lists: Vec<Emitted>) -> Result<Vec<Items>, AllocError>
    ensures { IfOk result (λ all. all.items ≡ lists.items) }
{
    let mut all = Vec::with_capacity(alloc, lists.len())?;
    for list in lists {
        all.push(list.into_items(alloc)?)?;
    }
    Ok(all)
}
