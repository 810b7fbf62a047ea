// What an output is given: values, and behind them pairs that have no record.
ghost use Rattle.std.specs.Prelude.{◌≡◌, ◌∷◌, ◌++◌, [], IfOk, OnOk};

use flume_value::{Items, Pile, Value, copy_all};
use key_order::Couple;
use std::alloc::{AllocError, Global};
use std::marker::Model;
use std::mem::replace;

/// What was emitted to an output, in order, which contracts see as a list.
///
/// Most pairs are made to be grouped or counted, and a record of each takes an allocation. Where an
/// output is given pairs that no step reads, they stand here as couples, and a record is made only
/// where a pair is needed as a value.
#[derive(Drop)]
pub struct Emitted {
    values: Vec<Value>,
    couples: Vec<Couple>,
}

impl Model for Emitted {
    ghost use Rattle.std.specs.Prelude.{List, ◌++◌};
    ghost use Rattle.std.specs.Coded.{coded_list};
    ghost use Rattle.flume_value.specs.contracts.value.Value as coded_values;
    ghost use Rattle.flume_value.specs.declared.value.Value.{Value as Plain};

    ghost Value = { List Plain };

    ghost coded = { coded_list coded_values.the_row.coded };

    ghost view = { λ e. e.values.items ++ e.couples.items };
}

impl Emitted {
    /// Nothing. It takes no memory.
    pub fn new(alloc: Global) -> Emitted
        ensures { result ≡ [] }
    {
        Emitted {
            values: Vec::new(alloc),
            couples: Vec::new(alloc),
        }
    }

    /// The values, and the pairs behind them. It takes no memory.
    pub fn into_parts(self) -> (Vec<Value>, Vec<Couple>)
        ensures { result.0.items ++ result.1.items ≡ self }
    {
        let Emitted { values, couples } = self;
        (values, couples)
    }

    /// What was emitted, as values.
    pub fn into_items(self, alloc: Global) -> Result<Items, AllocError>
        ensures { IfOk result (λ items. items ≡ self) }
    {
        let Emitted {
            mut values,
            couples,
        } = self;
        append_pairs(alloc, couples, &mut values)?;
        Ok(Pile::from_vec(values))
    }

    /// A copy.
    pub fn copy(&self, alloc: Global) -> Result<Emitted, AllocError>
        ensures { IfOk result (λ copy. copy ≡ self.now) }
    {
        let values = copy_all(alloc, self.values.as_slice())?.into_vec();
        let couples = copy_couples(alloc, self.couples.as_slice())?;
        Ok(Emitted { values, couples })
    }

    /// This, and more behind it. Where there is none of this the other is taken as it is.
    pub fn with_more(self, alloc: Global, more: Emitted) -> Result<Emitted, AllocError>
        ensures { IfOk result (λ all. all ≡ self ++ more) }
    {
        let mut all = self;
        let (values, couples) = more.into_parts();
        all.append(alloc, Pile::from_vec(values))?;
        all.append_couples(couples)?;
        Ok(all)
    }

    /// Puts a value behind the others.
    pub(crate) fn push(&mut self, alloc: Global, value: Value) -> Result<(), AllocError>
        ensures { OnOk result (self.new ≡ self.old ++ value ∷ []) }
    {
        if self.couples.is_empty() {
            self.values.push(value)?;
            return Ok(());
        }
        let couples = replace(&mut self.couples, Vec::new(alloc));
        match append_pairs(alloc, couples, &mut self.values) {
            Ok(()) => {
                self.values.push(value)?;
                Ok(())
            }
            Err(fault) => {
                drop(value);
                Err(fault)
            }
        }
    }

    /// Puts a pair behind the others.
    #[inline(always)]
    pub(crate) fn push_couple(&mut self, couple: Couple) -> Result<(), AllocError>
        ensures { OnOk result (self.new ≡ self.old ++ couple ∷ []) }
    {
        self.couples.push(couple)?;
        Ok(())
    }

    /// Puts values behind the others.
    pub(crate) fn append(&mut self, alloc: Global, more: Items) -> Result<(), AllocError>
        ensures { OnOk result (self.new ≡ self.old ++ more) }
    {
        if self.values.is_empty() && self.couples.is_empty() {
            self.values = more.into_vec();
            return Ok(());
        }
        for value in more.into_vec() {
            self.push(alloc, value)?;
        }
        Ok(())
    }

    /// Puts pairs behind the others.
    fn append_couples(&mut self, more: Vec<Couple>) -> Result<(), AllocError>
        ensures { OnOk result (self.new ≡ self.old ++ more.items) }
    {
        if self.couples.is_empty() {
            self.couples = more;
            return Ok(());
        }
        let mut more = more;
        self.couples.append(&mut more)?;
        Ok(())
    }
}

// Puts pairs behind values, as records.
fn append_pairs(
    alloc: Global,
    couples: Vec<Couple>,
    values: &mut Vec<Value>,
) -> Result<(), AllocError>
    ensures { OnOk result (values.new.items ≡ values.old.items ++ couples.items) }
{
    for couple in couples {
        values.push(couple.into_value(alloc)?)?;
    }
    Ok(())
}

// Copies of pairs.
fn copy_couples(alloc: Global, couples: &[Couple]) -> Result<Vec<Couple>, AllocError>
    ensures { IfOk result (λ copies. copies.items ≡ couples.now) }
{
    let mut copies = Vec::with_capacity(alloc, couples.len())?;
    for couple in couples {
        copies.push(couple.copy(alloc)?)?;
    }
    Ok(copies)
}
