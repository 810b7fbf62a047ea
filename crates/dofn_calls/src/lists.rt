// What a call emits: a list for each output.
ghost use Rattle.std.specs.Prelude.{◌≡◌, ◌≤◌, [], ◌∷◌, ◌++◌, length, slice_get, replicate, Some};
ghost use Rattle.std.specs.Prelude.{IfOk, IfErr};
ghost use Rattle.std.specs.Option.{option_copied};
ghost use Rattle.dofn_eval.specs.Outcome.{IsSafe};
ghost use Rattle.dofn_eval.specs.Run.{emitted_to};
ghost use Rattle.dofn_calls.specs.inner.Evaluates.{Evaluates};
ghost use Rattle.dofn_calls.specs.inner.Passing.{all_emitted_to};

use flume_value::{CallFault, Items, Pile, Value};
use std::alloc::{AllocError, Global};
use std::marker::Model;
use std::mem::replace;

/// What a call emits: a list for each output of the function, of which there is at least one.
/// Contracts see it as these lists.
#[derive(Drop)]
pub struct Lists {
    first: Items,
    others: Vec<Items>,
}

impl Model for Lists {
    ghost use Rattle.std.specs.Prelude.{List, ◌∷◌};
    ghost use Rattle.std.specs.Coded.{coded_list};
    ghost use Rattle.flume_value.specs.declared.value.Value.{Value as Plain};
    ghost use Rattle.flume_value.specs.contracts.value.Value as value;

    ghost Value = { List (List Plain) };

    ghost coded = { coded_list (coded_list value.the_row.coded) };

    ghost view = { λ l. l.first ∷ l.others.items };
}

impl Lists {
    /// No value for each of so many outputs. One output takes no memory.
    pub(crate) fn new(alloc: Global, outputs: usize) -> Result<Lists, AllocError>
        requires { 1 ≤ outputs }
        ensures { IfOk result (λ lists. lists ≡ replicate outputs []) }
    {
        let mut others = Vec::new(alloc);
        for _output in 1..outputs {
            others.push(Pile::new(alloc))?;
        }
        Ok(Lists {
            first: Pile::new(alloc),
            others,
        })
    }

    /// Emits a value to the output of this number.
    pub(crate) fn emit(&mut self, output: usize, value: Value) -> Result<(), CallFault>
        requires { IsSafe (emitted_to output value self.old) }
        ensures { Evaluates (λ _. self.new) result (emitted_to output value self.old) }
    {
        if output == 0 {
            self.first.push(value)?;
        } else {
            self.others[output - 1].push(value)?;
        }
        Ok(())
    }

    /// Emits values to the output of this number, one behind the other.
    pub(crate) fn emit_all(
        &mut self,
        alloc: Global,
        output: usize,
        values: Vec<Value>,
    ) -> Result<(), CallFault>
        requires { IsSafe (all_emitted_to output values.items self.old) }
        ensures { Evaluates (λ _. self.new) result (all_emitted_to output values.items self.old) }
    {
        if output == 0 {
            put_behind(alloc, &mut self.first, values)
        } else {
            put_behind(alloc, &mut self.others[output - 1], values)
        }
    }

    /// How many outputs there are.
    pub fn len(&self) -> usize
        ensures { result ≡ length self.now }
    {
        self.others.len() + 1
    }

    /// What was emitted to the output of this number, in order, if there is one.
    pub fn get(&self, output: usize) -> Option<&[Value]>
        ensures { option_copied result ≡ slice_get self.now output }
    {
        if output == 0 {
            return Some(self.first.as_slice());
        }
        match self.others.get(output - 1) {
            Some(list) => Some(list.as_slice()),
            None => None,
        }
    }

    /// What was emitted to the first output, in order.
    pub fn first(&self) -> &[Value]
        ensures { Some result.now ≡ slice_get self.now 0 }
    {
        self.first.as_slice()
    }

    /// What was emitted to the first output, and to each of the others. It takes no memory.
    pub fn into_parts(self) -> (Items, Vec<Items>)
        ensures { result.0 ∷ result.1.items ≡ self }
    {
        let Lists { first, others } = self;
        (first, others)
    }
}

// Puts values behind those of a list. One that is empty takes them over, with no memory more.
fn put_behind(alloc: Global, list: &mut Items, values: Vec<Value>) -> Result<(), CallFault>
    ensures ok { IfOk result (λ _. list.new ≡ list.old ++ values.items) }
    ensures err { IfErr result (λ fault. fault ≡ CallFault.Memory) }
{
    if list.is_empty() {
        *list = Pile::from_vec(values);
        return Ok(());
    }
    let mut all = replace(list, Pile::new(alloc)).into_vec();
    let mut more = values;
    all.append(&mut more)?;
    *list = Pile::from_vec(all);
    Ok(())
}
