// What workers keep.
ghost use Rattle.std.specs.Prelude.{◌≡◌, [], ◌++◌, ltb, OnOk};
ghost use Rattle.std.specs.List.{filter};
ghost use Rattle.std.specs.List.Sorted.{IsPermutation, IsNonDecreasingBy};
ghost use Rattle.std.specs.Option.{option_to_list};

use std::alloc::{AllocError, Global};
use std::marker::Model;

/// An out that won its task: the task, the attempt that made it, and the out itself.
#[derive(Drop)]
pub struct KeptOut<O> {
    /// The task, counted from 0.
    pub task: u32,
    /// The attempt that won, counted from 1.
    pub attempt: u32,
    /// What the attempt made.
    pub out: O,
}

/// What workers have kept. Contracts see the list.
#[derive(Drop)]
pub struct Kept<O> {
    outs: Vec<KeptOut<O>>,
}

impl<O> Model for Kept<O> {
    ghost use Rattle.std.specs.Prelude.{List};
    ghost use Rattle.crew.specs.declared.kept.KeptOut.{KeptOut};

    ghost Value = { List (KeptOut O) };

    ghost view = { λ k. k.outs.items };
}

impl<O> Kept<O> {
    pub(crate) fn new(alloc: Global) -> Kept<O>
        ensures { result ≡ [] }
    {
        Kept {
            outs: Vec::new(alloc),
        }
    }

    /// The outs.
    pub fn as_slice(&self) -> &[KeptOut<O>]
        ensures { result.now ≡ self.now }
    {
        self.outs.as_slice()
    }

    /// The outs. It takes no memory.
    pub fn into_vec(self) -> Vec<KeptOut<O>>
        ensures { result.items ≡ self }
    {
        let Kept { outs } = self;
        outs
    }
}

impl<O: Drop> Kept<O> {
    // One out more, where there is one.
    pub(crate) fn add(&mut self, won: Option<KeptOut<O>>) -> Result<(), AllocError>
        ensures { OnOk result (self.new ≡ self.old ++ option_to_list won) }
    {
        if let Some(won) = won {
            self.outs.push(won)?;
        }
        Ok(())
    }

    // The outs of another behind its own.
    pub(crate) fn append(&mut self, other: Kept<O>) -> Result<(), AllocError>
        ensures { OnOk result (self.new ≡ self.old ++ other) }
    {
        let Kept { outs: mut more } = other;
        self.outs.append(&mut more)
    }

    // The outs of the tasks below this one.
    pub(crate) fn below(self, task: u32) -> Kept<O>
        ensures { result ≡ filter (λ k. ltb k.task task) self }
    {
        let Kept { mut outs } = self;
        outs.retain(|k| k.task < task);
        Kept { outs }
    }

    // The same outs in order of their tasks.
    pub(crate) fn in_order(self) -> Kept<O>
        ensures moved { IsPermutation self result }
        ensures rise { IsNonDecreasingBy (λ k. k.task) result }
    {
        let Kept { outs } = self;
        Kept {
            outs: by_task(outs),
        }
    }
}

// The same outs in order of their tasks.
fn by_task<O: Drop>(mut outs: Vec<KeptOut<O>>) -> Vec<KeptOut<O>>
    ensures moved { IsPermutation outs.items result.items }
    ensures rise { IsNonDecreasingBy (λ k. k.task) result.items }
{
    outs.as_mut_slice().sort_unstable_by_key(|k| k.task);
    outs
}
