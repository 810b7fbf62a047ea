// Outputs under even numbers, or under odd ones.
ghost use Rattle.std.specs.Prelude.{◌≡◌, IfOk, OnOk};
ghost use Rattle.graph_laws.specs.of_exec_graph.Forests.{grown};
ghost use Rattle.graph_laws.specs.Kids.{named_by};
ghost use Rattle.graph_walks.specs.Halves.{half_of};

use crate::labels::{Labels, relabel};
use graph_laws::exec_graph::Step;
use std::alloc::AllocError;

/// The numbers twice, or twice and one more.
#[derive(Clone, Copy, PartialEq, Eq, Drop)]
pub enum Half {
    Even,
    Odd,
}

/// Another number for that one; 32 bits that do not hold it are more than memory holds outputs.
pub fn half_number(half: Half, number: u32) -> Result<u32, AllocError>
    ensures { IfOk result (λ n. n ≡ half_of half number) }
{
    let twice = number.checked_mul(2).ok_or(AllocError)?;
    match half {
        Half::Even => Ok(twice),
        Half::Odd => twice.checked_add(1).ok_or(AllocError),
    }
}

impl Labels for Half {
    ghost use Rattle.graph_laws.specs.Kids.{out_named};
    ghost use Rattle.graph_walks.specs.Halves.{half_of};

    ghost label_of = { λ half. out_named (half_of half) };

    fn label(&self, former: Option<u32>) -> Result<Option<u32>, AllocError> {
        match former {
            Some(number) => Ok(Some(half_number(*self, number)?)),
            None => Ok(None),
        }
    }
}

/// Gives the outputs of the steps these numbers.
#[tactic(auto, using(crate::proofs::Relabeling::grown_named))]
pub fn halve(half: Half, steps: &mut Vec<Step>) -> Result<(), AllocError>
    ensures { OnOk result
        (grown steps.new.items ≡ named_by (half_of half) (grown steps.old.items)) }
{
    relabel(&half, steps)?;
    Ok(())
}
