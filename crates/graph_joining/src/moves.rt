// Where what is read is read then.
ghost use Rattle.std.specs.Prelude.{◌≡◌, IfOk};
ghost use Rattle.exec_graph.specs.Meaning.{place};
ghost use Rattle.graph_joining.specs.inner.Apart.{gone_by, place_by};
ghost use Rattle.graph_walks.specs.Halves.{half_of};

use exec_graph::Place;
use graph_walks::{Half, Moves, half_number};
use std::alloc::AllocError;

/// The outputs of two nodes are those of one, under even numbers and under odd ones.
#[derive(Clone, Copy, Drop)]
pub(crate) struct Apart {
    pub(crate) keeper: u32,
    pub(crate) other: u32,
    /// That of one of the two, which the one has that they become.
    pub(crate) number: u32,
}

/// These have the numbers of a table, and what is not in it a number behind them.
#[derive(Drop)]
pub(crate) struct Placed {
    pub(crate) apart: Apart,
    pub(crate) table: Vec<u32>,
    pub(crate) count: u32,
}

impl Apart {
    /// The number that is of no node then.
    pub(crate) fn gone(&self) -> u32
        ensures { result ≡ gone_by self.now }
    {
        if self.number == self.keeper {
            self.other
        } else {
            self.keeper
        }
    }

    /// Where the collection is.
    #[inline(always)]
    pub(crate) fn place_of(&self, c: Place) -> Result<Place, AllocError>
        ensures { IfOk result (λ d. d ≡ place_by self.now c) }
    {
        if c.node == self.keeper {
            let even = half_place(self.number, Half::Even, c.out)?;
            return Ok(even);
        }
        if c.node == self.other {
            let odd = half_place(self.number, Half::Odd, c.out)?;
            return Ok(odd);
        }
        Ok(c)
    }
}

fn half_place(node: u32, half: Half, out: u32) -> Result<Place, AllocError>
    ensures { IfOk result (λ d. d ≡ place node (half_of half out)) }
{
    let number = half_number(half, out)?;
    Ok(Place { node, out: number })
}

impl Moves for Placed {
    ghost use Rattle.graph_joining.specs.inner.Apart.{rule_of};

    ghost moved = { rule_of };

    #[inline(always)]
    fn place_of(&self, c: Place) -> Result<Place, AllocError> {
        let d = self.apart.place_of(c)?;
        if d.node != self.apart.number {
            return Ok(d);
        }
        let out = match self.table.get(d.out as usize) {
            Some(number) => *number,
            None => self.count,
        };
        Ok(Place {
            node: self.apart.number,
            out,
        })
    }
}
