// Where what is read is read under names, and where it is read again without them.
ghost use Rattle.std.specs.Prelude.{◌≡◌, IfOk};
ghost use Rattle.graph_names.specs.inner.Moves as spec;

use crate::naming::{Naming, name_number};
use exec_graph::Place;
use graph_walks::Moves;
use std::alloc::AllocError;
use std::collections::HashMap;

/// A rule by which all that is read moves.
#[derive(Drop)]
pub(crate) enum Move {
    /// An output of a Pdo is told by its name. Of each node the map says whether it is a Pdo, and
    /// the number is above those of all nodes.
    ToNames(HashMap<u32, bool>, u32),
    /// A name is told by where its output is.
    ToPlaces(HashMap<u32, Place>),
}

impl Moves for Move {
    ghost use Rattle.graph_names.specs.inner.Moves.{move_of};

    ghost moved = { move_of };

    fn place_of(&self, c: Place) -> Result<Place, AllocError> {
        match self {
            Move::ToNames(pdos, next) => named_place(pdos, *next, c),
            Move::ToPlaces(places) => Ok(found_place(places, c)),
        }
    }
}

fn named_place(pdos: &HashMap<u32, bool>, next: u32, c: Place) -> Result<Place, AllocError>
    ensures { IfOk result (λ d. d ≡ spec.place_under pdos.now next c) }
{
    if !is_pdo(pdos, c.node) {
        return Ok(c);
    }
    let by = Naming { node: c.node, next };
    let name = name_number(by, c.out)?;
    Ok(Place { node: name, out: 0 })
}

fn is_pdo(pdos: &HashMap<u32, bool>, node: u32) -> bool
    ensures { result ≡ spec.pdo_in pdos.now node }
{
    match pdos.get(&node) {
        Some(found) => *found,
        None => false,
    }
}

fn found_place(places: &HashMap<u32, Place>, c: Place) -> Place
    ensures { result ≡ spec.place_in places.now c }
{
    match places.get(&c.node) {
        Some(found) => *found,
        None => c,
    }
}
