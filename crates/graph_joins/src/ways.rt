// Ways to outputs, as hints: who follows one looks for the name where it ends.
use exec_graph::{Entry, Node, Output, Step};
use std::alloc::{AllocError, Global};
use std::collections::HashMap;

/// One turn of a way from the roots of a Pdo to an output: an output of a step.
#[derive(Clone, Copy, Drop)]
pub(crate) struct Turn {
    pub(crate) step: usize,
    pub(crate) output: usize,
}

/// What steps stand on.
#[derive(Clone, Copy, Drop)]
enum Base {
    /// On what the Pdo of that number reads.
    Pdo(u32),
    /// On the output of that name.
    Output(u32),
}

/// Where something stands that once stood first: on a base, behind so many steps.
#[derive(Clone, Copy, Drop)]
struct Spot {
    base: Base,
    behind: usize,
}

/// An output of a step.
#[derive(Clone, Copy, Drop)]
struct OutputSpot {
    spot: Spot,
    output: usize,
}

/// Where names and the roots of Pdos that are gone stand. Steps are only put behind others, so that
/// nothing of it ever changes.
#[derive(Drop)]
pub struct Ways {
    names: HashMap<u32, OutputSpot>,
    gone: HashMap<u32, Spot>,
}

/// No way is told that has more turns, nor is one sought through more Pdos.
const MOST_TURNS: usize = 128;

/// The ways to the outputs of the roots.
pub(crate) fn ways_of(alloc: Global, nodes: &[Entry]) -> Result<Ways, AllocError> {
    let mut ways = Ways {
        names: HashMap::new(alloc),
        gone: HashMap::new(alloc),
    };
    for entry in nodes {
        if let Node::Pdo { roots, .. } = &entry.node {
            note_steps(entry.number, roots.steps(), &mut ways.names)?;
        }
    }
    Ok(ways)
}

fn note_steps(
    pdo: u32,
    steps: &[Step],
    names: &mut HashMap<u32, OutputSpot>,
) -> Result<(), AllocError> {
    for (behind, step) in steps.iter().enumerate() {
        let spot = Spot {
            base: Base::Pdo(pdo),
            behind,
        };
        note_output(&step.first, OutputSpot { spot, output: 0 }, names)?;
        note_outputs(step.more.as_slice(), spot, names)?;
    }
    Ok(())
}

fn note_outputs(
    outputs: &[Output],
    spot: Spot,
    names: &mut HashMap<u32, OutputSpot>,
) -> Result<(), AllocError> {
    for (i, one) in outputs.iter().enumerate() {
        let output = i.saturating_add(1);
        note_output(one, OutputSpot { spot, output }, names)?;
    }
    Ok(())
}

fn note_output(
    one: &Output,
    place: OutputSpot,
    names: &mut HashMap<u32, OutputSpot>,
) -> Result<(), AllocError> {
    if let Some(name) = one.number {
        names.insert(name, place)?;
    }
    Ok(())
}

/// The roots of that Pdo now stand behind so many of another.
pub(crate) fn note_sibling(
    other: u32,
    keeper: u32,
    behind: usize,
    ways: &mut Ways,
) -> Result<(), AllocError> {
    let spot = Spot {
        base: Base::Pdo(keeper),
        behind,
    };
    ways.gone.insert(other, spot)?;
    Ok(())
}

/// The roots of that Pdo now stand first on the output of that name.
pub(crate) fn note_kid(reader: u32, name: u32, ways: &mut Ways) -> Result<(), AllocError> {
    let spot = Spot {
        base: Base::Output(name),
        behind: 0,
    };
    ways.gone.insert(reader, spot)?;
    Ok(())
}

/// The way to the output of that name, its last turn first, or the end of one.
pub(crate) fn way_to(alloc: Global, name: u32, ways: &Ways) -> Result<Vec<Turn>, AllocError> {
    let mut way = Vec::new(alloc);
    let mut above = name;
    for _turn in 0..MOST_TURNS {
        let Some(place) = ways.names.get(&above) else {
            return Ok(way);
        };
        let spot = spot_now(place.spot, ways);
        way.push(Turn {
            step: spot.behind,
            output: place.output,
        })?;
        match spot.base {
            Base::Output(other) => above = other,
            Base::Pdo(_) => return Ok(way),
        }
    }
    Ok(way)
}

/// Where that stands which once stood there.
fn spot_now(first: Spot, ways: &Ways) -> Spot {
    let mut spot = first;
    for _step in 0..MOST_TURNS {
        match spot.base {
            Base::Output(_) => return spot,
            Base::Pdo(pdo) => match ways.gone.get(&pdo) {
                Some(next) => {
                    spot = Spot {
                        base: next.base,
                        behind: next.behind.saturating_add(spot.behind),
                    }
                }
                None => return spot,
            },
        }
    }
    spot
}
