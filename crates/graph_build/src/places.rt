// The places of collections in the graph.
ghost use Rattle.std.specs.Prelude.{◌≡◌, ◌+◌, ◌<◌, ◌^◌, [], ◌∷◌, Some, IfOk, if◌then◌else◌, length, map, slice_index};
ghost use Rattle.graph_build.specs.Calls.{emitted_as, is_saved_made};
ghost use Rattle.graph_build.specs.Graphs as spec;
ghost use Rattle.graph_build.specs.Wanted.{wanted_at as wanted_in};

use crate::numbers::{first_of, giving, number_of};
use crate::outputs::{count_needed, kept_count, other_names};
use crate::wanted::wanted_at;
use exec_graph::Place;
use flume_value::Pile;
use script_program::{Emitted, Made, Program};
use std::alloc::{AllocError, Global};

/// The place of each collection of a program.
pub(crate) fn places(alloc: Global, program: &Program, count: u32) -> Result<Vec<Place>, AllocError>
    requires { count ≡ length program.now.script.nodes }
    ensures { IfOk result (λ places. places.items ≡ spec.places program.now.script) }
{
    let giving = giving(alloc, program, count)?;
    let mut places = Vec::new(alloc);
    for number in 0..count {
        let place = place_at(program, giving.as_slice(), number as usize)?;
        places.push(place)?;
    }
    Ok(places)
}

/// The place of the collection of a number, by the numbers of the last nodes.
fn place_at(program: &Program, giving: &[u32], number: usize) -> Result<Place, AllocError>
    ensures { IfOk result (λ place. place
        ≡ spec.place_made program.now.script giving.now number
        (wanted_in program.now.script number)) }
{
    match wanted_at(program, number) {
        None => Ok(first_of(0)),
        Some(made) => place_as(program, giving, number, made),
    }
}

/// The place of the collection of a number, which is so made.
fn place_as(
    program: &Program,
    giving: &[u32],
    number: usize,
    made: &Made,
) -> Result<Place, AllocError>
    ensures { IfOk result (λ place. place
        ≡ spec.place_as program.now.script giving.now number made.now (emitted_as made.now)) }
{
    match made.emitted() {
        None => Ok(first_of(last_node(giving, number))),
        Some(it) => {
            let first = number_of(number.saturating_sub(it.output))?;
            place_of(program, giving, first, it, made)
        }
    }
}

/// The place of an output of a call, which is so made. The call's first name has that number.
fn place_of(
    program: &Program,
    giving: &[u32],
    first: u32,
    it: Emitted,
    made: &Made,
) -> Result<Place, AllocError>
    requires { first + it.output < 2 ^ 64 }
    ensures { IfOk result (λ place. place
        ≡ (if is_saved_made (Some made.now)
        then spec.kept_place program.now.script giving.now first it.output
        else spec.call_place program.now.script giving.now first it.function it.output)) }
{
    match made {
        Made::Saved { .. } => kept_place(program, giving, first, it.output),
        _ => call_place(program, giving, first, it.function, it.output),
    }
}

/// The place of an output of a call that is kept.
fn kept_place(
    program: &Program,
    giving: &[u32],
    first: u32,
    output: usize,
) -> Result<Place, AllocError>
    requires { first + output < 2 ^ 64 }
    ensures { IfOk result (λ place. place
        ≡ spec.kept_place program.now.script giving.now first output) }
{
    let name = first as usize;
    let before = kept_count(program, name, name + output)?;
    Ok(first_of(last_node(giving, name + before as usize)))
}

/// The place of an output that a call emits.
fn call_place(
    program: &Program,
    giving: &[u32],
    first: u32,
    function: usize,
    output: usize,
) -> Result<Place, AllocError>
    requires { first + output < 2 ^ 64 }
    ensures { IfOk result (λ place. place
        ≡ spec.call_place program.now.script giving.now first function output) }
{
    let others = other_names(program, function)?;
    let name = first as usize;
    let kept = kept_count(program, name, name + 1 + others as usize)?;
    let out = count_needed(program, name, name + output)?;
    let node = last_node(giving, name + kept as usize);
    Ok(Place { node, out })
}

/// The number of the last node that is built at the collection of a number.
fn last_node(giving: &[u32], number: usize) -> u32
    ensures { result ≡ slice_index giving.now number }
{
    match giving.get(number) {
        Some(node) => *node,
        None => 0,
    }
}

/// The place of the collection of a number, by those of all.
pub(crate) fn place_in(places: &[Place], number: usize) -> Place
    ensures { result ≡ spec.place_at_number places.now number }
{
    match places.get(number) {
        Some(place) => *place,
        None => first_of(0),
    }
}

/// The places of the collections of these numbers.
pub(crate) fn places_in(
    alloc: Global,
    places: &[Place],
    sources: &[usize],
) -> Result<Pile<Place>, AllocError>
    ensures { IfOk result (λ inputs. inputs ≡ map (spec.place_at_number places.now) sources.now) }
{
    let mut inputs = Pile::new(alloc);
    for source in sources {
        inputs.push(place_in(places, *source))?;
    }
    Ok(inputs)
}

/// Two places, one behind the other.
pub(crate) fn both(alloc: Global, first: Place, second: Place) -> Result<Pile<Place>, AllocError>
    ensures { IfOk result (λ inputs. inputs ≡ first ∷ second ∷ []) }
{
    let mut inputs = Pile::new(alloc);
    inputs.push(first)?;
    inputs.push(second)?;
    Ok(inputs)
}
