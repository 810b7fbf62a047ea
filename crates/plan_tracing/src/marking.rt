// Marks in order.
ghost use Rattle.std.specs.Prelude.{◌≡◌, ◌<◌, ◌^◌, IfOk, map};
ghost use Rattle.std.specs.List.{AllByRecursion};
ghost use Rattle.exec_graph.specs.Places.{code};
ghost use Rattle.exec_graph.specs.Readers.{among};
ghost use Rattle.exec_graph.specs.declared.graph.Place.{Place as GhostPlace};
ghost use Rattle.plan_tracing.specs.Lists.{Rise, mark_of};
ghost use Rattle.plan_tracing.specs.inner.Codes.{place_at};

use exec_graph::{Place, code_of};
use flume_value::Pile;
use graph_rewrites::Rewrite;
use std::alloc::{AllocError, Global};

/// The collections in ascending order of nodes and outputs, each once.
pub(crate) fn ascending(alloc: Global, places: &[Place]) -> Result<Pile<Place>, AllocError>
    ensures rise { IfOk result (λ all. Rise all) }
    ensures same { IfOk result (λ all. (c : GhostPlace) → among c all ≡ among c places.now) }
{
    let mut codes = codes_of(alloc, places)?;
    codes.sort_unstable();
    codes.dedup();
    let all = places_of(alloc, codes.as_slice())?;
    Ok(all)
}

/// Each collection as one number.
fn codes_of(alloc: Global, places: &[Place]) -> Result<Vec<u64>, AllocError>
    ensures codes { IfOk result (λ codes. codes.items ≡ map code places.now) }
    ensures small { IfOk result (λ codes. AllByRecursion (λ c. c.out < 2 ^ 32) places.now) }
{
    let mut codes = Vec::new(alloc);
    for place in places {
        codes.push(small_code_of(*place))?;
    }
    Ok(codes)
}

fn small_code_of(place: Place) -> u64
    ensures code { result ≡ code place }
    ensures small { place.out < 2 ^ 32 }
{
    let _out = place.out;
    code_of(place)
}

fn places_of(alloc: Global, codes: &[u64]) -> Result<Pile<Place>, AllocError>
    ensures { IfOk result (λ places. places ≡ map place_at codes.now) }
{
    let mut places = Pile::new(alloc);
    for number in codes {
        places.push(place_of(*number))?;
    }
    Ok(places)
}

fn place_of(number: u64) -> Place
    ensures { result ≡ place_at number }
{
    Place {
        node: (number / 4294967296) as u32,
        out: (number % 4294967296) as u32,
    }
}

/// A mark of each collection.
pub(crate) fn marks_of(alloc: Global, places: &[Place]) -> Result<Pile<Rewrite>, AllocError>
    ensures { IfOk result (λ rewrites. rewrites ≡ map mark_of places.now) }
{
    let mut rewrites = Pile::new(alloc);
    for place in places {
        rewrites.push(Rewrite::Mark {
            node: place.node,
            output: place.out,
        })?;
    }
    Ok(rewrites)
}
