// Where each name is.
ghost use Rattle.std.specs.Prelude.{◌≡◌, ◌==◌, ℕ, cond, nat_eq, None, Some, OnOk};
ghost use Rattle.std.specs.HashMap.{get};
ghost use Rattle.graph_names.specs.inner.Spots as spec;

use exec_graph::Place;
use std::alloc::AllocError;
use std::collections::HashMap;

/// Notes where the outputs of a node are that have these names, in their order.
pub(crate) fn note_outs(
    node: u32,
    outs: &[u32],
    places: &mut HashMap<u32, Place>,
) -> Result<(), AllocError>
    ensures { OnOk result ((n : ℕ) → get nat_eq places.new n
        ≡ spec.first_spot (get nat_eq places.old n) (spec.spot_from node 0 outs.now n)) }
{
    for (at, name) in outs.iter().enumerate() {
        let out = u32::try_from(at).map_err(|_| AllocError)?;
        note_first(*name, Place { node, out }, places)?;
    }
    Ok(())
}

/// Notes where a name is of which nothing was noted before.
fn note_first(name: u32, place: Place, places: &mut HashMap<u32, Place>) -> Result<(), AllocError>
    ensures { OnOk result ((n : ℕ) → get nat_eq places.new n
        ≡ spec.first_spot (get nat_eq places.old n) (cond (name == n) (Some place) None)) }
{
    if !places.contains_key(&name) {
        places.insert(name, place)?;
    }
    Ok(())
}
