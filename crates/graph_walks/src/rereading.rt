// Nodes that read elsewhere.
ghost use Rattle.std.specs.Prelude.{◌≡◌, IfOk, OnOk, map};
ghost use Rattle.graph_laws.specs.Joining.{reread, reread_entry};

use flume_value::Pile;
use graph_laws::exec_graph::{Entry, Node, Place};
use std::alloc::{AllocError, Global};
use std::mem;

/// Where each collection is then.
pub trait Moves {
    ghost use Rattle.graph_laws.specs.of_exec_graph.declared.graph.Place.{Place as GhostPlace};

    /// Where a collection is then.
    ghost moved: { Self → GhostPlace → GhostPlace };

    /// Where the collection is then.
    fn place_of(&self, c: Place) -> Result<Place, AllocError>
        ensures { IfOk result (λ d. d ≡ moved self.now c) };
}

/// The nodes, each of which reads what it read where that is then.
pub fn reread_nodes<M: Moves>(
    alloc: Global,
    nodes: Vec<Entry>,
    by: &M,
) -> Result<Vec<Entry>, AllocError>
    ensures { IfOk result (λ v. v.items ≡ map (reread_entry (M.moved by.now)) nodes.items) }
{
    let mut all = nodes;
    for entry in all.iter_mut() {
        reread_one(alloc, entry, by)?;
    }
    Ok(all)
}

fn reread_one<M: Moves>(alloc: Global, entry: &mut Entry, by: &M) -> Result<(), AllocError>
    ensures { OnOk result (entry.new ≡ reread_entry (M.moved by.now) entry.old) }
{
    reread(alloc, &mut entry.node, by)
}

fn reread<M: Moves>(alloc: Global, node: &mut Node, by: &M) -> Result<(), AllocError>
    ensures { OnOk result (node.new ≡ reread (M.moved by.now) node.old) }
{
    match node {
        Node::Source(_) => Ok(()),
        Node::Flatten(inputs) => reread_list(alloc, inputs, by),
        Node::Pdo { input, .. } => move_place(input, by),
        Node::Gbk { input, .. } => move_place(input, by),
        Node::Barrier { inputs, .. } => reread_list(alloc, inputs, by),
    }
}

fn reread_list<M: Moves>(alloc: Global, places: &mut Pile<Place>, by: &M) -> Result<(), AllocError>
    ensures { OnOk result (places.new ≡ map (M.moved by.now) places.old) }
{
    let former = mem::replace(places, Pile::new(alloc));
    *places = reread_places(former, by)?;
    Ok(())
}

/// The collections where they are then.
pub fn reread_places<M: Moves>(places: Pile<Place>, by: &M) -> Result<Pile<Place>, AllocError>
    ensures { IfOk result (λ all. all ≡ map (M.moved by.now) places) }
{
    let mut all = places.into_vec();
    for c in all.iter_mut() {
        move_place(c, by)?;
    }
    Ok(Pile::from_vec(all))
}

#[inline(always)]
fn move_place<M: Moves>(c: &mut Place, by: &M) -> Result<(), AllocError>
    ensures { OnOk result (c.new ≡ M.moved by.now c.old) }
{
    *c = by.place_of(*c)?;
    Ok(())
}
