// The body of a repeat in the state, and what stands in its place behind it: names that are taken,
// collections that are taken out again, and others that no name stands for yet.
ghost use Rattle.std.specs.Prelude.{◌≡◌, ◌≤◌, ◌<◌, ◌++◌, ◌∷◌, [], length, map, take, drop};
ghost use Rattle.std.specs.Prelude.{false, is_some, slice_get, IfOk, OnOk, OnErr};
ghost use Rattle.std.specs.List.{All};
ghost use Rattle.body_check.specs.of_written_types.Named.{find};
ghost use Rattle.script_program.specs.Program.{node_in};
ghost use Rattle.script_program.specs.Script as spec;
ghost use Rattle.script_program.specs.inner.Tables.{node_of};
ghost use Rattle.script_state.specs.inner.Standings.{standing_at as stands};

use super::State;
use flume_value::{Pile, Str};
use indexmap::IndexMap;
use script_program::{Node, Standing};
use std::alloc::{AllocError, Global};
use std::mem;

impl State {
    /// A name more, which is taken and stands for no collection.
    pub fn hide(&mut self, alloc: Global, name: &Str) -> Result<(), AllocError>
        requires { is_some (find name.now self.old.state.names) ≡ false }
        ensures state { OnOk result (self.new.state
            ≡ spec.with_standing name.now Standing.Hidden self.old.state) }
        ensures types { self.new.types ≡ self.old.types }
    {
        let key = name.copy(alloc)?;
        self.names.insert(key, Standing::Hidden)?;
        Ok(())
    }

    /// The collections from a number on, which are taken out with those between it and another.
    pub fn cut(
        &mut self,
        alloc: Global,
        front: usize,
        body: usize,
    ) -> Result<Pile<(Str, Node)>, AllocError>
        requires order { front ≤ body }
        requires within { body ≤ length self.old.state.nodes }
        ensures body { IfOk result (λ nodes.
            map (node_of self.new.types) nodes ≡ drop body self.old.state.nodes) }
        ensures typed { IfOk result (All (λ entry. entry.1.ty < length self.new.types)) }
        ensures state { OnOk result (self.new.state ≡ spec.with_front front self.old.state) }
        ensures types { self.new.types ≡ self.old.types }
    {
        let nodes = cut_out(alloc, front, body, &mut self.nodes)?;
        Ok(nodes)
    }

    /// A collection more, for which no name stands yet.
    pub fn add_copy(&mut self, name: Str, node: Node) -> Result<(), AllocError>
        requires { node.ty < length self.old.types }
        ensures state { OnOk result (self.new.state
            ≡ spec.with_copies ((name, node_in self.old.types node) ∷ []) self.old.state) }
        ensures types { self.new.types ≡ self.old.types }
    {
        self.nodes.push((name, node))?;
        Ok(())
    }

    /// Lets the names from a place on stand for the collections of these numbers, and those behind
    /// them for none.
    pub fn give(&mut self, first: usize, numbers: &[usize])
        ensures state { self.new.state ≡ spec.with_given first numbers.now self.old.state }
        ensures types { self.new.types ≡ self.old.types }
    {
        give(first, numbers, &mut self.names);
    }
}

/// The members from a place on, which are taken out with those between it and another.
fn cut_out(
    alloc: Global,
    front: usize,
    body: usize,
    nodes: &mut Pile<(Str, Node)>,
) -> Result<Pile<(Str, Node)>, AllocError>
    requires order { front ≤ body }
    requires within { body ≤ length nodes.old }
    ensures body { IfOk result (λ rest. rest ≡ drop body nodes.old) }
    ensures front { OnOk result (nodes.new ≡ take front nodes.old) }
    ensures none { OnErr result (nodes.new ≡ []) }
{
    let mut left = mem::replace(nodes, Pile::new(alloc)).into_vec();
    let rest = left.split_off(body)?;
    left.truncate(front);
    *nodes = Pile::from_vec(left);
    Ok(Pile::from_vec(rest))
}

fn give(first: usize, numbers: &[usize], names: &mut IndexMap<Str, Standing>)
    ensures { names.new.entries
        ≡ take first names.old.entries
        ++ spec.given numbers.now (drop first names.old.entries) }
{
    for place in first..names.len() {
        names[place] = standing_at(numbers, place - first);
    }
}

/// What the name at a place stands for, where the first names stand for these collections.
fn standing_at(numbers: &[usize], place: usize) -> Standing
    ensures { result ≡ stands numbers.now place }
{
    match numbers.get(place) {
        Some(number) => Standing::Collection(*number),
        None => Standing::Hidden,
    }
}
