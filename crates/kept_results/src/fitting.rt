// What may be kept of a collection.
ghost use Rattle.std.specs.Prelude.{◌≡◌, ◌↔◌, ◌<◌, IfOk, IsTrue, length, true};
ghost use Rattle.std.specs.List.Sorted.{IsSorted};
ghost use Rattle.flume_value.specs.Order.{value_cmp};
ghost use Rattle.kept_results.specs.Kept.{AreMembersFor, IsKeptOf};
ghost use Rattle.script_program.specs.Kinds.{gives_object};
ghost use Rattle.script_program.specs.Program.{node_in};

use crate::names::{all_counted, are_named, rested_names};
use crate::typing::all_have;
use flume_value::{Value, compare};
use saved_results::Saved;
use script_program::{Node, Program};
use std::alloc::{AllocError, Global};
use type_table::Types;

/// Whether that may be kept of the collection of a number.
pub fn is_kept_of(
    alloc: Global,
    program: &Program,
    number: usize,
    saved: &Saved,
) -> Result<bool, AllocError>
    requires { number < length program.now.script.nodes }
    ensures { IfOk result (λ is. IsTrue is ↔ IsKeptOf program.now.script number saved.now) }
{
    let sizes = saved.sizes.as_slice();
    all_counted(sizes);
    let names = rested_names(alloc, program, number)?;
    let named = are_named(sizes, names.as_slice());
    let node = program.node(number);
    let fits = are_members_of(program.types(), node, saved.members.as_slice());
    Ok(named && fits)
}

// Whether these may be the members of a collection.
fn are_members_of(types: &Types, node: &Node, members: &[Value]) -> bool
    requires { node.now.ty < length types.now }
    ensures { IsTrue result ↔ AreMembersFor (node_in types.now node.now) members.now }
{
    all_have(members, types, node.ty) && ascend(members) && is_one(node, members)
}

// Whether there is one member, where the collection is an object.
fn is_one(node: &Node, members: &[Value]) -> bool
    ensures { IsTrue result ↔ (gives_object node.now.made ≡ true → length members.now ≡ 1) }
{
    !node.made.gives_object() || members.len() == 1
}

/// Whether values ascend.
pub fn ascend(items: &[Value]) -> bool
    ensures { IsTrue result ↔ IsSorted value_cmp items.now }
{
    for number in 1..items.len() {
        if compare(&items[number], &items[number - 1]).is_lt() {
            return false;
        }
    }
    true
}
