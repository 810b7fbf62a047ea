// Collections that an earlier run has kept, in place of how the script makes them.
ghost use Rattle.std.specs.Prelude.{◌≡◌};
ghost use Rattle.script_program.specs.Needed.{holds_number};
ghost use Rattle.script_program.specs.Saved.{kept_at};
ghost use Rattle.script_program.specs.inner.Tables.{held_saved, held_saved_from};

use crate::made::Node;
use flume_value::Str;

/// Lets the collections of these numbers be kept ones.
pub fn save_found(nodes: &mut Vec<(Str, Node)>, found: &[u32])
    ensures { nodes.new.items ≡ held_saved_from found.now 0 nodes.old.items }
{
    for number in 0..nodes.len() {
        save_at(&mut nodes[number], number, found);
    }
}

/// Lets the collection of a number be a kept one, where the number is among those found.
fn save_at(entry: &mut (Str, Node), number: usize, found: &[u32])
    ensures { entry.new ≡ kept_at held_saved found.now number entry.old }
{
    if is_found(found, number) {
        save(&mut entry.1);
    }
}

fn save(node: &mut Node)
    ensures { node.new ≡ held_saved node.old }
{
    node.made = node.made.saved();
}

/// Whether a number is among those found.
fn is_found(found: &[u32], number: usize) -> bool
    ensures { result ≡ holds_number found.now number }
{
    found.iter().any(|it| *it as usize == number)
}
