// How steps are printed: by the names of collections and functions, or `%` and what they are.
ghost use Rattle.std.specs.Prelude.{◌≡◌, ◌++◌, OnOk};
ghost use Rattle.graph_print.specs.Steps as spec;

use crate::names::{function_name, node_name, push_number};
use combine_table::Comb;
use exec_graph::Does;
use graph_build::script_program::Program;
use std::alloc::AllocError;

/// Adds the name of a combiner.
pub fn push_combiner(text: &mut Vec<u8>, combiner: Comb) -> Result<(), AllocError>
    ensures { OnOk result (text.new.items ≡ text.old.items ++ spec.combiner_text combiner) }
{
    match combiner {
        Comb::Sum => text.extend_from_slice(b"sum"),
        Comb::Count => text.extend_from_slice(b"count"),
        Comb::Min => text.extend_from_slice(b"min"),
        Comb::Max => text.extend_from_slice(b"max"),
        Comb::All => text.extend_from_slice(b"all"),
        Comb::Any => text.extend_from_slice(b"any"),
        Comb::Top(n) => {
            text.extend_from_slice(b"top ")?;
            push_number(text, n)
        }
        Comb::Mean => text.extend_from_slice(b"mean"),
        Comb::Distinct => text.extend_from_slice(b"distinct"),
    }
}

/// Adds what a step does.
fn push_does(text: &mut Vec<u8>, program: &Program, does: Does) -> Result<(), AllocError>
    ensures { OnOk result (text.new.items
        ≡ text.old.items ++ spec.does_text program.now.script does) }
{
    match does {
        Does::Call(function) => text.extend_from_slice(function_name(program, function as usize)),
        Does::Combine(combiner) => {
            text.extend_from_slice(b"%")?;
            push_combiner(text, combiner)
        }
        Does::Pair => text.extend_from_slice(b"%pair"),
        Does::TagLeft => text.extend_from_slice(b"%tagleft"),
        Does::TagRight => text.extend_from_slice(b"%tagright"),
        Does::Split => text.extend_from_slice(b"%split"),
        Does::Solo => text.extend_from_slice(b"%solo"),
        Does::Spread => text.extend_from_slice(b"%spread"),
    }
}

/// Adds a step of a collection: the name of the collection, and what the step does.
pub fn push_step(
    text: &mut Vec<u8>,
    program: &Program,
    origin: u32,
    does: Does,
) -> Result<(), AllocError>
    ensures { OnOk result (text.new.items
        ≡ text.old.items ++ spec.step_text program.now.script origin does) }
{
    text.extend_from_slice(node_name(program, origin as usize))?;
    text.extend_from_slice(b":")?;
    push_does(text, program, does)
}
