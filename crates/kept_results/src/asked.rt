// Which collections are asked for.
ghost use Rattle.std.specs.Prelude.{◌≡◌, ◌++◌, ◌<◌, IfOk, OnOk};
ghost use Rattle.std.specs.Option.{option_map};
ghost use Rattle.kept_results.specs.Asked as spec;

use flume_value::Str;
use script_program::Program;
use std::alloc::{AllocError, Global};

/// The numbers of the collections that outputs read, in order of the script, each once, with the
/// name under which the first output reads it.
pub fn asked_nodes(alloc: Global, program: &Program) -> Result<Vec<(u32, Str)>, AllocError>
    ensures { IfOk result (λ asked. asked.items ≡ spec.asked_nodes program.now.script) }
{
    let mut asked = Vec::new(alloc);
    for number in 0..program.node_count() {
        push_asked(alloc, program, number, &mut asked)?;
    }
    Ok(asked)
}

// Adds a collection, where an output reads it.
fn push_asked(
    alloc: Global,
    program: &Program,
    number: usize,
    asked: &mut Vec<(u32, Str)>,
) -> Result<(), AllocError>
    ensures { OnOk result (asked.new.items ≡ asked.old.items
        ++ spec.asked_as number (spec.name_read program.now.script.outputs number)) }
{
    let Some(name) = name_read(program, number) else {
        return Ok(());
    };
    match u32::try_from(number) {
        Ok(number) => {
            asked.push((number, name.copy(alloc)?))?;
            Ok(())
        }
        Err(_) => Err(AllocError),
    }
}

// The name under which the first output reads the collection of a number.
fn name_read(program: &Program, number: usize) -> Option<&Str>
    ensures { option_map (λ name. name.now) result
        ≡ spec.name_read program.now.script.outputs number }
{
    for place in 0..program.output_count() {
        let output = program.output(place);
        if output.reads == number {
            return Some(&output.name);
        }
    }
    None
}
