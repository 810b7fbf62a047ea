// The names of what a program numbers, and numbers in decimal.
ghost use Rattle.std.specs.Prelude.{◌≡◌, ◌++◌, OnOk, decimal};
ghost use Rattle.graph_print.specs.Names.{printed_name};

use graph_build::script_program::Program;
use itoa::Buffer;
use std::alloc::AllocError;

/// The name of the collection of a number, or no byte where it has none.
pub fn node_name(program: &Program, number: usize) -> &[u8]
    ensures { result.now ≡ printed_name program.now.script.nodes number }
{
    if number < program.node_count() {
        program.node_name(number).as_bytes()
    } else {
        b""
    }
}

/// The name of the function of a number.
pub(crate) fn function_name(program: &Program, number: usize) -> &[u8]
    ensures { result.now ≡ printed_name program.now.script.functions number }
{
    if number < program.function_count() {
        program.function_name(number).as_bytes()
    } else {
        b""
    }
}

/// Adds a number in decimal.
pub(crate) fn push_number(text: &mut Vec<u8>, number: u32) -> Result<(), AllocError>
    ensures { OnOk result (text.new.items ≡ text.old.items ++ decimal number) }
{
    let mut digits = Buffer::new();
    text.extend_from_slice(digits.format(number).as_bytes())
}
