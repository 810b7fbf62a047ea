// What a call writes: the files of outputs, and the text of the screen.
ghost use Rattle.std.specs.Prelude.{◌≡◌, ◌<◌, ◌++◌, IfOk, OnOk, codes, length, map, slice_get, Some};
ghost use Rattle.outside.specs.Saves.{output_file};
ghost use Rattle.run_texts.specs.Texts.{NamedOutput, size_lines};
ghost use Rattle.run_course.specs.inner.Course.{IsTrapOf, file_with};

use crate::stop::{Stop, Trapped};
use csv_rows::text_under_columns;
use flume_collection::Trap;
use flume_value::{Str, Value};
use outside::{FileName, Output};
use run_texts::push_size;
use script_loading::ReadyProgram;
use script_program::Program;
use std::alloc::{AllocError, Global};
use std::str;

/// What a call writes: its files, and the text of the screen.
#[derive(Drop)]
pub struct Written {
    pub outputs: Vec<Output>,
    pub screen: Vec<u8>,
}

/// The file of an output that writes these members.
pub fn file_of(
    alloc: Global,
    program: &ReadyProgram,
    number: usize,
    members: &[Value],
) -> Result<Output, AllocError>
    requires within { number < length program.now.script.outputs }
    ensures { IfOk result (λ file. (output : NamedOutput) →
        slice_get program.now.script.outputs number ≡ Some output →
        output_file file ≡ file_with output members.now) }
{
    let held = program.as_program();
    let output = held.output(number);
    let text = text_under_columns(alloc, members, output.columns.as_slice())?;
    let Ok(name) = str::from_utf8(held.output_file(number).as_bytes()) else {
        unreachable!();
    };
    Ok(Output {
        name: FileName::new(alloc, name)?,
        text,
    })
}

/// The sizes behind the text that stands first, and that all is done.
pub fn with_sizes(front: Vec<u8>, sizes: &[(Str, u64)]) -> Result<Vec<u8>, AllocError>
    ensures { IfOk result (λ text.
        text.items ≡ front.items ++ (size_lines sizes.now ++ codes "done\n")) }
{
    let mut text = front;
    push_sizes(&mut text, sizes)?;
    text.extend_from_slice(b"done\n")?;
    Ok(text)
}

fn push_sizes(text: &mut Vec<u8>, sizes: &[(Str, u64)]) -> Result<(), AllocError>
    ensures { OnOk result (text.new.items ≡ text.old.items ++ size_lines sizes.now) }
{
    for (name, size) in sizes {
        push_size(text, name.as_bytes(), *size)?;
    }
    Ok(())
}

/// A trap, with the name of its collection.
pub fn trapped(alloc: Global, program: &Program, trap: Trap) -> Result<Stop, AllocError>
    requires within { trap.origin < length program.now.script.nodes }
    ensures { IfOk result (IsTrapOf program.now.script trap) }
{
    match program.node_name(trap.origin as usize).copy(alloc) {
        Ok(name) => Ok(Stop::Trapped(Trapped { trap, name })),
        Err(e) => {
            drop(trap);
            Err(e)
        }
    }
}
