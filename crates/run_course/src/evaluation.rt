// What the meaning of a script writes, or why it writes nothing.
ghost use Rattle.std.specs.Prelude.{◌≡◌, ◌<◌, ◌++◌, [], IfErr, IfOk, Some, codes, length, map, slice_get};
ghost use Rattle.std.specs.Option.{option_map};
ghost use Rattle.script_loading.specs.of_direct_meaning.Evaluated.{bag_at};
ghost use Rattle.script_loading.specs.of_direct_meaning.Inputs.{AreInputs};
ghost use Rattle.outside.specs.Saves.{output_file};
ghost use Rattle.run_texts.specs.Texts.{NamedOutput, size_lines};
ghost use Rattle.script_program.specs.Saved.{HasNoSaved};
ghost use Rattle.run_course.specs.inner.Course.{AreFiles, HaveMembers, GivesFiles, IsFileOf, IsStop};

use crate::files::{Written, file_of, trapped, with_sizes};
use crate::stop::Stop;
use flume_collection::Trap;
use flume_value::{Items, Pile, Str};
use outside::Output;
use script_loading::ReadyProgram;
use script_loading::direct_meaning::{Direct, direct};
use std::alloc::{AllocError, Global};

/// What the meaning of a program writes over the rows of its inputs.
pub fn written_meaning(
    alloc: Global,
    program: &ReadyProgram,
    inputs: Pile<Items>,
) -> Result<Written, Stop>
    requires written { HasNoSaved program.now.script }
    requires typed { AreInputs program.now.script inputs }
    ensures written { IfOk result (λ it. GivesFiles program.now.script inputs []
        (map output_file it.outputs.items) it.screen.items) }
    ensures stop { IfErr result (IsStop program.now.script inputs) }
{
    let held = program.as_program();
    let Direct { bags, sizes, traps } = direct(alloc, held, inputs)?;
    match first(traps) {
        Some(trap) => {
            drop(sizes);
            drop(bags);
            Err(trapped(alloc, held, trap)?)
        }
        None => {
            let written = write_out(alloc, program, &bags, &sizes);
            drop(sizes);
            drop(bags);
            let out = written?;
            Ok(out)
        }
    }
}

// The first of some traps, which is the least where they are a set.
fn first(mut traps: Vec<Trap>) -> Option<Trap>
    ensures { result ≡ slice_get traps.items 0 }
{
    if traps.is_empty() {
        return None;
    }
    Some(traps.swap_remove(0))
}

// The files of the outputs, and the sizes.
fn write_out(
    alloc: Global,
    program: &ReadyProgram,
    bags: &[Option<Items>],
    sizes: &[(Str, u64)],
) -> Result<Written, AllocError>
    requires bags { HaveMembers program.now.script bags.now }
    ensures files { IfOk result (λ it.
        AreFiles bags.now program.now.script.outputs (map output_file it.outputs.items)) }
    ensures text { IfOk result (λ it.
        it.screen.items ≡ [] ++ (size_lines sizes.now ++ codes "done\n")) }
{
    let outputs = output_files(alloc, program, bags)?;
    let screen = with_sizes(Vec::new(alloc), sizes)?;
    Ok(Written { outputs, screen })
}

fn output_files(
    alloc: Global,
    program: &ReadyProgram,
    bags: &[Option<Items>],
) -> Result<Vec<Output>, AllocError>
    requires bags { HaveMembers program.now.script bags.now }
    ensures { IfOk result (λ files.
        AreFiles bags.now program.now.script.outputs (map output_file files.items)) }
{
    let held = program.as_program();
    let mut files = Vec::new(alloc);
    for number in 0..held.output_count() {
        files.push(output_at(alloc, program, number, bags)?)?;
    }
    Ok(files)
}

// The file of one output.
fn output_at(
    alloc: Global,
    program: &ReadyProgram,
    number: usize,
    bags: &[Option<Items>],
) -> Result<Output, AllocError>
    requires within { number < length program.now.script.outputs }
    requires bags { HaveMembers program.now.script bags.now }
    ensures { IfOk result (λ file. (output : NamedOutput) →
        slice_get program.now.script.outputs number ≡ Some output →
        IsFileOf bags.now output (output_file file)) }
{
    let held = program.as_program();
    let Some(bag) = members_at(bags, held.output(number).reads) else {
        unreachable!();
    };
    file_of(alloc, program, number, bag.as_slice())
}

// The members under a number, where there are some.
fn members_at(bags: &[Option<Items>], number: usize) -> Option<&Items>
    ensures { option_map (λ bag. bag.now) result ≡ bag_at bags.now number }
{
    match bags.get(number) {
        Some(Some(bag)) => Some(bag),
        _ => None,
    }
}
