// The walk over the inputs of a script: each is taken in as its file is loaded.
ghost use Rattle.std.specs.Prelude.{◌≡◌, ◌≢◌, ◌≤◌, ◌<◌, ◌⊎◌, ◌∷◌, [], Err, IfErr, IsUtf8, List, OnOk, Option, Some, length};
ghost use Rattle.build_law.specs.of_direct_meaning.Inputs.{Wanted, inputs_of};
ghost use Rattle.csv_rows.specs.Records.{records_of};
ghost use Rattle.csv_rows.specs.Rows.{rows_under};
ghost use Rattle.flume_types.specs.Columns.{input_columns_of};
ghost use Rattle.flume_types.specs.declared.types.Ty.{Ty};
ghost use Rattle.flume_value.specs.declared.value.Value.{Value};
ghost use Rattle.outside.specs.Asked.{Asks};
ghost use Rattle.outside.specs.declared.file.File.{File};
ghost use Rattle.script_loading.specs.Causes.{IsInputCause};
ghost use Rattle.script_loading.specs.Limits.{input_limit};
ghost use Rattle.script_loading.specs.Loads.{AllHaveRows, Loads, file_names};
ghost use Rattle.script_loading.specs.inner.Reading.{AreRead, GoesOver, StopsAt, StopsReading, fault_status, inputs_at};

use crate::files::loaded;
use crate::limits::INPUT_LIMIT;
use crate::needed::{Needed, needed_input};
use crate::ready::ReadyProgram;
use csv_rows::RowFault;
use flume_value::Str;
use outside::{Pieces, Source};
use run_texts::Status;
use std::alloc::Global;
use std::str;

/// What takes in the inputs of a script, one after the other.
pub trait Intake {
    /// These are the inputs that were taken in, where the source has these files.
    ghost are_of: { Self → Option (List File) → List Wanted → Type 0 };

    /// What has to be so where inputs are taken in.
    ghost can_take: { Type 0 };

    /// Takes in an input behind those before it, as its file was loaded.
    fn take(&mut self, alloc: Global, it: &Needed<'_>, loaded: Pieces) -> Result<(), RowFault>
        requires { can_take }
        ensures taken { OnOk result ((told : Option (List File)) (type : Ty) →
            input_columns_of type ≡ Some it.now.columns.now →
            Loads told it.now.file.now input_limit loaded →
            GoesOver (are_of self.old told) (are_of self.new told)
            (record { file = it.now.file.now; type = type } ∷ [])) }
        ensures fault { IfErr result (λ e. e ≢ RowFault.Memory →
            rows_under it.now.columns.now (records_of loaded) ≡ Err e) };

    /// All that were taken in have rows.
    ghost have_rows: { (it : Self) (told : Option (List File)) (inputs : List Wanted) →
        are_of it told inputs → (rows : List (List Value)) × AllHaveRows told inputs rows };
}

/// Loads the inputs that a script needs, in its order, each in so many tries, and has each taken in
/// before the next is loaded. No other file is asked for.
pub fn read_inputs<R: Source, I: Intake>(
    alloc: Global,
    program: &ReadyProgram,
    source: &mut R,
    tries: u32,
    inputs: &mut I,
) -> Result<(), Status>
    requires tries { 0 < tries }
    requires takes { I.can_take }
    requires none { I.are_of inputs.old (R.seen source.old).files [] }
    ensures files { (R.seen source.new).files ≡ (R.seen source.old).files }
    ensures read { OnOk result (AreRead (I.are_of inputs.new (R.seen source.old).files) tries
        (R.seen source.old) (R.seen source.new) (inputs_of program.now.script)) }
    ensures stop { IfErr result (StopsReading tries (R.seen source.old)
        (R.seen source.new) (inputs_of program.now.script)) }
    ensures later { (R.seen source.old).faults ≤ (R.seen source.new).faults }
{
    let held = program.as_program();
    for number in 0..held.node_count() {
        read_input(alloc, program, number, source, tries, inputs)?;
    }
    Ok(())
}

// Has the input that a node is taken in, where it is one that is needed.
fn read_input<R: Source, I: Intake>(
    alloc: Global,
    program: &ReadyProgram,
    number: usize,
    source: &mut R,
    tries: u32,
    inputs: &mut I,
) -> Result<(), Status>
    requires tries { 0 < tries }
    requires takes { I.can_take }
    requires within { number < length program.now.script.nodes }
    ensures files { (R.seen source.new).files ≡ (R.seen source.old).files }
    ensures taken { OnOk result (GoesOver (I.are_of inputs.old (R.seen source.old).files)
        (I.are_of inputs.new (R.seen source.old).files) (inputs_at program.now.script number)) }
    ensures err { IfErr result
        (StopsAt tries (R.seen source.old) (R.seen source.new) program.now.script number) }
    ensures later { (R.seen source.old).faults ≤ (R.seen source.new).faults }
    ensures asked { Asks tries (file_names (inputs_at program.now.script number))
        (R.seen source.old) (R.seen source.new) }
{
    match needed_input(program, number) {
        Some(it) => read_file(alloc, &it, source, tries, inputs),
        None => Ok(()),
    }
}

// Loads the file of an input, and has it taken in.
fn read_file<R: Source, I: Intake>(
    alloc: Global,
    it: &Needed<'_>,
    source: &mut R,
    tries: u32,
    inputs: &mut I,
) -> Result<(), Status>
    requires tries { 0 < tries }
    requires takes { I.can_take }
    requires named { IsUtf8 it.now.file.now }
    ensures files { (R.seen source.new).files ≡ (R.seen source.old).files }
    ensures taken { OnOk result ((type : Ty) → input_columns_of type ≡ Some it.now.columns.now →
        GoesOver (I.are_of inputs.old (R.seen source.old).files)
        (I.are_of inputs.new (R.seen source.old).files)
        (record { file = it.now.file.now; type = type } ∷ [])) }
    ensures err { IfErr result (λ status. (type : Ty) →
        input_columns_of type ≡ Some it.now.columns.now →
        IsInputCause tries (R.seen source.old) (R.seen source.new)
        (record { file = it.now.file.now; type = type }) status) }
    ensures later { (R.seen source.old).faults ≤ (R.seen source.new).faults }
    ensures asked { Asks tries (it.now.file.now ∷ []) (R.seen source.old) (R.seen source.new) }
{
    let Ok(name) = str::from_utf8(it.file.as_bytes()) else {
        unreachable!();
    };
    let loaded = loaded(alloc, source, name, INPUT_LIMIT, tries)?;
    match inputs.take(alloc, it, loaded) {
        Ok(()) => Ok(()),
        Err(fault) => Err(input_refused(alloc, name, fault)),
    }
}

// What a refused input is answered with.
fn input_refused(alloc: Global, name: &str, fault: RowFault) -> Status
    ensures { (result ≡ fault_status fault name.now) ⊎ (result ≡ Status.WantOfMemory) }
{
    let Ok(name) = Str::from_slice(alloc, name.as_bytes()) else {
        return Status::WantOfMemory;
    };
    match fault {
        RowFault::Bad { row, column, kind } => Status::InputRefused {
            name,
            row,
            column,
            kind,
        },
        RowFault::Memory => Status::WantOfMemory,
    }
}
