// The rows of a script's inputs, and the files that have them.
ghost use Rattle.std.specs.Prelude.{◌≡◌, ◌≢◌, ◌≤◌, ◌<◌, Err, IfErr, IfOk, Ok, OnOk, ⊤};
ghost use Rattle.csv_rows.specs.Records.{records_of};
ghost use Rattle.csv_rows.specs.Rows.{rows_under};
ghost use Rattle.script_loading.specs.of_direct_meaning.Inputs.{AreInputs, inputs_of};
ghost use Rattle.outside.specs.Asked.{Asks};
ghost use Rattle.script_loading.specs.Asks.{AsksToStop};
ghost use Rattle.script_loading.specs.Causes.{IsInputsCause};
ghost use Rattle.script_loading.specs.Loads.{AllHaveRows, file_names};
ghost use Rattle.script_program.specs.Saved.{HasNoSaved};
ghost use Rattle.keyed_loading.specs.Files.{AreFilesOf};

use csv_rows::{RowFault, rows_under_columns};
use flume_value::{Items, Pile, Str};
use outside::{File, Pieces, Source};
use run_texts::Status;
use script_loading::{Intake, Needed, ReadyProgram, inputs_law, read_inputs};
use std::alloc::Global;

/// The rows of each input that a script needs, in its order, and their files.
#[derive(Drop)]
pub struct KeyedInputs {
    pub rows: Pile<Items>,
    pub files: Pile<File>,
}

impl Intake for KeyedInputs {
    ghost are_of = { λ it told inputs.
        AllHaveRows told inputs it.rows × AreFilesOf told inputs it.files };

    ghost can_take = { ⊤ };

    fn take(&mut self, alloc: Global, it: &Needed<'_>, loaded: Pieces) -> Result<(), RowFault> {
        let own = decoded(alloc, it, loaded)?;
        self.rows.push(own.0)?;
        self.files.push(own.1)?;
        Ok(())
    }

    ghost have_rows = { λ it told inputs are. (it.rows, are.0) };
}

/// Loads and decodes the inputs that a script needs, in its order, each in so many tries. No other
/// file is asked for.
pub fn keyed_inputs<R: Source>(
    alloc: Global,
    program: &ReadyProgram,
    source: &mut R,
    tries: u32,
) -> Result<KeyedInputs, Status>
    requires tries { 0 < tries }
    requires written { HasNoSaved program.now.script }
    ensures files { (R.seen source.new).files ≡ (R.seen source.old).files }
    ensures ok { IfOk result (λ it.
        AllHaveRows (R.seen source.old).files (inputs_of program.now.script) it.rows) }
    ensures loaded { IfOk result (λ it.
        AreFilesOf (R.seen source.old).files (inputs_of program.now.script) it.files) }
    ensures typed { IfOk result (λ it. AreInputs program.now.script it.rows) }
    ensures err { IfErr result (IsInputsCause tries (R.seen source.old)
        (R.seen source.new) (inputs_of program.now.script)) }
    ensures later { (R.seen source.old).faults ≤ (R.seen source.new).faults }
    ensures asked { OnOk result (Asks tries (file_names (inputs_of program.now.script))
        (R.seen source.old) (R.seen source.new)) }
    ensures asked_until { IfErr result (AsksToStop tries (file_names (inputs_of program.now.script))
        (R.seen source.old) (R.seen source.new)) }
{
    inputs_law();
    let rows = Pile::new(alloc);
    let files = Pile::new(alloc);
    let mut inputs = KeyedInputs { rows, files };
    read_inputs(alloc, program, source, tries, &mut inputs)?;
    Ok(inputs)
}

// The rows of a file that was loaded, and the file itself.
fn decoded(alloc: Global, it: &Needed<'_>, loaded: Pieces) -> Result<(Items, File), RowFault>
    ensures rows { IfOk result (λ own.
        rows_under it.now.columns.now (records_of loaded) ≡ Ok own.0) }
    ensures name { IfOk result (λ own. own.1.name ≡ it.now.file.now) }
    ensures bytes { IfOk result (λ own. own.1.bytes ≡ loaded) }
    ensures fault { IfErr result (λ e. e ≢ RowFault.Memory →
        rows_under it.now.columns.now (records_of loaded) ≡ Err e) }
{
    let bytes = loaded.into_vec(alloc)?;
    let rows = rows_under_columns(alloc, &bytes, it.columns)?;
    let file = File {
        name: it.file.copy(alloc)?,
        bytes: Str::from_vec(bytes)?,
    };
    Ok((rows, file))
}
