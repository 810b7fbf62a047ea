// The rows of a script's inputs, as their files are loaded and decoded.
ghost use Rattle.std.specs.Prelude.{◌≡◌, ◌≤◌, ◌<◌, IfErr, IfOk, OnOk};
ghost use Rattle.std.specs.Thread.{IsSync};
ghost use Rattle.build_law.specs.of_direct_meaning.Inputs.{AreInputs, inputs_of};
ghost use Rattle.outside.specs.Asked.{Asks};
ghost use Rattle.script_program.specs.Saved.{HasNoSaved};
ghost use Rattle.script_loading.specs.Asks.{AsksToStop};
ghost use Rattle.script_loading.specs.Causes.{IsInputsCause};
ghost use Rattle.script_loading.specs.Loads.{AllHaveRows, file_names};

use crate::laws::inputs_law;
use crate::needed::Needed;
use crate::reading::{Intake, read_inputs};
use crate::ready::ReadyProgram;
use csv_rows::{RowFault, rows_by_threads};
use flume_value::{Items, Pile};
use outside::{Pieces, Source};
use run_texts::Status;
use std::alloc::Global;
use std::thread::Threads;

// The rows of inputs, each decoded by up to so many threads.
#[derive(Drop)]
struct DecodedRows<'a, X> {
    rt: &'a X,
    threads: usize,
    rows: Pile<Items>,
}

impl<'a, X: Threads + Sync> Intake for DecodedRows<'a, X> {
    ghost are_of = { λ it told inputs. AllHaveRows told inputs it.rows };

    ghost can_take = { IsSync X.row };

    fn take(&mut self, alloc: Global, it: &Needed<'_>, loaded: Pieces) -> Result<(), RowFault> {
        let own = rows_by_threads(self.rt, alloc, self.threads, loaded, it.columns)?;
        self.rows.push(own)?;
        Ok(())
    }

    ghost have_rows = { λ it told inputs are. (it.rows, are) };
}

/// Loads the inputs that a script needs, in its order, each in so many tries, and decodes them by
/// up to so many threads. No other file is asked for. None of its collections is one that an
/// earlier run has kept.
pub fn rows_of_inputs<X: Threads + Sync, R: Source>(
    rt: &X,
    alloc: Global,
    program: &ReadyProgram,
    source: &mut R,
    tries: u32,
    threads: usize,
) -> Result<Pile<Items>, Status>
    requires tries { 0 < tries }
    requires written { HasNoSaved program.now.script }
    ensures files { (R.seen source.new).files ≡ (R.seen source.old).files }
    ensures ok { IfOk result
        (AllHaveRows (R.seen source.old).files (inputs_of program.now.script)) }
    ensures typed { IfOk result (AreInputs program.now.script) }
    ensures err { IfErr result (IsInputsCause tries (R.seen source.old)
        (R.seen source.new) (inputs_of program.now.script)) }
    ensures later { (R.seen source.old).faults ≤ (R.seen source.new).faults }
    ensures asked { OnOk result (Asks tries (file_names (inputs_of program.now.script))
        (R.seen source.old) (R.seen source.new)) }
    ensures asked_until { IfErr result (AsksToStop tries (file_names (inputs_of program.now.script))
        (R.seen source.old) (R.seen source.new)) }
{
    inputs_law();
    let rows = Pile::new(alloc);
    let mut inputs = DecodedRows { rt, threads, rows };
    read_inputs(alloc, program, source, tries, &mut inputs)?;
    let DecodedRows {
        rt: _,
        threads: _,
        rows,
    } = inputs;
    Ok(rows)
}
