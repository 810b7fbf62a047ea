// The script, as it is loaded, parsed and checked.
ghost use Rattle.std.specs.Prelude.{◌≡◌, ◌≤◌, ◌<◌, ◌∷◌, [], IfErr, IfOk};
ghost use Rattle.outside.specs.Asked.{Asks};
ghost use Rattle.script_program.specs.Saved.{HasNoSaved};
ghost use Rattle.script_loading.specs.Accepted.{Accepted};
ghost use Rattle.script_loading.specs.Causes.{IsLoaded, IsScriptCause};
ghost use Rattle.script_loading.specs.inner.Reading.{IsScriptFault};

use crate::files::loaded;
use crate::limits::SCRIPT_LIMIT;
use crate::ready::ReadyProgram;
use flume_grammar::ScriptFault;
use flume_syntax::parse;
use outside::{Pieces, Source};
use run_texts::Status;
use script_check::check;
use std::alloc::Global;

/// Loads and checks the script of that name, in so many tries. No other file is asked for.
pub fn script_of<R: Source>(
    alloc: Global,
    name: &str,
    source: &mut R,
    tries: u32,
) -> Result<ReadyProgram, Status>
    requires tries { 0 < tries }
    ensures files { (R.seen source.new).files ≡ (R.seen source.old).files }
    ensures ok { IfOk result (λ program.
        IsLoaded (R.seen source.old).files name.now program.script) }
    ensures written { IfOk result (λ program. HasNoSaved program.script) }
    ensures err { IfErr result (IsScriptCause tries (R.seen source.old)
        (R.seen source.new) name.now) }
    ensures later { (R.seen source.old).faults ≤ (R.seen source.new).faults }
    ensures asked { Asks tries (name.now ∷ []) (R.seen source.old) (R.seen source.new) }
{
    let file = loaded(alloc, source, name, SCRIPT_LIMIT, tries)?;
    match program_in(alloc, file) {
        Ok(program) => Ok(program),
        Err(ScriptFault::Refused { line, kind }) => Err(Status::ScriptRefused { line, kind }),
        Err(ScriptFault::Memory) => Err(Status::WantOfMemory),
    }
}

// The program of a script, as it was loaded.
fn program_in(alloc: Global, file: Pieces) -> Result<ReadyProgram, ScriptFault>
    ensures accepted { IfOk result (λ program. Accepted file program.script) }
    ensures refused { IfErr result (IsScriptFault file) }
    ensures written { IfOk result (λ program. HasNoSaved program.script) }
{
    match file.into_vec(alloc) {
        Ok(bytes) => program_of(alloc, &bytes),
        Err(_) => Err(ScriptFault::Memory),
    }
}

// The program of the bytes of a script.
fn program_of(alloc: Global, bytes: &[u8]) -> Result<ReadyProgram, ScriptFault>
    ensures accepted { IfOk result (λ program. Accepted bytes.now program.script) }
    ensures refused { IfErr result (IsScriptFault bytes.now) }
    ensures written { IfOk result (λ program. HasNoSaved program.script) }
{
    let ast = parse(alloc, bytes)?;
    let program = check(alloc, ast)?;
    Ok(ReadyProgram::new(program))
}
