// The file of a plan from outside, as it is loaded.
ghost use Rattle.std.specs.Prelude.{◌≡◌, ◌≤◌, ◌<◌, ◌∷◌, [], IfErr, IfOk};
ghost use Rattle.outside.specs.Asked.{Asks};
ghost use Rattle.script_loading.specs.Causes.{IsLoadCause};
ghost use Rattle.script_loading.specs.Limits.{plan_limit};
ghost use Rattle.script_loading.specs.Loads.{Loads};

use crate::files::loaded;
use crate::limits::PLAN_LIMIT;
use outside::Source;
use run_texts::Status;
use std::alloc::Global;

/// Loads the file of a plan, in so many tries. No other file is asked for.
pub fn plan_bytes<R: Source>(
    alloc: Global,
    name: &str,
    source: &mut R,
    tries: u32,
) -> Result<Vec<u8>, Status>
    requires tries { 0 < tries }
    ensures files { (R.seen source.new).files ≡ (R.seen source.old).files }
    ensures ok { IfOk result (λ bytes.
        Loads (R.seen source.old).files name.now plan_limit bytes.items) }
    ensures err { IfErr result (IsLoadCause tries (R.seen source.old)
        (R.seen source.new) name.now plan_limit) }
    ensures later { (R.seen source.old).faults ≤ (R.seen source.new).faults }
    ensures asked { Asks tries (name.now ∷ []) (R.seen source.old) (R.seen source.new) }
{
    let file = loaded(alloc, source, name, PLAN_LIMIT, tries)?;
    match file.into_vec(alloc) {
        Ok(bytes) => Ok(bytes),
        Err(_) => Err(Status::WantOfMemory),
    }
}
