// A file, as it is loaded.
ghost use Rattle.std.specs.Prelude.{◌≡◌, ◌≤◌, ◌<◌, ◌⊎◌, ◌∷◌, [], IfErr, IfOk};
ghost use Rattle.outside.specs.Asked.{Asks};
ghost use Rattle.script_loading.specs.Causes.{IsLoadCause};
ghost use Rattle.script_loading.specs.Loads.{Loads};
ghost use Rattle.script_loading.specs.inner.Reading.{status_of};

use flume_value::Str;
use outside::{LoadFault, Pieces, Source, load_tried};
use run_texts::Status;
use std::alloc::Global;

/// Loads a file; where the source fails, again, in so many tries. It is asked for no more.
pub fn loaded<R: Source>(
    alloc: Global,
    source: &mut R,
    name: &str,
    limit: u64,
    tries: u32,
) -> Result<Pieces, Status>
    requires tries { 0 < tries }
    ensures files { (R.seen source.new).files ≡ (R.seen source.old).files }
    ensures ok { IfOk result (λ bytes. Loads (R.seen source.old).files name.now limit bytes) }
    ensures err { IfErr result (IsLoadCause tries (R.seen source.old)
        (R.seen source.new) name.now limit) }
    ensures later { (R.seen source.old).faults ≤ (R.seen source.new).faults }
    ensures asked { Asks tries (name.now ∷ []) (R.seen source.old) (R.seen source.new) }
{
    match load_tried(alloc, source, name, limit, tries) {
        Ok(bytes) => Ok(bytes),
        Err(fault) => Err(refused(alloc, name, limit, fault)),
    }
}

// What a refused load is answered with.
fn refused(alloc: Global, name: &str, limit: u64, fault: LoadFault) -> Status
    ensures { (result ≡ status_of fault name.now limit) ⊎ (result ≡ Status.WantOfMemory) }
{
    let Ok(name) = Str::from_slice(alloc, name.as_bytes()) else {
        return Status::WantOfMemory;
    };
    match fault {
        LoadFault::Missing => Status::NoFile { name },
        LoadFault::Failed => Status::ReadFault { name },
        LoadFault::TooLong => Status::TooLong { name, limit },
        LoadFault::Memory => Status::WantOfMemory,
    }
}
