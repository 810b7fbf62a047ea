// Files of plans, read.
ghost use Rattle.std.specs.Prelude.{◌≡◌, IfOk};
ghost use Rattle.serde_json.specs.Errors.{IsMemory};
ghost use Rattle.serde_json.specs.View.{view};
ghost use Rattle.plan_files.specs.Forms as spec;
ghost use Rattle.plan_files.specs.Reads.{Parses, IsReadAs};

use crate::file::{FileFault, PlanFile};
use crate::plan_text::text_in;
use crate::rewrites::{rewrites_in, two_in};
use serde_json::{Error, Value};
use std::alloc::{AllocError, Global};

/// What the bytes of a file of a plan have. Bytes are no JSON exactly where `serde_json` refuses
/// them, and JSON is of another form exactly where it tells no file (`file_of`).
pub fn read_file(alloc: Global, bytes: &[u8]) -> Result<PlanFile, FileFault>
    ensures { IsReadAs bytes.now result }
{
    let value = parsed(alloc, bytes)?;
    formed(alloc, &value)
}

/// The value that bytes are as JSON.
fn parsed(alloc: Global, bytes: &[u8]) -> Result<Value, FileFault>
    ensures { Parses bytes.now result }
{
    match Value::from_slice(alloc, bytes) {
        Ok(value) => Ok(value),
        Err(error) => Err(fault_of(&error)),
    }
}

fn fault_of(error: &Error) -> FileFault
    ensures memory { IsMemory error.now → result ≡ FileFault.Memory }
    ensures text { (IsMemory error.now → ⊥) → result ≡ FileFault.NotJson }
{
    if error.is_memory() {
        FileFault::Memory
    } else {
        FileFault::NotJson
    }
}

/// The file that a value tells.
fn formed(alloc: Global, value: &Value) -> Result<PlanFile, FileFault>
    ensures { spec.Tells (view value.now) result }
{
    match file_in(alloc, value)? {
        Some(file) => Ok(file),
        None => Err(FileFault::Shape),
    }
}

/// The file that a value tells, if it tells one.
fn file_in(alloc: Global, value: &Value) -> Result<Option<PlanFile>, AllocError>
    ensures { IfOk result (λ found. found ≡ spec.plan_file_of (view value.now)) }
{
    match two_in(value, "plan", "rewrites") {
        Some((plan, rewrites)) => file_from(alloc, plan, rewrites),
        None => Ok(None),
    }
}

fn file_from(alloc: Global, plan: &Value, rewrites: &Value) -> Result<Option<PlanFile>, AllocError>
    ensures { IfOk result (λ found. found ≡ spec.file_from (view plan.now, view rewrites.now)) }
{
    match rewrites_in(alloc, rewrites)? {
        Some(rewrites) => {
            let plan = text_in(alloc, plan)?;
            Ok(Some(PlanFile { rewrites, plan }))
        }
        None => Ok(None),
    }
}
