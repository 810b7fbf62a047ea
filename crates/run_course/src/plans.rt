// The plan that a run carries out, with its text: the script's own, or that of a file.
ghost use Rattle.std.specs.Prelude.{◌≡◌, ◌≤◌, ◌<◌, ◌∷◌, [], IfErr, IfOk, Some};
ghost use Rattle.outside.specs.Asked.{Asks};
ghost use Rattle.script_run.specs.Runs.{IsPlanOf};
ghost use Rattle.run_course.specs.Asks.{plan_file};
ghost use Rattle.run_course.specs.Plans.{IsFileCause, IsPlanFor};
ghost use Rattle.run_course.specs.Written.{text_shown};
ghost use Rattle.run_course.specs.inner.Course.{IsPlanStop};

use crate::showing::{ShownPlan, plan_shown, taken_shown};
use outside::{FileName, Source};
use run_texts::Status;
use script_loading::{ReadyProgram, plan_bytes};
use std::alloc::Global;

/// The plan that a run carries out, and its text: that of the file of this name, which is loaded in
/// so many tries, or where none is named the script's own.
pub fn plan_for<R: Source>(
    alloc: Global,
    program: &ReadyProgram,
    from: &Option<FileName>,
    source: &mut R,
    tries: u32,
) -> Result<ShownPlan, Status>
    requires tries { 0 < tries }
    ensures plan { IfOk result (λ it.
        IsPlanFor (R.seen source.old).files program.now.script from.now it.plan) }
    ensures of_script { IfOk result (λ it. IsPlanOf program.now.script it.plan) }
    ensures text { IfOk result (λ it. it.text.items ≡ text_shown program.now.script it.plan) }
    ensures stop { IfErr result (IsPlanStop tries (R.seen source.old)
        (R.seen source.new) program.now.script from.now) }
    ensures asked { Asks tries (plan_file from.now) (R.seen source.old) (R.seen source.new) }
    ensures files { (R.seen source.new).files ≡ (R.seen source.old).files }
    ensures later { (R.seen source.old).faults ≤ (R.seen source.new).faults }
{
    match from {
        Some(name) => plan_in_file(alloc, program, name.as_str(), source, tries),
        None => Ok(plan_shown(alloc, program)?),
    }
}

// The plan of a file, and its text.
fn plan_in_file<R: Source>(
    alloc: Global,
    program: &ReadyProgram,
    name: &str,
    source: &mut R,
    tries: u32,
) -> Result<ShownPlan, Status>
    requires tries { 0 < tries }
    ensures plan { IfOk result (λ it.
        IsPlanFor (R.seen source.old).files program.now.script (Some name.now) it.plan) }
    ensures of_script { IfOk result (λ it. IsPlanOf program.now.script it.plan) }
    ensures text { IfOk result (λ it. it.text.items ≡ text_shown program.now.script it.plan) }
    ensures stop { IfErr result (IsFileCause tries (R.seen source.old)
        (R.seen source.new) program.now.script name.now) }
    ensures asked { Asks tries (name.now ∷ []) (R.seen source.old) (R.seen source.new) }
    ensures files { (R.seen source.new).files ≡ (R.seen source.old).files }
    ensures later { (R.seen source.old).faults ≤ (R.seen source.new).faults }
{
    let bytes = plan_bytes(alloc, name, source, tries)?;
    let shown = taken_shown(alloc, program, bytes.as_slice());
    drop(bytes);
    shown
}
