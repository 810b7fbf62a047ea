// The text of a plan beside that of a file.
ghost use Rattle.std.specs.Prelude.{◌≡◌, ◌↔◌, ◌+◌, IfOk, IsTrue, Some, length};
ghost use Rattle.plan_check.specs.Checked.{HasText, IsBehind, IsCompared};

use exec_plan::Plan;
use plan_faults::{PlanFault, PlanKind};
use plan_files::PlanFile;
use plan_json::plan_json;
use plan_writing::Names;
use std::alloc::{AllocError, Global};

/// The plan, if the file has its text.
pub(crate) fn compared<N: Names>(
    alloc: Global,
    names: &N,
    plan: Plan,
    file: &PlanFile,
) -> Result<Plan, PlanFault>
    ensures plan { IfOk result (λ p. p ≡ plan) }
    ensures compared { IsCompared (N.naming names.now) file.now plan result }
{
    if !has_text(alloc, names, &plan, file)? {
        return Err(differs(file));
    }
    Ok(plan)
}

/// Whether the file has the text of the plan.
fn has_text<N: Names>(
    alloc: Global,
    names: &N,
    plan: &Plan,
    file: &PlanFile,
) -> Result<bool, AllocError>
    ensures { IfOk result (λ b.
        IsTrue b ↔ HasText (N.naming names.now) file.now plan.now) }
{
    let text = plan_json(alloc, names, plan)?;
    Ok(has_bytes(file, text.as_slice()))
}

fn has_bytes(file: &PlanFile, text: &[u8]) -> bool
    ensures { IsTrue result ↔ (file.now.plan ≡ Some text.now) }
{
    match &file.plan {
        Some(own) => own.as_slice() == text,
        None => false,
    }
}

/// The refusal of a file that has another text.
fn differs(file: &PlanFile) -> PlanFault
    ensures { IsBehind file.now result }
{
    match number_behind(file) {
        Ok(step) => PlanFault::Refused {
            step,
            kind: PlanKind::Differs,
        },
        Err(_) => PlanFault::Memory,
    }
}

/// The number behind those of the rewrites; more than 32 bits count are more than memory holds.
fn number_behind(file: &PlanFile) -> Result<u32, AllocError>
    ensures { IfOk result (λ step. step ≡ length file.now.rewrites + 1) }
{
    let count = u32::try_from(file.rewrites.len()).map_err(|_| AllocError)?;
    count.checked_add(1).ok_or(AllocError)
}
