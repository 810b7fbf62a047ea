// The file of a plan, by the names of its program.
ghost use Rattle.std.specs.Prelude.{◌≡◌, IfOk};
ghost use Rattle.outer_plans.specs.Plans.{file_text_of};

use exec_plan::Plan;
use graph_rewrites::Rewrite;
use plan_texts::ProgramNames;
use plan_texts::script_program::Program;
use std::alloc::{AllocError, Global};

/// The file of a plan of the program, with rewrites that lead to it: its compact JSON, on one line
/// without an end.
pub fn rewrites_json(
    alloc: Global,
    program: &Program,
    rewrites: &[Rewrite],
    plan: &Plan,
) -> Result<Vec<u8>, AllocError>
    ensures { IfOk result (λ text.
        text.items ≡ file_text_of program.now.script rewrites.now plan.now) }
{
    plan_tracing::rewrites_json(alloc, &ProgramNames { program }, rewrites, plan)
}
