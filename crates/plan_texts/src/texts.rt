// The texts of a plan, by the names of its program.
ghost use Rattle.std.specs.Prelude.{◌≡◌, IfOk};
ghost use Rattle.serde_json.specs.Written.{compact_text};
ghost use Rattle.plan_texts.specs.Texts as spec;

use crate::names::ProgramNames;
use exec_plan::Plan;
use graph_print::script_program::Program;
use std::alloc::{AllocError, Global};

/// The text of a plan of the program.
pub fn plan_text(alloc: Global, program: &Program, plan: &Plan) -> Result<Vec<u8>, AllocError>
    ensures { IfOk result (λ text. text.items ≡ spec.plan_text_of program.now.script plan.now) }
{
    plan_writing::plan_text(alloc, &ProgramNames { program }, plan)
}

/// A plan of the program as JSON: its compact text, on one line without an end. A byte of a name
/// that is no part of UTF-8 is U+FFFD there.
pub fn plan_json(alloc: Global, program: &Program, plan: &Plan) -> Result<Vec<u8>, AllocError>
    ensures { IfOk result (λ text.
        text.items ≡ compact_text (spec.plan_json_of program.now.script plan.now)) }
{
    plan_json::plan_json(alloc, &ProgramNames { program }, plan)
}
