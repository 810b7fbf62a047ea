// The file of a plan and of its rewrites.
ghost use Rattle.std.specs.Prelude.{◌≡◌, IfOk};
ghost use Rattle.serde_json.specs.Written.{compact_text};
ghost use Rattle.plan_file_law.specs.of_plan_files.Written.{file_json};
ghost use Rattle.plan_file_law.specs.of_plan_json.PlanJson.{plan_json_of};

use exec_plan::Plan;
use graph_rewrites::Rewrite;
use plan_file_law::plan_files::file_text;
use plan_file_law::plan_json::plan_json;
use plan_writing::Names;
use std::alloc::{AllocError, Global};

/// The file of a plan and of the rewrites that lead to it: compact JSON, one line without an end.
pub fn rewrites_json<N: Names>(
    alloc: Global,
    names: &N,
    rewrites: &[Rewrite],
    plan: &Plan,
) -> Result<Vec<u8>, AllocError>
    ensures { IfOk result (λ text. text.items
        ≡ compact_text (file_json (plan_json_of (N.naming names.now) plan.now) rewrites.now)) }
{
    let own = plan_json(alloc, names, plan)?;
    let text = file_text(alloc, own.as_slice(), rewrites)?;
    Ok(text)
}
