// Whether a plan is well-formed: its parts in order.
ghost use Rattle.std.specs.Prelude.{◌≡◌, ◌↔◌, IsTrue};
ghost use Rattle.exec_plan.specs.Wellformed.{IsPlanOk};
ghost use Rattle.plan_checks.specs.inner.Tests.{plan_test};

use crate::objects::are_objects_ok;
use crate::stages::{are_made, are_stages_ok};
use exec_plan::Plan;

/// Whether the plan is well-formed. It takes no memory.
pub fn plan_ok(plan: &Plan) -> bool
    ensures { IsTrue result ↔ IsPlanOk plan.now }
{
    passes(plan)
}

fn passes(plan: &Plan) -> bool
    ensures { result ≡ plan_test plan.now }
{
    let stages = plan.stages.as_slice();
    are_stages_ok(plan.sources, stages)
        && are_made(plan.sources, stages, plan.outputs.as_slice())
        && stages.len() < 4294967296
        && are_objects_ok(plan.objects.as_slice(), stages)
}
