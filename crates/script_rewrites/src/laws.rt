// That a script's plan is a list of rewrites, and what is formed of where they lead.
ghost use Rattle.std.specs.Prelude.{◌≡◌, List, Ok, length};
ghost use Rattle.script_plans.specs.of_build_law.Limits.{AreShort};
ghost use Rattle.exec_plan.specs.declared.plan.Plan.{Plan};
ghost use Rattle.flume_grammar.specs.declared.tree.Statement.{Statement};
ghost use Rattle.graph_build.specs.Graphs.{graph_of};
ghost use Rattle.graph_rewrites.specs.declared.rewrite.Rewrite.{Rewrite};
ghost use Rattle.script_rules.specs.Rules.{script_of};
ghost use Rattle.script_plans.specs.Plans.{IsScriptPlan};
ghost use Rattle.script_program.specs.Script.{Script};
ghost use Rattle.script_rewrites.specs.Made.{IsMadeBy};

use graph_rewrites::replay_law;
use pass_rewrites::refined_law;
use script_laws::well_formed_law;
use script_plans::build_law::{graph_law, one_step_law};

/// The plan of an accepted script is formed of what a list of rewrites makes of its graph.
pub fn made_law()
    ensures { (statements : List Statement) (script : Script) (plan : Plan) →
        AreShort statements → script_of statements ≡ Ok script → IsScriptPlan script plan →
        (rs : List Rewrite) × IsMadeBy script rs plan }
{
    graph_law();
    one_step_law();
    well_formed_law();
    refined_law();
}

/// The graph of a script has a place for each of its outputs, and so has a plan that rewrites make
/// of it, as its own plan is: the texts of both, which go through outputs and places side by side,
/// leave none over.
pub fn places_law()
    ensures graph { (script : Script) →
        length (graph_of script).outputs ≡ length script.outputs }
    ensures plan { (statements : List Statement) (script : Script) (rs : List Rewrite)
        (plan : Plan) → AreShort statements → script_of statements ≡ Ok script →
        IsMadeBy script rs plan → length plan.outputs ≡ length script.outputs }
    ensures script { (statements : List Statement) (script : Script) (plan : Plan) →
        AreShort statements → script_of statements ≡ Ok script → IsScriptPlan script plan →
        length plan.outputs ≡ length script.outputs }
{
    graph_law();
    replay_law();
    made_law();
}
