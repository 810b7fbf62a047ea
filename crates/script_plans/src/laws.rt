// That the passes take the graph of a script, and that it has one plan.
ghost use Rattle.std.specs.Prelude.{◌≡◌, List, Ok};
ghost use Rattle.build_law.specs.Limits.{AreShort};
ghost use Rattle.exec_graph.specs.Wellformed.{IsGraphOk};
ghost use Rattle.exec_graph.specs.declared.graph.Graph.{Graph};
ghost use Rattle.exec_plan.specs.declared.plan.Plan.{Plan};
ghost use Rattle.flume_grammar.specs.declared.tree.Statement.{Statement};
ghost use Rattle.build_law.specs.of_graph_build.Graphs.{graph_of};
ghost use Rattle.build_law.specs.of_script_laws.WellFormed.{IsWellFormed};
ghost use Rattle.build_law.specs.of_script_rules.Rules.{script_of};
ghost use Rattle.optimise.specs.Optimised.{CanOptimise};
ghost use Rattle.script_plans.specs.Plans.{IsScriptPlan};
ghost use Rattle.build_law.specs.of_script_program.Script.{Script};

use build_law::script_laws::well_formed_law;
use build_law::{graph_law, one_step_law};
use optimise::one_law;

/// All passes take the execution graph of a well-formed script.
pub fn passes_law()
    ensures { (script : Script) (graph : Graph) → IsWellFormed script →
        graph ≡ graph_of script → IsGraphOk graph → CanOptimise graph }
{
    one_step_law();
}

/// An accepted script has a plan, and just one, so there is 'the plan' of a script. What is read as
/// a script is short (`short_law` of build_law).
pub fn plan_law()
    ensures some { (statements : List Statement) (script : Script) → AreShort statements →
        script_of statements ≡ Ok script → (plan : Plan) × IsScriptPlan script plan }
    ensures one { (statements : List Statement) (script : Script) (p q : Plan) →
        AreShort statements → script_of statements ≡ Ok script →
        IsScriptPlan script p → IsScriptPlan script q → p ≡ q }
{
    graph_law();
    one_step_law();
    well_formed_law();
    one_law();
}
