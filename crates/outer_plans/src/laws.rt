// That the line of a plan with its rewrites is taken.
ghost use Rattle.std.specs.Prelude.{◌++◌, List, codes};
ghost use Rattle.std.specs.List.{AllByRecursion};
ghost use Rattle.exec_plan.specs.declared.plan.Plan.{Plan};
ghost use Rattle.graph_rewrites.specs.declared.rewrite.Rewrite.{Rewrite};
ghost use Rattle.plan_tracing.specs.of_plan_files.Written.{HasSmallNumbers};
ghost use Rattle.plan_texts.specs.of_script_program.Script.{Script};
ghost use Rattle.outer_plans.specs.Plans.{IsTaken, LeadTo, file_text_of};

/// The file of a plan and of rewrites that lead to it from the script's graph, as a line with its
/// line feed, is taken as a plan of the script: as that very plan.
pub fn line_law()
    ensures { (script : Script) (rewrites : List Rewrite) (plan : Plan) →
        AllByRecursion HasSmallNumbers rewrites → LeadTo script rewrites plan →
        IsTaken script (file_text_of script rewrites plan ++ codes "\n") plan }
{}
