// That a file of a plan is read back.
ghost use Rattle.std.specs.Prelude.{◌++◌, List, codes};
ghost use Rattle.std.specs.List.{AllByRecursion};
ghost use Rattle.exec_plan.specs.declared.plan.Plan.{Plan};
ghost use Rattle.graph_rewrites.specs.declared.rewrite.Rewrite.{Rewrite};
ghost use Rattle.plan_files.specs.Reads.{IsFile};
ghost use Rattle.plan_files.specs.Written.{HasSmallNumbers};
ghost use Rattle.plan_writing.specs.Naming.{Naming};
ghost use Rattle.plan_file_law.specs.Files.{plan_file_text, told_by};

/// The text of a file of a plan and of rewrites is a file that has just these rewrites, and the
/// plan's own text; and so it is as a line.
pub fn file_law()
    ensures text { (names : Naming) (plan : Plan) (rewrites : List Rewrite) →
        AllByRecursion HasSmallNumbers rewrites →
        IsFile (plan_file_text names plan rewrites) (told_by names plan rewrites) }
    ensures line { (names : Naming) (plan : Plan) (rewrites : List Rewrite) →
        AllByRecursion HasSmallNumbers rewrites →
        IsFile (plan_file_text names plan rewrites ++ codes "\n") (told_by names plan rewrites) }
{}
