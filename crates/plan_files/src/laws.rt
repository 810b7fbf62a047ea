// That a file is of the form that it is written in.
ghost use Rattle.std.specs.Prelude.{◌≡◌, List, Some};
ghost use Rattle.std.specs.List.{AllByRecursion};
ghost use Rattle.serde_json.specs.Data.{Data};
ghost use Rattle.graph_rewrites.specs.declared.rewrite.Rewrite.{Rewrite};
ghost use Rattle.plan_files.specs.Forms.{plan_file_of, numberless_text};
ghost use Rattle.plan_files.specs.Written.{HasSmallNumbers, file_json};

/// What is written of a plan and of rewrites tells them.
pub fn form_law()
    ensures { (plan : Data) (rewrites : List Rewrite) → AllByRecursion HasSmallNumbers rewrites →
        plan_file_of (file_json plan rewrites)
        ≡ Some (record { rewrites = rewrites; plan = numberless_text plan }) }
{}
