// What holds of every accepted script, and of the collections that it needs.
ghost use Rattle.std.specs.Prelude.{◌≡◌, ◌↔◌, ℕ, IsTrue, List, Ok};
ghost use Rattle.flume_grammar.specs.declared.tree.Statement.{Statement};
ghost use Rattle.script_rules.specs.of_script_program.Script.{Script};
ghost use Rattle.script_rules.specs.Rules.{script_of};
ghost use Rattle.script_rules.specs.of_script_program.Needed.{IsNeeded, is_needed};
ghost use Rattle.script_rules.specs.of_script_program.Saved.{HasNoSaved};
ghost use Rattle.script_laws.specs.WellFormed.{IsWellFormed};

/// Each script that is accepted is well formed, and has nothing that an earlier run has kept.
pub fn well_formed_law()
    ensures well_formed { (statements : List Statement) (script : Script)
        → script_of statements ≡ Ok script → IsWellFormed script }
    ensures unsaved { (statements : List Statement) (script : Script)
        → script_of statements ≡ Ok script → HasNoSaved script }
{}

/// The needed collections of a well-formed script, as they are computed from the last one to the
/// first, are those from which a path of reads leads to an output.
pub fn needed_law()
    ensures { (script : Script) → IsWellFormed script →
        (number : ℕ) → IsTrue (is_needed script number) ↔ IsNeeded script number }
{}
