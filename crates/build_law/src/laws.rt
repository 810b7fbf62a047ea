// What holds of the graph of every script.
ghost use Rattle.std.specs.Prelude.{◌≡◌, ℕ, List, Ok, Option, Some};
ghost use Rattle.flume_value.specs.declared.value.Value.{Value};
ghost use Rattle.flume_collection.specs.Collection.{Collection};
ghost use Rattle.flume_grammar.specs.Answer.{Accepts};
ghost use Rattle.flume_grammar.specs.declared.tree.Ast.{Ast};
ghost use Rattle.flume_grammar.specs.declared.tree.Statement.{Statement};
ghost use Rattle.exec_graph.specs.Typing.{IsTyped};
ghost use Rattle.exec_graph.specs.Wellformed.{IsGraphOk};
ghost use Rattle.direct_meaning.specs.of_script_rules.Rules.{script_of};
ghost use Rattle.graph_build.specs.of_script_program.Script.{Script};
ghost use Rattle.direct_meaning.specs.of_script_laws.WellFormed.{IsWellFormed};
ghost use Rattle.direct_meaning.specs.Direct.{meaning};
ghost use Rattle.graph_build.specs.Graphs.{graph_of};
ghost use Rattle.graph_laws.specs.Single.{HasNarrowSteps, IsUnfused};
ghost use Rattle.build_law.specs.Limits.{AreShort, HasShortFlattens};
ghost use Rattle.build_law.specs.Means.{IsMeaning};
ghost use Rattle.build_law.specs.Signatures.{signatures_of};
ghost use Rattle.build_law.specs.Worlds.{script_world};

/// What is read as a script is short: the grammar lets a statement put 256 collections together.
pub fn short_law()
    ensures { (bytes : List ℕ) (ast : Ast) → Accepts bytes ast → AreShort ast.statements }
{}

/// The graph of a well-formed script, as each accepted one is, is well-formed, where no statement
/// puts too many collections together.
pub fn graph_law()
    ensures well_formed { (script : Script) → IsWellFormed script → HasShortFlattens script →
        IsGraphOk (graph_of script) }
    ensures accepted { (statements : List Statement) (script : Script) →
        AreShort statements → script_of statements ≡ Ok script → IsGraphOk (graph_of script) }
{}

/// Each Pdo of a script's graph has one step, which has few outputs where the script is
/// well-formed.
pub fn one_step_law()
    ensures unfused { (script : Script) → IsUnfused (graph_of script) }
    ensures narrow { (script : Script) → IsWellFormed script →
        HasNarrowSteps (graph_of script) }
{}

/// The graph of a well-formed script means what the script means, over all lists of its sources.
pub fn means_law()
    ensures well_formed { (script : Script) (inputs : List (List Value))
        (made : List (Option Collection)) →
        IsWellFormed script → HasShortFlattens script →
        meaning script inputs ≡ Some made →
        IsMeaning (script_world script inputs) script made (graph_of script) }
    ensures accepted { (statements : List Statement) (script : Script)
        (inputs : List (List Value)) (made : List (Option Collection)) →
        AreShort statements → script_of statements ≡ Ok script →
        meaning script inputs ≡ Some made →
        IsMeaning (script_world script inputs) script made (graph_of script) }
{}

/// Types fit the graph of a well-formed script: each step takes what it is given, by the types of
/// the script's sources and functions.
pub fn types_law()
    ensures well_formed { (script : Script) → IsWellFormed script →
        IsTyped (signatures_of script) (graph_of script) }
    ensures accepted { (statements : List Statement) (script : Script) →
        AreShort statements → script_of statements ≡ Ok script →
        IsTyped (signatures_of script) (graph_of script) }
{}
