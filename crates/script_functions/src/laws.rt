// The law that the world of a well-formed script is typed.
ghost use Rattle.std.specs.Prelude.{List};
ghost use Rattle.flume_value.specs.declared.value.Value.{Value};
ghost use Rattle.exec_graph.specs.Typing.{IsWorldTyped};
ghost use Rattle.build_law.specs.of_script_program.Script.{Script};
ghost use Rattle.build_law.specs.of_script_laws.WellFormed.{IsWellFormed};
ghost use Rattle.build_law.specs.of_direct_meaning.Inputs.{AreInputs};
ghost use Rattle.build_law.specs.Signatures.{signatures_of};
ghost use Rattle.build_law.specs.Worlds.{script_world};

/// The world of a well-formed script, over lists of its needed sources, is typed by the script's
/// signatures.
pub fn world_law()
    ensures { (script : Script) (inputs : List (List Value)) →
        IsWellFormed script → AreInputs script inputs →
        IsWorldTyped (signatures_of script) (script_world script inputs) }
{}
