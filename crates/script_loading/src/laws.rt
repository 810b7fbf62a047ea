// What holds of all scripts and inputs that are read, whatever reads them.
ghost use Rattle.std.specs.Prelude.{◌≡◌, ◌⊎◌, List, Option, ℕ};
ghost use Rattle.build_law.specs.of_direct_meaning.Inputs.{AreInputs, HaveRows, inputs_of};
ghost use Rattle.flume_grammar.specs.declared.fault.ScriptKind.{ScriptKind as Kind};
ghost use Rattle.flume_value.specs.declared.value.Value.{Value};
ghost use Rattle.outside.specs.declared.file.File.{File};
ghost use Rattle.script_program.specs.Saved.{HasNoSaved};
ghost use Rattle.script_program.specs.Script.{Script};
ghost use Rattle.script_loading.specs.Accepted.{Accepted, Refused};
ghost use Rattle.script_loading.specs.Loads.{AllHaveRows};

use csv_rows::rows_law;

/// Bytes are accepted as one script or refused for one reason, and not both: one of the two, since
/// no rule answers want of memory.
pub fn accepted_law()
    ensures either { (bytes : List ℕ) → ((script : Script) × Accepted bytes script)
        ⊎ ((line : ℕ) × (kind : Kind) × Refused bytes line kind) }
    ensures one_script { (bytes : List ℕ) (one other : Script) →
        Accepted bytes one → Accepted bytes other → one ≡ other }
    ensures not_both { (bytes : List ℕ) (script : Script) (line : ℕ) (kind : Kind) →
        Accepted bytes script → Refused bytes line kind → ⊥ }
    ensures one_reason { (bytes : List ℕ) (n m : ℕ) (j k : Kind) →
        Refused bytes n j → Refused bytes m k → (n ≡ m) × (j ≡ k) }
{}

/// The rows that the files of a script's needed inputs have are of the types of these inputs. Where
/// no collection is one that an earlier run has kept, they are all that its meaning is over.
pub fn inputs_law()
    ensures typed { (told : Option (List File)) (script : Script) (rows : List (List Value)) →
        AllHaveRows told (inputs_of script) rows → HaveRows (inputs_of script) rows }
    ensures inputs { (told : Option (List File)) (script : Script) (rows : List (List Value)) →
        HasNoSaved script → AllHaveRows told (inputs_of script) rows → AreInputs script rows }
{
    rows_law();
}
