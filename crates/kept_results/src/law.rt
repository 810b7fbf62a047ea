// What is given to a run that reuses what was found.
ghost use Rattle.std.specs.Prelude.{◌≡◌, ℕ, List, Option, map};
ghost use Rattle.std.specs.List.{AllByRecursion};
ghost use Rattle.saved_meaning.specs.of_direct_meaning.Inputs.{AreInputs};
ghost use Rattle.flume_collection.specs.Collection.{Collection};
ghost use Rattle.flume_value.specs.declared.value.Value.{Value};
ghost use Rattle.saved_meaning.specs.Found.{lists_for};
ghost use Rattle.saved_results.specs.declared.saved.Saved.{Saved};
ghost use Rattle.saved_meaning.specs.of_script_laws.WellFormed.{IsWellFormed};
ghost use Rattle.script_program.specs.Saved.{HasNoSaved};
ghost use Rattle.script_program.specs.Script.{Script};
ghost use Rattle.kept_results.specs.Asked.{asked_nodes};
ghost use Rattle.kept_results.specs.Kept.{AreKept};
ghost use Rattle.kept_results.specs.Lists.{HasMembers, found_of, rows_for_script, later_of};

use saved_meaning::lists_law;

/// Where what was found may be kept, what is given to the script in which that is kept are lists of
/// its sources. Where a script means what was found, they are the lists that its meaning is told by
/// (`saved_law` of saved_meaning).
pub fn given_law()
    ensures inputs { (script : Script) (asked : List (ℕ × List ℕ)) (looked : List (Option Saved))
        (rows : List (List Value)) → IsWellFormed script → HasNoSaved script →
        map (λ it. it.0) asked ≡ map (λ it. it.0) (asked_nodes script) →
        AreKept script asked looked → AreInputs script rows →
        AreInputs (later_of script (found_of asked looked))
        (rows_for_script script (found_of asked looked) rows) }
    ensures meant { (script : Script) (asked : List (ℕ × List ℕ)) (looked : List (Option Saved))
        (rows : List (List Value)) (table : List (Option Collection)) →
        IsWellFormed script → HasNoSaved script →
        map (λ it. it.0) asked ≡ map (λ it. it.0) (asked_nodes script) →
        AreKept script asked looked →
        AllByRecursion (HasMembers table) (found_of asked looked) →
        rows_for_script script (found_of asked looked) rows
        ≡ lists_for script (later_of script (found_of asked looked)) rows table }
{
    lists_law();
}
