// The law of kept collections.
ghost use Rattle.std.specs.Prelude.{◌≡◌, ℕ, List, [], Option, Some};
ghost use Rattle.std.specs.List.{AllByRecursion, Contains};
ghost use Rattle.flume_value.specs.declared.value.Value.{Value};
ghost use Rattle.flume_collection.specs.Collection.{Collection};
ghost use Rattle.flume_collection.specs.declared.trap.Trap.{Trap};
ghost use Rattle.script_program.specs.Saved.{HasNoSaved, with_saved};
ghost use Rattle.script_program.specs.Script.{Script};
ghost use Rattle.direct_meaning.specs.of_script_laws.WellFormed.{IsWellFormed};
ghost use Rattle.direct_meaning.specs.Direct.{meaning, traps_of};
ghost use Rattle.direct_meaning.specs.Inputs.{AreInputs};
ghost use Rattle.direct_meaning.specs.Made.{AreMade};
ghost use Rattle.saved_meaning.specs.Found.{IsKeptList, IsSame, MayBeFound, MeansSame, lists_for};

/// Rows of a script's inputs, and lists of some of its collections, are lists of the sources of the
/// script in which these are kept ones.
pub fn lists_law()
    ensures { (script : Script) (found : List ℕ) (rows : List (List Value))
        (kept : List (Option Collection)) →
        IsWellFormed script → HasNoSaved script → AreInputs script rows →
        AllByRecursion (IsKeptList script kept) found →
        AreInputs (with_saved found script)
        (lists_for script (with_saved found script) rows kept) }
{}

/// In a script in which some collections are kept ones, and the lists of these are what the script
/// means, each collection that is still needed is what it is in the script, traps and all. What is
/// found has no traps. What is given to it are lists of its sources. Where it has no traps the
/// script has none, and each of its traps is one of the script.
pub fn saved_law()
    ensures means { (script : Script) (found : List ℕ) (rows : List (List Value))
        (table : List (Option Collection)) →
        IsWellFormed script → HasNoSaved script →
        meaning script rows ≡ Some table → AreMade script script.nodes table →
        AllByRecursion (MayBeFound table) found →
        MeansSame script (with_saved found script) rows table }
    ensures inputs { (script : Script) (found : List ℕ) (rows : List (List Value))
        (table : List (Option Collection)) →
        IsWellFormed script → HasNoSaved script → AreInputs script rows →
        meaning script rows ≡ Some table → AreMade script script.nodes table →
        AllByRecursion (MayBeFound table) found →
        AreInputs (with_saved found script)
        (lists_for script (with_saved found script) rows table) }
    ensures through { (script : Script) (found : List ℕ) (rows : List (List Value))
        (table own : List (Option Collection)) →
        IsWellFormed script → HasNoSaved script →
        meaning script rows ≡ Some table → AreMade script script.nodes table →
        IsSame (with_saved found script) table own → traps_of own ≡ [] → traps_of table ≡ [] }
    ensures trapped { (script : Script) (found : List ℕ)
        (table own : List (Option Collection)) (trap : Trap) →
        IsSame (with_saved found script) table own →
        Contains (traps_of own) trap → Contains (traps_of table) trap }
{}
