// The law that a well-formed script has a meaning over rows of its inputs, and laws of its objects.
ghost use Rattle.std.specs.Prelude.{◌≡◌, ℕ, true, List, [], ◌∷◌, Ok, Err, Option, Some};
ghost use Rattle.flume_value.specs.declared.fault.Kind.TheVariants as kind;
ghost use Rattle.flume_value.specs.declared.value.Value.{Value};
ghost use Rattle.combine_table.specs.declared.comb.Comb.TheVariants as by;
ghost use Rattle.flume_grammar.specs.declared.tree.Statement.{Statement};
ghost use Rattle.flume_collection.specs.Calls.{Called};
ghost use Rattle.flume_collection.specs.Collection.{Collection};
ghost use Rattle.script_laws.specs.of_script_rules.Rules.{script_of};
ghost use Rattle.script_program.specs.Script.{Script};
ghost use Rattle.script_laws.specs.WellFormed.{IsWellFormed, object_at};
ghost use Rattle.direct_meaning.specs.Direct.{made_at, meaning, size_of, traps_of};
ghost use Rattle.direct_meaning.specs.Inputs.{AreInputs};
ghost use Rattle.direct_meaning.specs.Made.{AreMade};
ghost use Rattle.direct_meaning.specs.Objects.{IsObject, combined_whole, done_beside, operated_by};
ghost use Rattle.direct_meaning.specs.Worked.{two_ints, emits, int, ints, behind_one_trap};

/// A well-formed script, as each accepted one is, has a meaning over rows of its needed inputs: a
/// collection of its type for each needed node, and none for the others.
pub fn meaning_law()
    ensures well_formed { (script : Script) (inputs : List (List Value)) →
        IsWellFormed script → AreInputs script inputs →
        (made : List (Option Collection))
        × (meaning script inputs ≡ Some made) × AreMade script script.nodes made }
    ensures accepted { (statements : List Statement) (script : Script)
        (inputs : List (List Value)) →
        script_of statements ≡ Ok script → AreInputs script inputs →
        (made : List (Option Collection))
        × (meaning script inputs ≡ Some made) × AreMade script script.nodes made }
{}

/// What is made for an object has one member, or none exactly where it has a trap. So where nothing
/// traps its size is 1.
pub fn objects_law()
    ensures object { (script : Script) (made : List (Option Collection)) (number : ℕ)
        (c : Collection) → AreMade script script.nodes made →
        object_at script.nodes number ≡ Some true → made_at made number ≡ Some c → IsObject c }
    ensures size { (script : Script) (made : List (Option Collection)) (number : ℕ)
        (c : Collection) → AreMade script script.nodes made →
        object_at script.nodes number ≡ Some true → made_at made number ≡ Some c →
        traps_of made ≡ [] → size_of c ≡ 1 }
{}

/// Objects, worked out: sums as one value, and the least of nothing, which traps.
pub fn combined_law()
    ensures sum { combined_whole 3 by.Sum (ints (1 ∷ 3 ∷ [])) ≡ ints (4 ∷ []) }
    ensures none { combined_whole 3 by.Sum (ints []) ≡ ints (0 ∷ []) }
    ensures least { combined_whole 3 by.Min (ints []) ≡ behind_one_trap kind.BadIndex (int 0) }
    ensures behind { combined_whole 3 by.Sum (behind_one_trap kind.Overflow (int 7))
        ≡ behind_one_trap kind.Overflow (int 7) }
{}

/// Calls beside an object, worked out: shares of a sum, a trap, which names the member, and none
/// beside an object that has a trap.
pub fn beside_law()
    ensures shares { (g : Value → Option Called) → g (two_ints 1 4) ≡ emits (25 ∷ []) →
        g (two_ints 3 4) ≡ emits (75 ∷ []) →
        done_beside 3 g (ints (1 ∷ 3 ∷ [])) (ints (4 ∷ [])) ≡ Some (ints (25 ∷ 75 ∷ [])) }
    ensures trap { (g : Value → Option Called) →
        g (two_ints 1 0) ≡ Some (Err (kind.DivideByZero, two_ints 1 0)) →
        done_beside 3 g (ints (1 ∷ [])) (ints (0 ∷ []))
        ≡ Some (behind_one_trap kind.DivideByZero (int 1)) }
    ensures none { (g : Value → Option Called) →
        done_beside 3 g (ints []) (ints (0 ∷ [])) ≡ Some (ints []) }
    ensures behind { (g : Value → Option Called) →
        done_beside 3 g (ints (1 ∷ [])) (behind_one_trap kind.BadIndex (int 0))
        ≡ Some (behind_one_trap kind.BadIndex (int 0)) }
{}

/// A call on objects, worked out: its one emission, or a trap that has the call's argument, which
/// is the value of one object or the record of several.
pub fn operated_law()
    ensures one { (h : Value → Option Called) → h (int 4) ≡ emits (4 ∷ []) →
        operated_by 3 h (ints (4 ∷ []) ∷ []) ≡ Some (ints (4 ∷ [])) }
    ensures not_one { (h : Value → Option Called) → h (int 1) ≡ emits [] →
        operated_by 3 h (ints (1 ∷ []) ∷ []) ≡ Some (behind_one_trap kind.NotOne (int 1)) }
    ensures two { (h : Value → Option Called) → h (int 1) ≡ emits (5 ∷ 5 ∷ []) →
        operated_by 3 h (ints (1 ∷ []) ∷ []) ≡ Some (behind_one_trap kind.NotOne (int 1)) }
    ensures several { (h : Value → Option Called) → h (two_ints 4 2) ≡ emits (6 ∷ []) →
        operated_by 3 h (ints (4 ∷ []) ∷ ints (2 ∷ []) ∷ []) ≡ Some (ints (6 ∷ [])) }
    ensures behind { (h : Value → Option Called) →
        operated_by 3 h (ints (4 ∷ []) ∷ behind_one_trap kind.BadIndex (int 0) ∷ [])
        ≡ Some (behind_one_trap kind.BadIndex (int 0)) }
{}
