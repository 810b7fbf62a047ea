// What the direct meaning of a script reads is there.
ghost use Rattle.std.specs.Prelude.{◌≡◌, ℕ, All, List, Option, Some, length, slice_get};
ghost use Rattle.flume_collection.specs.Collection.{Collection};
ghost use Rattle.script_program.specs.Needed.{made_of};
ghost use Rattle.script_program.specs.Script.{Script};
ghost use Rattle.script_program.specs.declared.made.Made.{Made};
ghost use Rattle.script_laws.specs.WellFormed.{IsWellFormed};
ghost use Rattle.bag_laws.specs.of_direct_meaning.Made.{AreMade};
ghost use Rattle.no_defaults.specs.Making.{HasAll, HasCells};

/// In the collections that a well-formed script means (`meaning_law` of direct_meaning) each
/// equation finds what it reads: calls answer with a list for the output that a collection is, and
/// their first output stands as many collections before it as that output has before it; groups
/// and joins are of pairs alone, and combinations of members that suit. What is taken for an object
/// is one, and what is made of the values of objects is made of one at least. What an output writes
/// of a member are cells of its columns' kinds. There is a place for each collection.
pub fn script_law()
    ensures reads { (script : Script) (made : List (Option Collection)) (number : ℕ)
        (how : Made) → IsWellFormed script → AreMade script script.nodes made →
        slice_get (made_of script) number ≡ Some how → HasAll script made number how }
    ensures cells { (script : Script) (made : List (Option Collection)) → IsWellFormed script →
        AreMade script script.nodes made →
        All (λ entry. HasCells made entry.1) script.outputs }
    ensures places { (script : Script) (made : List (Option Collection)) →
        AreMade script script.nodes made → length made ≡ length script.nodes }
{}
