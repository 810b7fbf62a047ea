// That the lists of collections are those of bags and of sets.
ghost use Rattle.std.specs.Prelude.{◌≡◌, ℕ, List, Option, Some};
ghost use Rattle.flume_value.specs.Bag.{bag_of};
ghost use Rattle.combine_table.specs.Combinations.{greatest};
ghost use Rattle.flume_collection.specs.Collection.{Collection, unless_trapped};
ghost use Rattle.exec_graph.specs.Meaning.{collection};
ghost use Rattle.exec_graph.specs.World.{World};
ghost use Rattle.exec_graph.specs.declared.graph.Graph.{Graph};
ghost use Rattle.exec_graph.specs.declared.graph.Place.{Place};
ghost use Rattle.direct_meaning.specs.Direct.{made_at, top_by};
ghost use Rattle.direct_meaning.specs.Made.{AreMade};
ghost use Rattle.script_program.specs.Script.{Node, Script};
ghost use Rattle.written_types.specs.Named.{Named};
ghost use Rattle.bag_laws.specs.Lists.{IsOfSortedLists};

/// The list of each collection that a script means ascends, and that of its traps is a set; and so
/// it is with whatever a graph means. So the greatest of a collection's list are those of its bag.
pub fn lists_law()
    ensures script { (script : Script) (nodes : Named Node) (made : List (Option Collection))
        (number : ℕ) (c : Collection) → AreMade script nodes made →
        made_at made number ≡ Some c → IsOfSortedLists c }
    ensures graph { (w : World) (g : Graph) (c : Place) → IsOfSortedLists (collection w g c) }
    ensures greatest { (many : ℕ) (c : Collection) → IsOfSortedLists c →
        (top_by many c).bag ≡ unless_trapped c.traps (greatest many (bag_of c.bag)) }
{}
