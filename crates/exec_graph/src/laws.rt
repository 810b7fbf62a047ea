// Laws of graphs: what steps and barriers give, that a well-formed graph has one meaning, and
// types.
ghost use Rattle.std.specs.Prelude.{◌≡◌, ℕ, List, [], ◌∷◌, map, true};
ghost use Rattle.std.specs.List.{flat_map};
ghost use Rattle.flume_collection.specs.of_bag_groups.Combining.{combined_each, traps_of_each};
ghost use Rattle.combine_table.specs.Combinations.{combined};
ghost use Rattle.combine_table.specs.declared.comb.Comb.{Comb};
ghost use Rattle.flume_value.specs.Bag.{bag_of};
ghost use Rattle.flume_value.specs.declared.value.Value.{Value};
ghost use Rattle.flume_types.specs.declared.types.Ty.{Ty};
ghost use Rattle.flume_types.specs.Typing.{AllHave};
ghost use Rattle.flume_collection.specs.Calls.{emissions, trap_named, trap_of};
ghost use Rattle.flume_collection.specs.Collection.{Collection};
ghost use Rattle.exec_graph.specs.declared.graph.Graph.{Graph};
ghost use Rattle.exec_graph.specs.declared.graph.Place.{Place};
ghost use Rattle.exec_graph.specs.declared.step.Does.TheVariants as does;
ghost use Rattle.exec_graph.specs.Calls.{called, to_first};
ghost use Rattle.exec_graph.specs.Derived.{with_one, under_zero, left_tagged, right_tagged, split, spread};
ghost use Rattle.exec_graph.specs.Meaning.{Meets, IsSound, IsThere, SameMeaning, KeepsMeaning, collection};
ghost use Rattle.exec_graph.specs.Typing.{IsTypedBy, IsWorldTyped, Signatures};
ghost use Rattle.exec_graph.specs.Objects.{IsObject, act_result, singleton_value, operated, side_input};
ghost use Rattle.exec_graph.specs.declared.graph.Act.TheVariants.{SideInput, Operate, Singleton};
ghost use Rattle.exec_graph.specs.Wellformed.{HaveOneRow, IsGraphOk, is_object_at};
ghost use Rattle.exec_graph.specs.World.{World};

/// What a step answers: where it calls a function, what the world's function answers; where it
/// combines, the pairs of a bag that do not trap, each with its list combined, or the traps of the
/// others, each named by its key. A derived function emits to one output, and never traps.
pub fn step_law()
    ensures call { (w : World) (f : ℕ) (x : Value) → called w (does.Call f) x ≡ w.called f x }
    ensures combined { (w : World) (c : Comb) (pairs : List Value) →
        bag_of (flat_map (λ x. emissions 0 (called w (does.Combine c) x)) pairs)
        ≡ combined_each (combined c) pairs }
    ensures combined_traps { (w : World) (n : ℕ) (c : Comb) (pairs : List Value) →
        flat_map (λ x. trap_of n (called w (does.Combine c) x)) pairs
        ≡ map (trap_named n) (traps_of_each (combined c) pairs) }
    ensures pair { (w : World) (x : Value) → called w does.Pair x ≡ to_first (with_one x) }
    ensures left { (w : World) (x : Value) → called w does.TagLeft x ≡ to_first (left_tagged x) }
    ensures right { (w : World) (x : Value) → called w does.TagRight x ≡ to_first (right_tagged x) }
    ensures split { (w : World) (x : Value) → called w does.Split x ≡ to_first (split x) }
    ensures solo { (w : World) (x : Value) → called w does.Solo x ≡ to_first (under_zero x) }
    ensures spread { (w : World) (x : Value) → called w does.Spread x ≡ to_first (spread x) }
{}

/// What a barrier makes of the collections that it reads: of a side input the calls on the elements
/// of one beside an object, of an operate the call on objects, of a singleton the value of the only
/// pair.
pub fn act_law()
    ensures side_input { (w : World) (origin f : ℕ) (c object : Collection) →
        act_result w origin (SideInput f) (c ∷ object ∷ []) ≡ side_input w origin f c object }
    ensures operate { (w : World) (origin f : ℕ) (objects : List Collection) →
        act_result w origin (Operate f) objects ≡ operated w origin f objects }
    ensures singleton { (w : World) (origin : ℕ) (k : Comb) (c : Collection) →
        act_result w origin (Singleton k) (c ∷ []) ≡ singleton_value origin k c }
{}

/// In a well-formed graph an object is one value without a trap, or no value and a trap.
pub fn object_law()
    ensures { (w : World) (g : Graph) → IsGraphOk g → HaveOneRow w g.nodes → (c : Place) →
        IsThere g.nodes c → is_object_at g.nodes c ≡ true → IsObject (collection w g c) }
{}

/// A well-formed graph is sound, and a sound graph has just one meaning in each world: `collection`
/// meets the equations of all nodes, and nothing else does. So a rewrite that keeps each meaning of
/// a graph means the same.
pub fn meaning_law()
    ensures sound { (g : Graph) → IsGraphOk g → IsSound g }
    ensures some { (w : World) (g : Graph) → IsSound g → Meets w g.nodes (collection w g) }
    ensures one { (w : World) (g : Graph) (m : Place → Collection) → IsSound g →
        Meets w g.nodes m → (c : Place) → IsThere g.nodes c → m c ≡ collection w g c }
    ensures kept { (g h : Graph) → IsSound g → IsSound h → KeepsMeaning g h → SameMeaning g h }
{}

/// Where types fit a graph, and what a world's rows and functions give, each member of a collection
/// has the collection's type.
pub fn typed_law()
    ensures { (s : Signatures) (w : World) (g : Graph) (types : Place → Ty) → IsSound g →
        IsTypedBy s g types → IsWorldTyped s w → (c : Place) → IsThere g.nodes c →
        AllHave (types c) (collection w g c).bag }
{}
