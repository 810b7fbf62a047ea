// What a rewrite, and a list of them, keeps of a graph that has a meaning.
ghost use Rattle.std.specs.Prelude.{◌≡◌, ℕ, List};
ghost use Rattle.exec_graph.specs.Meaning.{IsSound, SameMeaning};
ghost use Rattle.exec_graph.specs.Typing.{KeepsTypes};
ghost use Rattle.exec_graph.specs.Wellformed.{IsGraphOk};
ghost use Rattle.exec_graph.specs.declared.graph.Blocked.{Blocked};
ghost use Rattle.exec_graph.specs.declared.graph.Graph.{Graph};
ghost use Rattle.graph_rewrites.specs.Replays.{Leads};
ghost use Rattle.graph_rewrites.specs.Rewrites.{CanApply, rewritten};
ghost use Rattle.graph_rewrites.specs.declared.rewrite.Rewrite.{Rewrite};
ghost use Rattle.sound_rewrites.specs.Making.{CanMake, MadeBy};

/// A rewrite that may be made of a sound graph leaves it sound, its meaning the same, and its
/// types, whatever its size. Of a well-formed graph a rewrite may be made where it may be within
/// the limits.
pub fn sound_law()
    ensures sound { (g : Graph) (r : Rewrite) → IsSound g → CanMake g r →
        IsSound (rewritten g r) }
    ensures same { (g : Graph) (r : Rewrite) → IsSound g → CanMake g r →
        SameMeaning g (rewritten g r) }
    ensures types { (g : Graph) (r : Rewrite) → IsSound g → CanMake g r →
        KeepsTypes g (rewritten g r) }
    ensures within { (b : Blocked) (r : Rewrite) → IsGraphOk b.graph → CanApply b r →
        CanMake b.graph r }
{}

/// What rewrites make of a sound graph one after another, in whatever order, is sound, means the
/// same and keeps types. Lists that lead somewhere within the limits are such.
pub fn list_law()
    ensures sound { (rs : List Rewrite) (g h : Graph) → IsSound g → MadeBy rs g h → IsSound h }
    ensures same { (rs : List Rewrite) (g h : Graph) → IsSound g → MadeBy rs g h →
        SameMeaning g h }
    ensures types { (rs : List Rewrite) (g h : Graph) → IsSound g → MadeBy rs g h →
        KeepsTypes g h }
    ensures one { (rs : List Rewrite) (g h i : Graph) → MadeBy rs g h → MadeBy rs g i → h ≡ i }
    ensures within { (group : ℕ) (rs : List Rewrite) (a b : Blocked) → IsGraphOk a.graph →
        Leads group rs a b → MadeBy rs a.graph b.graph }
{}
