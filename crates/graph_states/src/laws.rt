// A graph is a state under names.
ghost use Rattle.std.specs.Prelude.{◌≡◌, ◌<◌, ℕ, true, Some};
ghost use Rattle.exec_graph.specs.Forests.{Forest};
ghost use Rattle.exec_graph.specs.Meaning.{IsSound, has_out, node_at, place};
ghost use Rattle.exec_graph.specs.Wellformed.{IsGraphOk};
ghost use Rattle.exec_graph.specs.declared.graph.Graph.{Graph};
ghost use Rattle.exec_graph.specs.declared.graph.Node.TheVariants.{Pdo};
ghost use Rattle.exec_graph.specs.declared.graph.Place.{Place};
ghost use Rattle.fuse_chain.specs.Rewrites.{IsKid, IsSibling};
ghost use Rattle.graph_laws.specs.Joining.{beside, grafted};
ghost use Rattle.graph_laws.specs.Kids.{kept_by, number_after};
ghost use Rattle.graph_rewrites.specs.Rewrites.{CanBeKid, CanBeSibling, after_kid, after_sibling, kid_under};
ghost use Rattle.graph_names.specs.Names.{named, unnamed};
ghost use Rattle.graph_states.specs.States.{Stands, all_but, still_read, taken_in};

/// A well-formed graph under names, numbered and told again, is the graph; and each name is of one
/// node, and is read.
pub fn named_law()
    ensures same { (g : Graph) → IsGraphOk g → unnamed (named g) ≡ g }
    ensures stands { (g : Graph) → IsGraphOk g → Stands (named g) }
{}

/// Where two Pdos read one collection of a graph under names, a sibling is one forest behind the
/// other: no name changes, and nothing is read elsewhere.
pub fn sibling_law()
    ensures sibling { (h : Graph) (p q : ℕ) (c : Place) (f i : Forest) → Stands h →
        IsSound (unnamed h) → p < q → node_at h.nodes p ≡ Some (Pdo c f) →
        node_at h.nodes q ≡ Some (Pdo c i) →
        IsSibling (unnamed h) p q (unnamed (taken_in h p q c (beside f i))) }
    ensures stands { (h : Graph) (p q : ℕ) (c : Place) (f i : Forest) → Stands h → p < q →
        node_at h.nodes p ≡ Some (Pdo c f) → node_at h.nodes q ≡ Some (Pdo c i) →
        Stands (taken_in h p q c (beside f i)) }
{}

/// Where a Pdo reads the output n of a graph under names, and p has it, the kid is its forest on
/// that output, without the name if nothing else reads it; the rewrite tells the output by its
/// number among those of p.
pub fn kid_law()
    ensures kid { (h : Graph) (p q n : ℕ) (c : Place) (f i : Forest) → Stands h →
        IsSound (unnamed h) → node_at h.nodes p ≡ Some (Pdo c f) →
        node_at h.nodes q ≡ Some (Pdo (place n 0) i) → has_out n f ≡ true →
        IsKid (unnamed h) p (number_after 0 f n) q
        (unnamed (taken_in h p q c (kept_by (still_read h p q c) (grafted n i f)))) }
    ensures stands { (h : Graph) (p q n : ℕ) (c : Place) (f i : Forest) → Stands h →
        IsSound (unnamed h) → node_at h.nodes p ≡ Some (Pdo c f) →
        node_at h.nodes q ≡ Some (Pdo (place n 0) i) → has_out n f ≡ true →
        Stands (taken_in h p q c (kept_by (still_read h p q c) (grafted n i f))) }
{}

/// Under names a sibling and a kid of graph_rewrites may be made, and are made where they stand.
/// The kid's output alone may be read no more.
pub fn join_law()
    ensures sibling { (h : Graph) (p q : ℕ) (c : Place) (f i : Forest) → Stands h →
        IsSound (unnamed h) → p < q → node_at h.nodes p ≡ Some (Pdo c f) →
        node_at h.nodes q ≡ Some (Pdo c i) → CanBeSibling (unnamed h) p q
        × (after_sibling (unnamed h) p q ≡ unnamed (taken_in h p q c (beside f i))) }
    ensures kid { (h : Graph) (p q n : ℕ) (c : Place) (f i : Forest) → Stands h →
        IsSound (unnamed h) → p < q → node_at h.nodes p ≡ Some (Pdo c f) →
        node_at h.nodes q ≡ Some (Pdo (place n 0) i) → has_out n f ≡ true →
        CanBeKid (unnamed h) p (number_after 0 f n) q
        × (after_kid (unnamed h) p (number_after 0 f n) q ≡ unnamed (taken_in h p q c
        (kept_by (all_but n (still_read h p q c n)) (grafted n i f)))) }
{}

/// A sibling and a kid of fuse_chain are those of graph_rewrites, and may be made.
pub fn made_law()
    ensures sibling { (g h : Graph) (p q : ℕ) → IsSibling g p q h →
        CanBeSibling g p q × (after_sibling g p q ≡ h) }
    ensures kid { (g h : Graph) (p k q : ℕ) → IsKid g p k q h →
        CanBeKid g p k q × (kid_under g p k q ≡ h) }
{}
