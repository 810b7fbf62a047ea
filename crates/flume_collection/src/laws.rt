// Laws of sets of traps, of the least trap, and of calls on collections put together.
ghost use Rattle.std.specs.Prelude.{◌≡◌, ◌↔◌, ◌++◌, ◌∷◌, [], ℕ, List, map};
ghost use Rattle.std.specs.List.{Contains};
ghost use Rattle.std.specs.List.Sorted.{IsStrictlySortedBy};
ghost use Rattle.flume_value.specs.declared.value.Value.{Value};
ghost use Rattle.flume_collection.specs.Calls.{Called, passed};
ghost use Rattle.flume_collection.specs.Collection.{Collection, together};
ghost use Rattle.flume_collection.specs.declared.trap.Trap.{Trap};
ghost use Rattle.flume_collection.specs.Traps.{IsLeast, trap_cmp, trap_set};

/// The set of some traps has their members, each once, ascending, and no other list has: two lists
/// with the same members have one set. Traps that are there already add nothing.
pub fn trap_law()
    ensures members { (traps : List Trap) (trap : Trap) →
        Contains (trap_set traps) trap ↔ Contains traps trap }
    ensures ascending { (traps : List Trap) → IsStrictlySortedBy trap_cmp (trap_set traps) }
    ensures same { (xs ys : List Trap) →
        (trap_set xs ≡ trap_set ys) ↔ ((trap : Trap) → Contains xs trap ↔ Contains ys trap) }
    ensures settled { (traps : List Trap) → IsStrictlySortedBy trap_cmp traps →
        trap_set traps ≡ traps }
    ensures sum { (xs ys : List Trap) → trap_set (xs ++ trap_set ys) ≡ trap_set (xs ++ ys) }
    ensures known { (xs ys : List Trap) → ((trap : Trap) → Contains ys trap → Contains xs trap) →
        trap_set (xs ++ ys) ≡ trap_set xs }
    ensures none { trap_set [] ≡ [] }
    ensures empty { (traps : List Trap) → trap_set traps ≡ [] → traps ≡ [] }
{}

/// Of some traps just one is the least: the first of their set.
pub fn least_law()
    ensures first { (traps others : List Trap) (trap : Trap) →
        trap_set traps ≡ trap ∷ others → IsLeast traps trap }
    ensures one { (traps : List Trap) (least other : Trap) →
        IsLeast traps least → IsLeast traps other → least ≡ other }
    ensures some { (trap : Trap) (traps : List Trap) →
        (least : Trap) × IsLeast (trap ∷ traps) least }
{}

/// Calls on the members of collections together give what they give on each, together.
pub fn passed_law()
    ensures { (origin at : ℕ) (f : Value → Called) (cs : List Collection) →
        passed origin at f (together cs) ≡ together (map (passed origin at f) cs) }
{}
