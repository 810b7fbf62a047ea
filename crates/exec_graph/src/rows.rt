// Worked rows of objects: what the definitions of singletons, operates and side inputs come to.
ghost use Rattle.std.specs.Prelude.{◌≡◌, ℕ, pos, [], ◌∷◌, Ok};
ghost use Rattle.flume_value.specs.declared.value.Value.{Value};
ghost use Rattle.flume_value.specs.declared.value.Value.TheVariants as value;
ghost use Rattle.flume_value.specs.declared.fault.Kind.TheVariants as kind;
ghost use Rattle.flume_collection.specs.of_bag_groups.Pairs.{pair};
ghost use Rattle.combine_table.specs.declared.comb.Comb.TheVariants as by;
ghost use Rattle.exec_graph.specs.World.{World};
ghost use Rattle.exec_graph.specs.Objects.{operated, side_input, singleton_value, trap_object, untrapped, value_object};

/// A singleton is the value of the one pair, and of no pair what the combiner makes of nothing: a
/// value, or a trap.
pub fn singleton_rows_law()
    ensures sum { let four = value.Int (pos 4) in
        singleton_value 2 by.Sum (untrapped (pair (value.Int (pos 0)) four ∷ []))
        ≡ value_object four }
    ensures sum_of_none { singleton_value 2 by.Sum (untrapped [])
        ≡ value_object (value.Int (pos 0)) }
    ensures least_of_none { singleton_value 2 by.Min (untrapped [])
        ≡ trap_object
        (record { origin = 2; element = value.Int (pos 0); kind = kind.BadIndex }) }
{}

/// An operate calls its function on the value of the one object, or on the record of the values of
/// several. What it emits is the value of an object; where it emits nothing, it traps.
pub fn operate_rows_law()
    ensures one { (w : World) (f : ℕ) (x y : Value) → w.called f x ≡ Ok ((y ∷ []) ∷ []) →
        operated w 3 f (value_object x ∷ []) ≡ value_object y }
    ensures not_one { (w : World) (f : ℕ) (x : Value) → w.called f x ≡ Ok ([] ∷ []) →
        operated w 3 f (value_object x ∷ [])
        ≡ trap_object (record { origin = 3; element = x; kind = kind.NotOne }) }
    ensures two { (w : World) (f : ℕ) (x y z : Value) →
        w.called f (value.Rec (x ∷ y ∷ [])) ≡ Ok ((z ∷ []) ∷ []) →
        operated w 3 f (value_object x ∷ value_object y ∷ []) ≡ value_object z }
{}

/// A side input calls its function on the record of each element and the object's value. Of an
/// object that traps nothing is called, and the trap is behind what it gives.
pub fn side_input_rows_law()
    ensures value { (w : World) (f : ℕ) (x v y : Value) →
        w.called f (value.Rec (x ∷ v ∷ [])) ≡ Ok ((y ∷ []) ∷ []) →
        side_input w 4 f (untrapped (x ∷ [])) (value_object v) ≡ untrapped (y ∷ []) }
    ensures trap { (w : World) (f : ℕ) (x y : Value) →
        let object = trap_object (record { origin = 2; element = y; kind = kind.BadIndex }) in
        side_input w 4 f (untrapped (x ∷ [])) object ≡ object }
{}
