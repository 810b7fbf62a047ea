// What holds of the counts, the joins and the greatest members of all bags.
ghost use Rattle.std.specs.Prelude.{◌≡◌, ℕ, List};
ghost use Rattle.std.specs.List.Sorted.{IsSorted};
ghost use Rattle.flume_value.specs.declared.value.Value.{Value};
ghost use Rattle.flume_value.specs.Order.{value_cmp};
ghost use Rattle.flume_value.specs.Bag.{bag_of};
ghost use Rattle.flume_types.specs.declared.types.Ty.{Ty};
ghost use Rattle.flume_types.specs.declared.types.Ty.TheVariants as ty;
ghost use Rattle.flume_types.specs.Tables.{table_of};
ghost use Rattle.flume_types.specs.Typing.{AllHave};
ghost use Rattle.keyed_steps.specs.of_combine_table.Combinations.{greatest};
ghost use Rattle.bag_steps.specs.Counts.{counted, counted_traps};
ghost use Rattle.bag_steps.specs.Joins.{joined};
ghost use Rattle.bag_steps.specs.Sides.{sides_of};

/// Counts and joins depend on nothing but the bags.
pub fn bags_law()
    ensures counted { (bag : List Value) → counted (bag_of bag) ≡ counted bag }
    ensures traps { (bag : List Value) → counted_traps (bag_of bag) ≡ counted_traps bag }
    ensures joined { (left right : List Value) →
        joined (bag_of left) (bag_of right) ≡ joined left right }
{}

/// Counts, joins and the greatest members of a bag stand in ascending order.
pub fn ascending_law()
    ensures counted { (bag : List Value) → IsSorted value_cmp (counted bag) }
    ensures joined { (left right : List Value) → IsSorted value_cmp (joined left right) }
    ensures greatest { (n : ℕ) (bag : List Value) →
        IsSorted value_cmp (greatest n (bag_of bag)) }
{}

/// The counts of a bag are a table of ints, the join of two tables is a table of both sides, and
/// the greatest members have the type of all.
pub fn types_law()
    ensures counted { (type : Ty) (bag : List Value) → AllHave type bag →
        AllHave (table_of type ty.Int) (counted bag) }
    ensures joined { (key left_value right_value : Ty) (left right : List Value) →
        AllHave (table_of key left_value) left → AllHave (table_of key right_value) right →
        AllHave (table_of key (sides_of left_value right_value)) (joined left right) }
    ensures greatest { (n : ℕ) (type : Ty) (bag : List Value) → AllHave type bag →
        AllHave type (greatest n (bag_of bag)) }
{}
