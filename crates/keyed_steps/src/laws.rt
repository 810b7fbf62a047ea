// What the types of tables and groups say: members are pairs, and lists suit the combiner.
ghost use Rattle.std.specs.Prelude.{All, List};
ghost use Rattle.flume_value.specs.declared.value.Value.{Value};
ghost use Rattle.flume_types.specs.declared.types.Ty.{Ty};
ghost use Rattle.flume_types.specs.declared.types.Ty.TheVariants as ty;
ghost use Rattle.flume_types.specs.Tables.{table_of};
ghost use Rattle.bag_groups.specs.Pairs.{IsPair};
ghost use Rattle.bag_groups.specs.Groups.{grouped};
ghost use Rattle.combine_table.specs.declared.comb.Comb.{Comb};
ghost use Rattle.keyed_steps.specs.Keyed.{IsGroup};
ghost use Rattle.flume_types.specs.Typing.{AllHave};
ghost use Rattle.keyed_steps.specs.Types.{TakesType};

/// The members of a table are pairs, and its groups a table of lists; the combiner takes those
/// where it takes the type of their members.
pub fn tables_law()
    ensures pairs { (key value : Ty) (pairs : List Value) →
        AllHave (table_of key value) pairs → All IsPair pairs }
    ensures groups { (key value : Ty) (pairs : List Value) →
        AllHave (table_of key value) pairs →
        AllHave (table_of key (ty.List value)) (grouped pairs) }
    ensures suited { (comb : Comb) (key value : Ty) (groups : List Value) →
        TakesType comb value → AllHave (table_of key (ty.List value)) groups →
        All (IsGroup comb) groups }
{}
