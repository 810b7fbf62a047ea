// The numbers of keys never contradict the order of values.
ghost use Rattle.std.specs.Prelude.{◌≡◌, ◌<◌};
ghost use Rattle.std.specs.declared.cmp.Ordering.TheVariants.{Less};
ghost use Rattle.flume_value.specs.declared.value.Value.{Value};
ghost use Rattle.flume_value.specs.Order.{value_cmp};
ghost use Rattle.key_order.specs.Numbers.{key_number, IsHeldAtTop};

/// Of two values that a program can hold the one with the lesser number is the lesser.
pub fn number_law()
    ensures monotone { (a b : Value) → IsHeldAtTop a → IsHeldAtTop b →
        key_number a < key_number b → value_cmp a b ≡ Less }
{}
