// What FNV-1a makes of one byte, as its authors list it.
ghost use Rattle.std.specs.Prelude.{◌≡◌, [], ◌∷◌};
ghost use Rattle.flume_value.specs.Partitions.{fnv_1a};

/// The hash of the one byte 61 (hexadecimal), the letter a.
#[tactic(auto, unfolding(flume_value::specs::Partitions::hash_step))]
pub fn hash_of_the_letter_a()
    ensures { fnv_1a (0x61 ∷ []) ≡ 0xaf63dc4c8601ec8c }
{}
