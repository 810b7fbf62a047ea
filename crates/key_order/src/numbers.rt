// The number of a key: the place of its variant, and behind it the first bits of what it holds.
ghost use Rattle.std.specs.Prelude.{◌≡◌, ◌<◌, ◌+◌, ◌*◌, ◌/◌, ◌^◌, FitsSigned, slice_index};
ghost use Rattle.std.specs.Int.{w64};
ghost use Rattle.std.specs.List.{AllByRecursion};
ghost use Rattle.key_order.specs.Numbers.{key_number, above_least, first_bytes, IsHeldAtTop};

use flume_value::Value;

/// How many numbers there are for one variant.
const SPAN: u64 = 1 << 61;

/// The number of a key, which is one that a program can hold.
pub fn key_number(key: &Value) -> u64
    ensures number { result ≡ key_number key.now }
    ensures held { IsHeldAtTop key.now }
{
    match key {
        Value::Int(n) => at_place(0, int_bits(n)),
        Value::Bool(_) => at_place(1, 0),
        Value::Text(text) => at_place(2, text_bits(text.as_bytes())),
        Value::List(_) => at_place(3, 0),
        Value::Rec(_) => at_place(4, 0),
        Value::Left(_) => at_place(5, 0),
        Value::Right(_) => at_place(6, 0),
        Value::Wide(_) => at_place(7, 0),
    }
}

/// These bits behind the place of a variant.
fn at_place(place: u64, bits: u64) -> u64
    requires place { place < 8 }
    requires bits { bits < 2 ^ 61 }
    ensures { result ≡ place * 2 ^ 61 + bits }
{
    place * SPAN + bits
}

/// The first 61 bits of how far an int is above the least one.
fn int_bits(n: &i64) -> u64
    ensures bits { result ≡ above_least n.now / 8 }
    ensures held { FitsSigned w64 n.now }
    ensures room { result < 2 ^ 61 }
{
    let n = *n;
    n.cast_unsigned().wrapping_add(1 << 63) / 8
}

/// The first 61 bits of a text.
fn text_bits(text: &[u8]) -> u64
    ensures bits { result ≡ first_bytes 8 text.now / 8 }
    ensures held { AllByRecursion (λ byte. byte < 256) text.now }
    ensures room { result < 2 ^ 61 }
{
    first_eight(text) / 8
}

/// The first eight bytes of a text as one number, with zeros behind its end.
pub fn first_eight(text: &[u8]) -> u64
    ensures number { result ≡ first_bytes 8 text.now }
    ensures held { AllByRecursion (λ byte. byte < 256) text.now }
{
    u64::from_be_bytes([
        byte_at(text, 0),
        byte_at(text, 1),
        byte_at(text, 2),
        byte_at(text, 3),
        byte_at(text, 4),
        byte_at(text, 5),
        byte_at(text, 6),
        byte_at(text, 7),
    ])
}

/// The byte at this place, and 0 behind the end.
fn byte_at(text: &[u8], at: usize) -> u8
    ensures { result ≡ slice_index text.now at }
{
    if at < text.len() { text[at] } else { 0 }
}
