// The int that a text shows.
ghost use Rattle.std.specs.Prelude.{◌≡◌};
ghost use Rattle.int_text.specs.Ints.{int_below as shown_below, int_from as shown_from};
ghost use Rattle.int_text.specs.Ints.{int_of_text as int_shown};

use crate::number::number_of_digits;

/// The int that a text shows: an optional `-` and one or more decimal digits, of a value that 64
/// bits hold. None for all else, and for what is not UTF-8.
pub fn int_of_text(text: &[u8]) -> Option<i64>
    ensures { result ≡ int_shown text.now }
{
    match text.first() {
        Some(b'-') => int_below(&text[1..]),
        Some(_) => int_from(text),
        None => None,
    }
}

/// The int that digits write, if 64 bits hold it.
fn int_from(digits: &[u8]) -> Option<i64>
    ensures { result ≡ shown_from digits.now }
{
    let number = number_of_digits(digits)?;
    0i64.checked_add_unsigned(number)
}

/// The int that digits behind a `-` write, if 64 bits hold it.
fn int_below(digits: &[u8]) -> Option<i64>
    ensures { result ≡ shown_below digits.now }
{
    let number = number_of_digits(digits)?;
    0i64.checked_sub_unsigned(number)
}
