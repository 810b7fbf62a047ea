// The numbers that texts spell, of one to nine digits.
ghost use Rattle.std.specs.Prelude.{◌≡◌, IfSome};
ghost use Rattle.int_text.specs.Ints.{is_numeral};
ghost use Rattle.run_settings.specs.Limits.{IsUpTo};
ghost use Rattle.drill_text.specs.Numbers as spec;

/// The most digits of a number in an entry.
const MOST_DIGITS: usize = 9;

/// The greatest number of so many digits.
pub(crate) const MOST_NUMBER: u32 = 999_999_999;

/// The number that a text spells: one to nine decimal digits, without leading zeros.
pub fn number_in(text: &str) -> Option<u32>
    ensures { result ≡ spec.number_in text.now }
{
    if is_number(text.as_bytes()) {
        text.parse::<u32>().ok()
    } else {
        None
    }
}

/// The number from 1 up to a limit that a text spells.
pub fn number_up_to(limit: u32, text: &str) -> Option<u32>
    ensures value { result ≡ spec.number_up_to limit text.now }
    ensures within { IfSome result (IsUpTo limit) }
{
    number_in(text).filter(|number| (1..=limit).contains(number))
}

// Whether a text is one to nine digits, without leading zeros.
fn is_number(text: &[u8]) -> bool
    ensures { result ≡ spec.is_number text.now }
{
    is_numeral(text) && !has_leading_zero(text) && text.len() <= MOST_DIGITS
}

// Whether a text is digits alone, at least one.
fn is_numeral(text: &[u8]) -> bool
    ensures { result ≡ is_numeral text.now }
{
    match text {
        [] => false,
        _ => text.iter().all(|byte| byte.is_ascii_digit()),
    }
}

fn has_leading_zero(text: &[u8]) -> bool
    ensures { result ≡ spec.has_leading_zero text.now }
{
    match text {
        [first, _, ..] => *first == b'0',
        _ => false,
    }
}
