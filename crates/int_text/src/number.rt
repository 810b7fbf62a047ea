// The number that digits write, read from the left.
ghost use Rattle.std.specs.Prelude.{◌≡◌};
ghost use Rattle.int_text.specs.inner.Numbers.{short_number};

/// The least number that one more digit takes to 10 ^ 19 or beyond.
const FULL: u64 = 1_000_000_000_000_000_000;

/// The number that one digit or more write, if it is below 10 ^ 19. None for all else.
#[tactic(auto, unfolding(crate::specs::Ints::number_on))]
pub(crate) fn number_of_digits(digits: &[u8]) -> Option<u64>
    ensures { result ≡ short_number digits.now }
{
    if digits.is_empty() {
        return None;
    }
    let mut number: u64 = 0;
    for digit in digits {
        if !digit.is_ascii_digit() || number >= FULL {
            return None;
        }
        number = number * 10 + u64::from(*digit - b'0');
    }
    Some(number)
}
