// Numbers that a script writes in digits, within their limits.
ghost use Rattle.std.specs.Prelude.{◌≡◌};
ghost use Rattle.expression_check.specs.Numbers as spec;

use flume_value::Str;
use int_text::int_of_text;

/// The number that digits write, where it lies from `low` to `high`.
pub fn number_within(low: u32, high: u32, digits: &Str) -> Option<u32>
    ensures { result ≡ spec.number_within low high digits.now }
{
    let number = int_of_text(digits.as_bytes())?;
    within(low, high, number)
}

fn within(low: u32, high: u32, number: i64) -> Option<u32>
    ensures { result ≡ spec.within low high number }
{
    match u32::try_from(number) {
        Ok(number) if low <= number && number <= high => Some(number),
        _ => None,
    }
}
