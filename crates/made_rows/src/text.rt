// The file of a made input, and the sum of its numbers.
ghost use Rattle.std.specs.Prelude.{◌≡◌, ◌≤◌, ◌++◌, IfOk, OnOk};
ghost use Rattle.made_rows.specs.Rows.{number_line, made_numbers, made_text, most_made, total_of_numbers};

use itoa::Buffer;
use std::alloc::{AllocError, Global};

/// The text of a made input.
pub fn text_made(alloc: Global, start: u32, rows: u32) -> Result<Vec<u8>, AllocError>
    requires start { start ≤ most_made }
    requires rows { rows ≤ most_made }
    ensures { IfOk result (λ text. text.items ≡ made_text start rows) }
{
    let mut text = Vec::from_slice(alloc, b"k,v\n")?;
    for turn in 0..rows {
        push_line(&mut text, start + turn + 1)?;
    }
    Ok(text)
}

// Adds the line of a number.
fn push_line(text: &mut Vec<u8>, number: u32) -> Result<(), AllocError>
    ensures { OnOk result (text.new.items ≡ text.old.items ++ number_line number) }
{
    let mut key_digits = Buffer::new();
    let mut digits = Buffer::new();
    let key = key_digits.format(number % 10).as_bytes();
    let value = digits.format(number).as_bytes();
    text.extend_from_slice(key)?;
    text.extend_from_slice(b",")?;
    text.extend_from_slice(value)?;
    text.extend_from_slice(b"\n")
}

/// The sum of the numbers of a made input.
pub fn made_total(start: u32, rows: u32) -> u64
    requires start { start ≤ most_made }
    requires rows { rows ≤ most_made }
    ensures { result ≡ total_of_numbers (made_numbers start rows) }
{
    let mut total = 0;
    for turn in 0..rows {
        total += u64::from(start + turn + 1);
    }
    total
}
