// The line of a made workload.
ghost use Rattle.std.specs.Prelude.{◌≡◌, ◌++◌, IfOk, OnOk, decimal};
ghost use Rattle.run_texts.specs.Texts as spec;

use itoa::Buffer;
use std::alloc::{AllocError, Global};

/// The line of a made workload: how many rows it has, how many keys, and the sum of its numbers.
pub fn made_line(alloc: Global, rows: u32, keys: usize, total: u64) -> Result<Vec<u8>, AllocError>
    ensures { IfOk result (λ line. line.items ≡ spec.made_line rows keys total) }
{
    let mut line = Vec::from_slice(alloc, b"made ")?;
    push_number(&mut line, u64::from(rows))?;
    line.extend_from_slice(b" rows, ")?;
    push_number(&mut line, keys as u64)?;
    line.extend_from_slice(b" keys, total ")?;
    push_number(&mut line, total)?;
    line.extend_from_slice(b"\n")?;
    Ok(line)
}

// Adds the digits of a number.
fn push_number(line: &mut Vec<u8>, number: u64) -> Result<(), AllocError>
    ensures { OnOk result (line.new.items ≡ line.old.items ++ decimal number) }
{
    let mut digits = Buffer::new();
    line.extend_from_slice(digits.format(number).as_bytes())
}
