// The content of a text between quotes, its escapes replaced.
ghost use Rattle.std.specs.Prelude.{◌≡◌, ◌<◌, ◌≤◌, length, drop, false, IfOk, IfSome};
ghost use Rattle.flume_tokens.specs.Texts as spec;

use flume_value::Str;
use std::alloc::{AllocError, Global};

/// The content of a text whose opening quote is read, and how many bytes are taken with its closing
/// quote; None where it is not closed on its line.
pub fn closed_text(alloc: Global, bytes: &[u8]) -> Result<Option<(Str, usize)>, AllocError>
    ensures value { IfOk result (λ t. t ≡ spec.closed_text false bytes.now) }
    ensures within { IfOk result (λ t. IfSome t (λ p. p.1 ≤ length bytes.now)) }
{
    let mut content = Vec::new(alloc);
    let mut after_backslash = false;
    for (i, b) in bytes.iter().enumerate() {
        if after_backslash {
            let Some(byte) = escaped(*b) else {
                return Ok(None);
            };
            content.push(byte)?;
            after_backslash = false;
        } else if *b == b'"' {
            return Ok(Some((Str::from_vec(content)?, i + 1)));
        } else if *b == b'\n' {
            return Ok(None);
        } else if *b == b'\\' {
            after_backslash = true;
        } else {
            content.push(*b)?;
        }
    }
    Ok(None)
}

/// The byte that stands for a backslash and this byte.
fn escaped(b: u8) -> Option<u8>
    ensures { result ≡ spec.byte_escaped b }
{
    match b {
        b'n' => Some(b'\n'),
        b't' => Some(b'\t'),
        b'\\' => Some(b'\\'),
        b'"' => Some(b'"'),
        _ => None,
    }
}
