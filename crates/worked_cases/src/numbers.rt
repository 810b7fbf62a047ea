// Words, numbers and bytes, as they are written in a line.
ghost use Rattle.std.specs.Prelude.{◌<◌, IfSome};

use crate::mistakes::{Mistake, Unread};
use std::alloc::{AllocError, Global};
use std::str;

/// What stands between these bytes, and before the first and behind the last of them.
pub fn parts(alloc: Global, text: &[u8], at: u8) -> Result<Vec<&[u8]>, AllocError> {
    text.split(|b| *b == at).collect(alloc)
}

/// What stands before the first of these bytes, and what behind it, where there is one.
pub fn cut(text: &[u8], at: u8) -> Option<(&[u8], &[u8])> {
    let place = text.iter().position(|b| *b == at)?;
    let (front, back) = text.split_at(place);
    let (_, rest) = back.split_first()?;
    Some((front, rest))
}

/// The first word, and what stands behind it and the blanks there.
pub fn first_word(text: &[u8]) -> (&[u8], &[u8]) {
    match cut(text, b' ') {
        Some((word, rest)) => (word, rest.trim_ascii()),
        None => (text, &[]),
    }
}

/// The number that is written so.
pub fn number_of(text: &[u8]) -> Result<u32, Mistake> {
    let Ok(text) = str::from_utf8(text) else {
        return Err(Mistake::Number);
    };
    match text.parse::<u32>() {
        Ok(number) => Ok(number),
        Err(_) => Err(Mistake::Number),
    }
}

/// The text of these bytes, in which `%` and two hexadecimal digits are a byte.
pub fn unescaped(alloc: Global, text: &[u8]) -> Result<String, Unread> {
    let mut bytes = Vec::new(alloc);
    push_unescaped(alloc, &mut bytes, text)?;
    match String::from_utf8(bytes) {
        Ok(text) => Ok(text),
        Err(_) => Err(Unread::Wrong(Mistake::Utf8)),
    }
}

/// The bytes of a text in which `%` and two hexadecimal digits are a byte.
pub fn push_unescaped(alloc: Global, bytes: &mut Vec<u8>, text: &[u8]) -> Result<(), Unread> {
    let parts = parts(alloc, text, b'%')?;
    let Some((front, escaped)) = parts.split_first() else {
        return Ok(());
    };
    bytes.extend_from_slice(front)?;
    push_each(bytes, escaped)
}

// Each of these is the two digits of a byte, and what stands behind them.
fn push_each(bytes: &mut Vec<u8>, parts: &[&[u8]]) -> Result<(), Unread> {
    for part in parts {
        let [high, low, rest @ ..] = *part else {
            return Err(Unread::Wrong(Mistake::Escape));
        };
        let Some(byte) = byte_of(*high, *low) else {
            return Err(Unread::Wrong(Mistake::Escape));
        };
        bytes.push(byte)?;
        bytes.extend_from_slice(rest)?;
    }
    Ok(())
}

// The byte of two hexadecimal digits.
fn byte_of(high: u8, low: u8) -> Option<u8> {
    let high = digit(high)?;
    let low = digit(low)?;
    Some(high * 16 + low)
}

// The value of a hexadecimal digit.
fn digit(byte: u8) -> Option<u8>
    ensures { IfSome result (λ value. value < 16) }
{
    match byte {
        b'0'..=b'9' => Some(byte - b'0'),
        b'A'..=b'F' => Some(byte - b'A' + 10),
        _ => None,
    }
}
