// Texts that are made of pieces, and names in quotes, in a buffer.
ghost use Rattle.std.specs.Prelude.{◌≡◌, ◌++◌, IfOk, OnOk};
ghost use Rattle.std.specs.List.{flat_map};
ghost use Rattle.printing.specs.Printed.{printed_byte, quoted};

use crate::escape::escape_of;
use std::alloc::{AllocError, Global};

/// The pieces of a text, one after the other.
pub fn joined(alloc: Global, pieces: &[&[u8]]) -> Result<Vec<u8>, AllocError>
    ensures { IfOk result (λ text. text.items ≡ flat_map (λ piece. piece.now) pieces.now) }
{
    let mut text = Vec::new(alloc);
    for piece in pieces {
        text.extend_from_slice(piece)?;
    }
    Ok(text)
}

fn push_escaped(text: &mut Vec<u8>, byte: u8) -> Result<(), AllocError>
    ensures { OnOk result (text.new.items ≡ text.old.items ++ printed_byte byte) }
{
    match escape_of(byte) {
        Some(escape) => text.extend_from_slice(escape),
        None => {
            text.push(byte)?;
            Ok(())
        }
    }
}

/// Adds a name in quotes to a text.
pub fn push_quoted(text: &mut Vec<u8>, name: &[u8]) -> Result<(), AllocError>
    ensures { OnOk result (text.new.items ≡ text.old.items ++ quoted name.now) }
{
    text.push(b'"')?;
    for byte in name {
        push_escaped(text, *byte)?;
    }
    text.push(b'"')?;
    Ok(())
}
