// The bytes of a key.
ghost use Rattle.std.specs.Prelude.{◌≡◌, ◌++◌, unwrap_or, [], IfOk, OnOk, length, MatchOption, None, Some};
ghost use Rattle.outside.specs.Files.{bytes_of};
ghost use Rattle.script_keys.specs.Keys as spec;

use crate::parts::KeyPart;
use flume_value::Str;
use outside::File;
use std::alloc::{AllocError, Global};

/// The key of the collection of a name, which is made of these parts, where these are the files.
/// One that is not among them counts as empty.
pub fn key_of(
    alloc: Global,
    parts: &[KeyPart],
    files: &[File],
    name: &Str,
) -> Result<Vec<u8>, AllocError>
    ensures { IfOk result (λ key. key.items ≡ spec.collection_key files.now parts.now name.now) }
{
    let mut key = Vec::from_slice(alloc, b"FLUME1")?;
    for part in parts {
        push_part(&mut key, part, files)?;
    }
    push_piece(&mut key, name.as_bytes())?;
    Ok(key)
}

fn push_part(key: &mut Vec<u8>, part: &KeyPart, files: &[File]) -> Result<(), AllocError>
    ensures { OnOk result (key.new.items
        ≡ key.old.items ++ spec.part_bytes files.now part.now) }
{
    match part {
        KeyPart::Text(text) => push_piece(key, text.as_bytes()),
        KeyPart::File(name) => push_piece(key, file_bytes(files, name)),
    }
}

// The bytes of the first file of that name, or none.
fn file_bytes<'a>(files: &'a [File], name: &Str) -> &'a [u8]
    ensures { result.now ≡ unwrap_or (bytes_of files.now name.now) [] }
{
    for file in files {
        if file.name.is(name.as_bytes()) {
            return file.bytes.as_bytes();
        }
    }
    &[]
}

// A piece: its length in eight bytes, and its bytes.
#[tactic(auto, unfolding(flume_value::specs::Canonical::length_bytes))]
fn push_piece(key: &mut Vec<u8>, bytes: &[u8]) -> Result<(), AllocError>
    ensures { OnOk result (key.new.items ≡ key.old.items ++ spec.piece bytes.now) }
{
    key.extend_from_slice(&bytes.len().to_be_bytes())?;
    key.extend_from_slice(bytes)
}
