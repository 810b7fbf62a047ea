// What the key of a collection is made of.
ghost use Rattle.std.specs.Prelude.{◌≡◌, ◌++◌, [], length, if◌then◌else◌, IfOk, OnOk};
ghost use Rattle.script_keys.specs.Keys as spec;

use crate::outline::Outline;
use crate::rests::belonging;
use flume_value::{Pile, Str};
use std::alloc::{AllocError, Global};

/// A part of a key: the text of a statement, or the file of an input, whose bytes are meant.
#[derive(Drop)]
pub enum KeyPart {
    Text(Str),
    File(Str),
}

/// What the key of the collection of a name is made of, where the statements of the script have
/// these outlines and these texts.
pub fn key_parts(
    alloc: Global,
    outlines: &[Outline],
    texts: &[Str],
    name: &Str,
) -> Result<Pile<KeyPart>, AllocError>
    requires { length texts.now ≡ length outlines.now }
    ensures { IfOk result (λ parts. parts
        ≡ spec.key_parts_from name.now outlines.now texts.now) }
{
    let flags = belonging(alloc, outlines, name)?;
    let mut parts = Vec::new(alloc);
    for k in 0..outlines.len() {
        push_marked(alloc, flags[k], &outlines[k], &texts[k], &mut parts)?;
    }
    Ok(Pile::from_vec(parts))
}

// The parts that a statement gives to a key, if it belongs to it.
fn push_marked(
    alloc: Global,
    flag: bool,
    outline: &Outline,
    text: &Str,
    parts: &mut Vec<KeyPart>,
) -> Result<(), AllocError>
    ensures { OnOk result (parts.new.items
        ≡ parts.old.items ++ (if flag then spec.key_parts_of outline.now text.now else [])) }
{
    if flag {
        push_parts(alloc, outline, text, parts)
    } else {
        Ok(())
    }
}

// The parts that a statement gives to a key to which it belongs.
fn push_parts(
    alloc: Global,
    outline: &Outline,
    text: &Str,
    parts: &mut Vec<KeyPart>,
) -> Result<(), AllocError>
    ensures { OnOk result (parts.new.items
        ≡ parts.old.items ++ spec.key_parts_of outline.now text.now) }
{
    parts.push(KeyPart::Text(text.copy(alloc)?))?;
    if let Outline::Input { file, .. } = outline {
        parts.push(KeyPart::File(file.copy(alloc)?))?;
    }
    Ok(())
}
