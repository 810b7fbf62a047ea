// The keys of the collections that are asked for.
ghost use Rattle.std.specs.Prelude.{◌≡◌, IfOk, length, map};
ghost use Rattle.kept_results.specs.Keyed as spec;

use crate::asked::asked_nodes;
use flume_value::Str;
use outside::File;
use script_keys::{Outline, key_of, key_parts};
use script_program::Program;
use std::alloc::{AllocError, Global};

/// The numbers of the collections that outputs read, in order, and the key of each, where the
/// statements of the script are that to keys and have these texts, over these files.
pub fn keyed_nodes(
    alloc: Global,
    program: &Program,
    outlines: &[Outline],
    texts: &[Str],
    files: &[File],
) -> Result<Vec<(u32, Str)>, AllocError>
    requires { length texts.now ≡ length outlines.now }
    ensures { IfOk result (λ keyed. keyed.items
        ≡ spec.keyed_nodes outlines.now texts.now files.now program.now.script) }
{
    let asked = asked_nodes(alloc, program)?;
    keys_of(alloc, asked.as_slice(), outlines, texts, files)
}

fn keys_of(
    alloc: Global,
    asked: &[(u32, Str)],
    outlines: &[Outline],
    texts: &[Str],
    files: &[File],
) -> Result<Vec<(u32, Str)>, AllocError>
    requires { length texts.now ≡ length outlines.now }
    ensures { IfOk result (λ keyed. keyed.items
        ≡ map (λ it. (it.0, spec.key_at outlines.now texts.now files.now it.1)) asked.now) }
{
    let mut keyed = Vec::new(alloc);
    for (number, name) in asked {
        keyed.push((*number, key_at(alloc, outlines, texts, files, name)?))?;
    }
    Ok(keyed)
}

// The key of the collection of a name.
fn key_at(
    alloc: Global,
    outlines: &[Outline],
    texts: &[Str],
    files: &[File],
    name: &Str,
) -> Result<Str, AllocError>
    requires { length texts.now ≡ length outlines.now }
    ensures { IfOk result (λ key. key
        ≡ spec.key_at outlines.now texts.now files.now name.now) }
{
    let parts = key_parts(alloc, outlines, texts, name)?;
    Str::from_vec(key_of(alloc, parts.as_slice(), files, name)?)
}
