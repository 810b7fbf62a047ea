// What a run looks for among what was kept, and what it has of that.
ghost use Rattle.std.specs.Prelude.{◌≡◌, ◌≤◌, IfOk, length};
ghost use Rattle.kept_results.specs.Keyed as spec;
ghost use Rattle.cached_course.specs.inner.Course.{GoesOn, WasLookedUp};

use crate::found::{Found, found_apart};
use crate::missing::{Missing, missing_of};
use cache_store::Cache;
use flume_value::{Pile, Str};
use kept_results::{find_each, input_numbers, keyed_nodes, nodes_needed};
use outside::File;
use saved_results::Saved;
use script_keys::Outline;
use script_program::Program;
use std::alloc::{AllocError, Global};

/// What goes on of what was looked for: what was found, and what was not; the collections that the
/// program needs, and the numbers of its inputs.
#[derive(Drop)]
pub struct LookedUp {
    pub found: Found,
    pub missing: Vec<Missing>,
    pub needed: Vec<(u32, Str)>,
    pub inputs: Vec<u32>,
}

/// Looks for each collection that an output of the program reads.
pub fn looked_for<C: Cache>(
    alloc: Global,
    program: &Program,
    outlines: &Pile<Outline>,
    texts: &Pile<Str>,
    files: &Pile<File>,
    cache: &mut C,
) -> Result<LookedUp, AllocError>
    requires { length texts.now ≡ length outlines.now }
    ensures seen { IfOk result (WasLookedUp program.now.script
        (spec.keyed_nodes outlines.now texts.now files.now program.now.script)
        (C.seen cache.old) (C.seen cache.new)) }
    ensures entries { (C.seen cache.new).entries ≡ (C.seen cache.old).entries }
    ensures later { (C.seen cache.old).faults ≤ (C.seen cache.new).faults }
{
    let keyed = keyed_by(alloc, program, outlines, texts, files)?;
    let asked = keyed.as_slice();
    let looked = find_each(alloc, program, asked, cache)?;
    let it = gone_on(alloc, program, asked, looked);
    drop(keyed);
    it
}

// The collections that are asked for, by number and key.
fn keyed_by(
    alloc: Global,
    program: &Program,
    outlines: &Pile<Outline>,
    texts: &Pile<Str>,
    files: &Pile<File>,
) -> Result<Vec<(u32, Str)>, AllocError>
    requires { length texts.now ≡ length outlines.now }
    ensures { IfOk result (λ asked. asked.items
        ≡ spec.keyed_nodes outlines.now texts.now files.now program.now.script) }
{
    let outlines = outlines.as_slice();
    let texts = texts.as_slice();
    let files = files.as_slice();
    keyed_nodes(alloc, program, outlines, texts, files)
}

// Takes apart what was found of these.
fn gone_on(
    alloc: Global,
    program: &Program,
    asked: &[(u32, Str)],
    looked: Vec<Option<Saved>>,
) -> Result<LookedUp, AllocError>
    requires { length looked.items ≡ length asked.now }
    ensures { IfOk result (GoesOn program.now.script asked.now looked.items) }
{
    let own = looked.as_slice();
    let missing = missing_of(alloc, program, asked, own)?;
    let needed = nodes_needed(alloc, program)?;
    let inputs = input_numbers(alloc, program)?;
    let found = found_apart(alloc, program, asked, looked)?;
    Ok(LookedUp {
        found,
        missing,
        needed,
        inputs,
    })
}
