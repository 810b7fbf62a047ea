// The names of what a collection rests on.
ghost use Rattle.std.specs.Prelude.{◌≡◌, ◌<◌, ◌^◌, ◌++◌, ◌∷◌, [], ℕ, All, IfOk, List, OnOk, Some, if◌then◌else◌, length, slice_get};
ghost use Rattle.script_program.specs.Rested.{rested_names as names_of};
ghost use Rattle.script_program.specs.Script.{Node};
ghost use Rattle.kept_results.specs.inner.Named as spec;

use flume_value::{Pile, Str};
use saved_results::Size;
use script_program::Program;
use std::alloc::{AllocError, Global};

/// The names of the collections that the one of a number rests on, in order of the script.
pub(crate) fn rested_names(
    alloc: Global,
    program: &Program,
    asked: usize,
) -> Result<Pile<Str>, AllocError>
    ensures { IfOk result (λ names. names ≡ names_of program.now.script asked) }
{
    let flags = program.rested_on(alloc, asked)?;
    let mut names = Pile::new(alloc);
    for number in 0..program.node_count() {
        push_rested(alloc, program, number, flags[number], &mut names)?;
    }
    Ok(names)
}

// Adds the name of a collection, where it is one of those.
fn push_rested(
    alloc: Global,
    program: &Program,
    number: usize,
    is_rested: bool,
    names: &mut Pile<Str>,
) -> Result<(), AllocError>
    requires { number < length program.now.script.nodes }
    ensures { OnOk result ((entry : List ℕ × Node) →
        slice_get program.now.script.nodes number ≡ Some entry →
        names.new ≡ names.old ++ (if is_rested then entry.0 ∷ [] else [])) }
{
    if is_rested {
        names.push(program.node_name(number).copy(alloc)?)?;
    }
    Ok(())
}

/// Whether sizes stand under these names, one after the other.
pub fn are_named(sizes: &[Size], names: &[Str]) -> bool
    ensures { result ≡ spec.are_named sizes.now names.now }
{
    if sizes.len() != names.len() {
        return false;
    }
    for place in 0..sizes.len() {
        if !sizes[place].name.is(names[place].as_bytes()) {
            return false;
        }
    }
    true
}

/// That 64 bits hold each size.
pub fn all_counted(sizes: &[Size])
    ensures { All (λ size. size.members < 2 ^ 64) sizes.now }
{
    for size in sizes {
        counted(size);
    }
}

fn counted(size: &Size)
    ensures { size.now.members < 2 ^ 64 }
{
    let _members = size.members;
}
