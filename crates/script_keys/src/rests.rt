// Which statements belong to the key of a collection, from the last to the first.
ghost use Rattle.std.specs.Prelude.{◌≡◌, ◌++◌, ◌||◌, length, IfOk};
ghost use Rattle.script_keys.specs.Rests as spec;

use crate::names::{add_all, has_name, has_some, with_name};
use crate::outline::Outline;
use flume_value::{Pile, Str};
use std::alloc::{AllocError, Global};

/// Names that are looked for: of collections, and of functions.
#[derive(Drop)]
pub struct Names {
    pub collections: Pile<Str>,
    pub functions: Pile<Str>,
}

/// Of each statement, whether it belongs to the key of the collection of that name.
pub fn belonging(alloc: Global, outlines: &[Outline], name: &Str) -> Result<Vec<bool>, AllocError>
    ensures { IfOk result (λ flags. flags.items ≡ spec.flags_from name.now outlines.now) }
{
    let mut flags = unmarked(alloc, outlines.len())?;
    let mut names = only(alloc, name)?;
    let mut found = false;
    let mut number = outlines.len();
    while 0 < number {
        number -= 1;
        flags[number] = belongs(&names, found, &outlines[number]);
        names = names_before(alloc, names, &outlines[number])?;
        found = is_found(&outlines[number], name, found);
    }
    Ok(flags)
}

// So many flags, of which none is set.
fn unmarked(alloc: Global, count: usize) -> Result<Vec<bool>, AllocError>
    ensures { IfOk result (λ flags. length flags.items ≡ count) }
{
    let mut flags = Vec::with_capacity(alloc, count)?;
    for _number in 0..count {
        flags.push(false)?;
    }
    Ok(flags)
}

// The name of a collection alone.
fn only(alloc: Global, name: &Str) -> Result<Names, AllocError>
    ensures { IfOk result (λ names. names ≡ spec.name_alone name.now) }
{
    let mut collections = Pile::new(alloc);
    with_name(alloc, &mut collections, name)?;
    Ok(Names {
        collections,
        functions: Pile::new(alloc),
    })
}

// Whether a statement belongs to a key, where these names are looked for before it, and the
// collection is defined behind it or not.
fn belongs(names: &Names, found: bool, outline: &Outline) -> bool
    ensures { result ≡ spec.belongs_by names.now found outline.now }
{
    match outline {
        Outline::Type => found,
        _ => is_named(names, outline),
    }
}

// Whether a statement defines one of these names.
fn is_named(names: &Names, outline: &Outline) -> bool
    ensures { result ≡ spec.is_named names.now outline.now }
{
    match outline {
        Outline::Input { name, .. } => has_name(names.collections.as_slice(), name),
        Outline::Function { name } => has_name(names.functions.as_slice(), name),
        Outline::Let { names: own, .. } => {
            has_some(names.collections.as_slice(), own.as_slice())
        }
        _ => false,
    }
}

// What is looked for before a statement, where these names are behind it.
fn names_before(alloc: Global, names: Names, outline: &Outline) -> Result<Names, AllocError>
    ensures { IfOk result (λ it. it ≡ spec.names_before names outline.now) }
{
    if !is_named(&names, outline) {
        return Ok(names);
    }
    match outline {
        Outline::Let { reads, calls, .. } => {
            with_reads(alloc, names, reads.as_slice(), calls.as_slice())
        }
        _ => Ok(names),
    }
}

fn with_reads(
    alloc: Global,
    names: Names,
    reads: &[Str],
    calls: &[Str],
) -> Result<Names, AllocError>
    ensures { IfOk result (λ it. it ≡ record {
      collections = names.collections ++ reads.now;
      functions = names.functions ++ calls.now;
    }) }
{
    let Names {
        mut collections,
        mut functions,
    } = names;
    add_all(alloc, &mut collections, reads)?;
    add_all(alloc, &mut functions, calls)?;
    Ok(Names {
        collections,
        functions,
    })
}

// Whether a statement defines the collection of that name, or one behind it does.
fn is_found(outline: &Outline, name: &Str, found: bool) -> bool
    ensures { result ≡ spec.defines outline.now name.now || found }
{
    if defines(outline, name) { true } else { found }
}

// Whether a statement defines the collection of that name.
fn defines(outline: &Outline, name: &Str) -> bool
    ensures { result ≡ spec.defines outline.now name.now }
{
    match outline {
        Outline::Input { name: own, .. } => own.is(name.as_bytes()),
        Outline::Let { names, .. } => has_name(names.as_slice(), name),
        _ => false,
    }
}
