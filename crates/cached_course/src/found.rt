// What was found of the collections that are asked for, apart.
ghost use Rattle.std.specs.Prelude.{◌≡◌, ◌++◌, ◌∷◌, [], IfOk, List, OnOk, drop, map, slice_get, ℕ};
ghost use Rattle.std.specs.Option.{option_flatten};
ghost use Rattle.std.specs.Vec.Iter.{into_iter_items};
ghost use Rattle.kept_results.specs.Lists.{found_of};
ghost use Rattle.kept_results.specs.Sizes.{size_pairs, rested_nodes as rested};
ghost use Rattle.saved_results.specs.declared.saved.Saved.{Saved as Kept};
ghost use Rattle.cached_course.specs.inner.Found.{IsApart, found_as, next_of};

use flume_value::{Items, Pile, Str};
use kept_results::{push_kept, rested_nodes};
use saved_results::{Saved, Size};
use script_program::Program;
use std::alloc::{AllocError, Global};
use std::vec::IntoIter;

/// The numbers of the collections that were found, the members of each, and what was kept with them
/// of sizes, by number.
#[derive(Drop)]
pub struct Found {
    pub numbers: Vec<u32>,
    pub members: Vec<Items>,
    pub known: Vec<(u32, u64)>,
}

/// Takes apart what was found of each that is asked for.
pub fn found_apart(
    alloc: Global,
    program: &Program,
    asked: &[(u32, Str)],
    looked: Vec<Option<Saved>>,
) -> Result<Found, AllocError>
    ensures { IfOk result
        (IsApart program.now.script (found_of asked.now looked.items)) }
{
    let numbers = Vec::new(alloc);
    let members = Vec::new(alloc);
    let known = Vec::new(alloc);
    let mut found = Found {
        numbers,
        members,
        known,
    };
    let mut left = looked.into_iter();
    for one in asked {
        push_next(alloc, program, one.0, &mut left, &mut found)?;
    }
    Ok(found)
}

// Puts what was found of the next one behind the others.
fn push_next(
    alloc: Global,
    program: &Program,
    number: u32,
    left: &mut IntoIter<Option<Saved>>,
    found: &mut Found,
) -> Result<(), AllocError>
    ensures left { OnOk result (into_iter_items left.new ≡ drop 1 (into_iter_items left.old)) }
    ensures found { OnOk result ((so_far : List (ℕ × Kept)) →
        IsApart program.now.script so_far found.old →
        IsApart program.now.script (so_far ++ next_of number (into_iter_items left.old))
        found.new) }
{
    let next = next_saved(left);
    push_saved(alloc, program, number, next, found)?;
    Ok(())
}

// What was found of the next one, if anything.
fn next_saved(left: &mut IntoIter<Option<Saved>>) -> Option<Saved>
    ensures next { result ≡ option_flatten (slice_get (into_iter_items left.old) 0) }
    ensures left { into_iter_items left.new ≡ drop 1 (into_iter_items left.old) }
{
    match left.next() {
        Some(next) => next,
        None => None,
    }
}

// The same of what was found of one, if anything.
fn push_saved(
    alloc: Global,
    program: &Program,
    number: u32,
    next: Option<Saved>,
    found: &mut Found,
) -> Result<(), AllocError>
    ensures { OnOk result ((so_far : List (ℕ × Kept)) →
        IsApart program.now.script so_far found.old →
        IsApart program.now.script (so_far ++ found_as number next) found.new) }
{
    match next {
        Some(saved) => {
            push_found(alloc, program, number, saved, found)?;
            Ok(())
        }
        None => Ok(()),
    }
}

fn push_found(
    alloc: Global,
    program: &Program,
    number: u32,
    saved: Saved,
    found: &mut Found,
) -> Result<(), AllocError>
    ensures numbers { OnOk result
        (found.new.numbers.items ≡ found.old.numbers.items ++ number ∷ []) }
    ensures members { OnOk result
        (found.new.members.items ≡ found.old.members.items ++ saved.members ∷ []) }
    ensures known { OnOk result (found.new.known.items ≡ found.old.known.items
        ++ size_pairs (rested program.now.script number)
        (map (λ size. size.members) saved.sizes)) }
{
    let Saved { members, sizes } = saved;
    push_known(alloc, program, number, &sizes, &mut found.known)?;
    drop(sizes);
    found.numbers.push(number)?;
    found.members.push(members)?;
    Ok(())
}

// Puts behind what is known the sizes that were kept of what the collection of a number rests on.
fn push_known(
    alloc: Global,
    program: &Program,
    number: u32,
    sizes: &Pile<Size>,
    known: &mut Vec<(u32, u64)>,
) -> Result<(), AllocError>
    ensures { OnOk result (known.new.items ≡ known.old.items
        ++ size_pairs (rested program.now.script number) (map (λ size. size.members) sizes.now)) }
{
    let nodes = rested_nodes(alloc, program, number as usize)?;
    let rested = nodes.as_slice();
    let counts = sizes.as_slice();
    push_kept(rested, counts, known)?;
    Ok(())
}
