// The sizes of a script's collections, where some were kept and a run has counted others.
ghost use Rattle.std.specs.Prelude.{◌≡◌, ◌++◌, IfOk, OnOk, map};
ghost use Rattle.kept_results.specs.Sizes as spec;

use flume_value::{Items, Pile, Str};
use saved_results::{Saved, Size};
use std::alloc::{AllocError, Global};

/// Puts the sizes that were kept with a collection, which rests on these, behind others.
pub fn push_kept(
    nodes: &[(u32, Str)],
    sizes: &[Size],
    known: &mut Vec<(u32, u64)>,
) -> Result<(), AllocError>
    ensures { OnOk result (known.new.items ≡ known.old.items
        ++ spec.size_pairs nodes.now (map (λ size. size.members) sizes.now)) }
{
    for place in 0..nodes.len() {
        let Some(size) = sizes.get(place) else {
            return Ok(());
        };
        known.push((nodes[place].0, size.members))?;
    }
    Ok(())
}

/// Puts the sizes that a run has counted of these collections behind others.
pub fn push_counted(
    nodes: &[(u32, Str)],
    ran: &[(Str, u64)],
    known: &mut Vec<(u32, u64)>,
) -> Result<(), AllocError>
    ensures { OnOk result (known.new.items ≡ known.old.items
        ++ spec.size_pairs nodes.now (map (λ line. line.1) ran.now)) }
{
    for place in 0..nodes.len() {
        let Some((_, size)) = ran.get(place) else {
            return Ok(());
        };
        known.push((nodes[place].0, *size))?;
    }
    Ok(())
}

/// The names and the sizes of these collections.
pub fn sizes_told(
    alloc: Global,
    known: &[(u32, u64)],
    nodes: &[(u32, Str)],
) -> Result<Vec<(Str, u64)>, AllocError>
    ensures { IfOk result (λ sizes. sizes.items ≡ spec.sizes_told known.now nodes.now) }
{
    let mut sizes = Vec::new(alloc);
    for (number, name) in nodes {
        sizes.push((name.copy(alloc)?, size_at(known, *number)))?;
    }
    Ok(sizes)
}

/// What is kept of a collection of these members, which rests on these.
pub fn to_keep(
    alloc: Global,
    known: &[(u32, u64)],
    nodes: &[(u32, Str)],
    members: Items,
) -> Result<Saved, AllocError>
    ensures { IfOk result (λ saved. saved ≡ spec.to_keep known.now nodes.now members) }
{
    let mut sizes = Pile::new(alloc);
    for (number, name) in nodes {
        sizes.push(Size {
            name: name.copy(alloc)?,
            members: size_at(known, *number),
        })?;
    }
    Ok(Saved { members, sizes })
}

// The first size beside a number; 0 where there is none.
fn size_at(known: &[(u32, u64)], number: u32) -> u64
    ensures { result ≡ spec.size_at known.now number }
{
    for (own, size) in known {
        if *own == number {
            return *size;
        }
    }
    0
}
