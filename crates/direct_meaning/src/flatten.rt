// Collections together.
ghost use Rattle.std.specs.Prelude.{◌≡◌, ◌++◌, IfOk, OnOk};
ghost use Rattle.std.specs.List.{flat_map, list_any};
ghost use Rattle.flume_value.specs.Bag.{bag_of};
ghost use Rattle.direct_meaning.specs.inner.Kept.{is_trapped as trapped_in, kept_in, members_of};

use crate::kept::{Kept, find};
use flume_value::{Pile, Value, copy_all, sorted};
use std::alloc::{AllocError, Global};

/// The members of the collections of these numbers, each as often as its number is there. It sorts
/// once.
pub(crate) fn together(
    alloc: Global,
    table: &[Option<Kept>],
    sources: &[usize],
) -> Result<Kept, AllocError>
    ensures members { IfOk result (λ kept. kept.members
        ≡ bag_of (flat_map (λ source. members_of (kept_in table.now source)) sources.now)) }
    ensures trapped { IfOk result (λ kept. kept.trapped
        ≡ list_any (λ source. trapped_in (kept_in table.now source)) sources.now) }
{
    let mut all = Vec::new(alloc);
    for source in sources {
        append_members(alloc, table, *source, &mut all)?;
    }
    Ok(Kept {
        members: Pile::from_vec(sorted(all)?),
        trapped: any_trapped(table, sources),
    })
}

/// Whether a trap is behind any of the collections of these numbers.
pub(crate) fn any_trapped(table: &[Option<Kept>], sources: &[usize]) -> bool
    ensures { result ≡ list_any (λ source. trapped_in (kept_in table.now source)) sources.now }
{
    sources.iter().any(|source| is_trapped(table, *source))
}

/// Puts copies of the members of a collection behind others.
fn append_members(
    alloc: Global,
    table: &[Option<Kept>],
    source: usize,
    all: &mut Vec<Value>,
) -> Result<(), AllocError>
    ensures { OnOk result (all.new.items
        ≡ all.old.items ++ members_of (kept_in table.now source)) }
{
    match find(table, source) {
        Some(kept) => {
            all.append(&mut copy_all(alloc, kept.members.as_slice())?.into_vec())?;
            Ok(())
        }
        None => Ok(()),
    }
}

/// Whether a trap is behind a collection.
fn is_trapped(table: &[Option<Kept>], source: usize) -> bool
    ensures { result ≡ trapped_in (kept_in table.now source) }
{
    match find(table, source) {
        Some(kept) => kept.trapped,
        None => false,
    }
}
