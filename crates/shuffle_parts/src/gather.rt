// What a partition of a channel gets from all map tasks, in order of tasks.
ghost use Rattle.std.specs.Prelude.{◌≡◌, ◌++◌, IfOk, IsSome, OnOk, Some, map, slice_get};
ghost use Rattle.shuffle_parts.specs.Outs.{all_pairs, all_partials, pairs_at, pairs_in, partials_at, partials_in};

use crate::out::{MapOut, Sent};
use flume_value::Pile;
use key_order::Couple;
use partial_tables::Partial;
use std::alloc::{AllocError, Global};

/// The pairs of a partition of a channel that groups, of all outs in order of tasks. They stay
/// where they are. Each out has that partition of the channel.
pub fn gather_pairs<'a>(
    alloc: Global,
    outs: &'a [MapOut],
    channel: usize,
    partition: usize,
) -> Result<Vec<&'a Couple>, AllocError>
    requires { IsSome (all_pairs outs.now channel partition) }
    ensures { IfOk result (λ all.
        all_pairs outs.now channel partition ≡ Some (map (λ pair. pair.now) all.items)) }
{
    let mut all = Vec::new(alloc);
    for out in outs {
        append_all(pairs_at(out, channel, partition), &mut all)?;
    }
    Ok(all)
}

/// The accumulators of a partition of a channel that combines, of all outs in order of tasks. They
/// stay where they are. Each out has that partition of the channel.
pub fn gather_partials<'a>(
    alloc: Global,
    outs: &'a [MapOut],
    channel: usize,
    partition: usize,
) -> Result<Vec<&'a Partial>, AllocError>
    requires { IsSome (all_partials outs.now channel partition) }
    ensures { IfOk result (λ all.
        all_partials outs.now channel partition ≡ Some (map (λ partial. partial.now) all.items)) }
{
    let mut all = Vec::new(alloc);
    for out in outs {
        append_all(partials_at(out, channel, partition), &mut all)?;
    }
    Ok(all)
}

fn pairs_at(out: &MapOut, channel: usize, partition: usize) -> &[Couple]
    requires { IsSome (pairs_at channel partition out.now) }
    ensures { pairs_at channel partition out.now ≡ Some result.now }
{
    match out.sent.get(channel) {
        Some(sent) => pairs_in(sent, partition),
        None => unreachable!(),
    }
}

fn pairs_in(sent: &Sent, partition: usize) -> &[Couple]
    requires { IsSome (pairs_in partition sent.now) }
    ensures { pairs_in partition sent.now ≡ Some result.now }
{
    match sent {
        Sent::Grouped(parts) => member(parts.as_slice(), partition),
        Sent::Passed(_) => unreachable!(),
        Sent::Combined(_) => unreachable!(),
    }
}

fn partials_at(out: &MapOut, channel: usize, partition: usize) -> &[Partial]
    requires { IsSome (partials_at channel partition out.now) }
    ensures { partials_at channel partition out.now ≡ Some result.now }
{
    match out.sent.get(channel) {
        Some(sent) => partials_in(sent, partition),
        None => unreachable!(),
    }
}

fn partials_in(sent: &Sent, partition: usize) -> &[Partial]
    requires { IsSome (partials_in partition sent.now) }
    ensures { partials_in partition sent.now ≡ Some result.now }
{
    match sent {
        Sent::Combined(parts) => member(parts.as_slice(), partition),
        Sent::Passed(_) => unreachable!(),
        Sent::Grouped(_) => unreachable!(),
    }
}

// The list at this place, where one is.
fn member<T>(lists: &[Pile<T>], at: usize) -> &[T]
    requires { IsSome (slice_get lists.now at) }
    ensures { slice_get lists.now at ≡ Some result.now }
{
    match lists.get(at) {
        Some(list) => list.as_slice(),
        None => unreachable!(),
    }
}

// Puts references to the items behind the others.
fn append_all<'a, T>(items: &'a [T], all: &mut Vec<&'a T>) -> Result<(), AllocError>
    ensures { OnOk result (map (λ item. item.now) all.new.items
        ≡ map (λ item. item.now) all.old.items ++ items.now) }
{
    for item in items {
        all.push(item)?;
    }
    Ok(())
}
