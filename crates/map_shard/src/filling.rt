// What an output channel was given so far.
ghost use Rattle.std.specs.Prelude.{◌≡◌, ◌<◌, ◌++◌, [], All, IfOk, List, None, Some};
ghost use Rattle.std.specs.List.{AllZip};
ghost use Rattle.flume_value.specs.declared.value.Value.{Value as GhostValue};
ghost use Rattle.bag_groups.specs.Pairs.{IsPair};
ghost use Rattle.partial_tables.specs.Lifted.{IsLifted};
ghost use Rattle.partial_tables.specs.Merges.{IsCombinable};
ghost use Rattle.shuffle_parts.specs.Partitions.{in_parts};
ghost use Rattle.task_safety.specs.of_task_lists.Typing.{AreGroupable};
ghost use Rattle.map_shard.specs.inner.Fillings.{AreFilled, AreParted, ArePassed, IsFilling, sent_of};
ghost use Rattle.map_shard.specs.inner.Sending.{IsSendable};

use combine_table::Comb;
use exec_plan::OutChannel;
use flume_value::{Items, Pile, Value};
use forest_steps::Emitted;
use key_order::Couple;
use partial_tables::Lifting;
use shuffle_parts::{Sent, finish_each, lift_more, no_pairs, none_lifted, part_more};
use std::alloc::{AllocError, Global};

/// What an output channel was given so far.
#[derive(Drop)]
pub(crate) enum Filling {
    /// The values that pass through the channel.
    Passed(Items),
    /// For each partition the pairs whose keys fall in it.
    Grouped(Vec<Pile<Couple>>),
    /// For each partition the accumulators into which its pairs were put.
    Combined(Vec<Lifting>),
}

/// What a channel was given where that is nothing.
pub(crate) fn nothing(
    alloc: Global,
    channel: &OutChannel,
    partitions: u32,
) -> Result<Filling, AllocError>
    ensures { IfOk result (λ filling. IsFilling partitions channel.now filling []) }
{
    match channel {
        OutChannel::Pass(_, _) => Ok(Filling::Passed(Pile::new(alloc))),
        OutChannel::Group(group) => no_groups(alloc, group.lifted, partitions),
    }
}

fn no_groups(alloc: Global, lifted: Option<Comb>, partitions: u32) -> Result<Filling, AllocError>
    ensures { IfOk result (λ filling. AreFilled lifted partitions filling []) }
{
    match lifted {
        None => Ok(Filling::Grouped(no_pairs(alloc, partitions)?)),
        Some(comb) => Ok(Filling::Combined(none_lifted(alloc, comb, partitions)?)),
    }
}

/// What a channel was given, with more values.
pub(crate) fn fill(
    alloc: Global,
    channel: &OutChannel,
    filling: Filling,
    values: Emitted,
    partitions: u32,
) -> Result<Filling, AllocError>
    requires some { 0 < partitions }
    requires stands { (done : List GhostValue) × IsFilling partitions channel.now filling done }
    requires fit { IsSendable channel.now values }
    ensures { (done : List GhostValue) → IsFilling partitions channel.now filling done →
        IfOk result (λ more. IsFilling partitions channel.now more (done ++ values)) }
{
    match channel {
        OutChannel::Pass(_, _) => match values.into_items(alloc) {
            Ok(items) => fill_passed(filling, items),
            Err(fault) => {
                drop(filling);
                Err(fault)
            }
        },
        OutChannel::Group(group) => fill_groups(alloc, group.lifted, filling, values, partitions),
    }
}

fn fill_passed(filling: Filling, values: Items) -> Result<Filling, AllocError>
    requires { (done : List GhostValue) × ArePassed filling done }
    ensures { (done : List GhostValue) → ArePassed filling done →
        IfOk result (λ more. ArePassed more (done ++ values)) }
{
    match filling {
        Filling::Passed(all) => {
            let all = with_more(all.into_vec(), values)?;
            Ok(Filling::Passed(Pile::from_vec(all)))
        }
        Filling::Grouped(_) => unreachable!(),
        Filling::Combined(_) => unreachable!(),
    }
}

fn fill_groups(
    alloc: Global,
    lifted: Option<Comb>,
    filling: Filling,
    pairs: Emitted,
    partitions: u32,
) -> Result<Filling, AllocError>
    requires some { 0 < partitions }
    requires stands { (done : List GhostValue) × AreFilled lifted partitions filling done }
    requires fit { AreGroupable lifted pairs }
    ensures { (done : List GhostValue) → AreFilled lifted partitions filling done →
        IfOk result (λ more. AreFilled lifted partitions more (done ++ pairs)) }
{
    match lifted {
        None => fill_parts(filling, pairs, partitions),
        Some(comb) => match filling {
            Filling::Combined(parts) => {
                let parts = lift_emitted(alloc, comb, parts, pairs, partitions)?;
                Ok(Filling::Combined(parts))
            }
            Filling::Passed(_) => unreachable!(),
            Filling::Grouped(_) => unreachable!(),
        },
    }
}

fn fill_parts(filling: Filling, pairs: Emitted, partitions: u32) -> Result<Filling, AllocError>
    requires some { 0 < partitions }
    requires stands { (done : List GhostValue) × AreParted partitions filling done }
    requires pairs { AreGroupable None pairs }
    ensures { (done : List GhostValue) → AreParted partitions filling done →
        IfOk result (λ more. AreParted partitions more (done ++ pairs)) }
{
    match filling {
        Filling::Grouped(parts) => {
            let parts = part_emitted(parts, pairs, partitions)?;
            Ok(Filling::Grouped(parts))
        }
        Filling::Passed(_) => unreachable!(),
        Filling::Combined(_) => unreachable!(),
    }
}

// Puts more pairs behind those of a channel that groups.
fn part_emitted(
    parts: Vec<Pile<Couple>>,
    pairs: Emitted,
    partitions: u32,
) -> Result<Vec<Pile<Couple>>, AllocError>
    requires some { 0 < partitions }
    requires stands { (done : List GhostValue) × (parts.items ≡ in_parts partitions done) }
    requires pairs { All IsPair pairs }
    ensures { (done : List GhostValue) → parts.items ≡ in_parts partitions done →
        IfOk result (λ all. all.items ≡ in_parts partitions (done ++ pairs)) }
{
    let (values, couples) = pairs.into_parts();
    let parts = part_more(parts, values, partitions)?;
    part_more(parts, couples, partitions)
}

// Puts more pairs into the accumulators of a lifted channel.
fn lift_emitted(
    alloc: Global,
    comb: Comb,
    parts: Vec<Lifting>,
    pairs: Emitted,
    partitions: u32,
) -> Result<Vec<Lifting>, AllocError>
    requires some { 0 < partitions }
    requires stands { (done : List GhostValue)
        × AllZip (IsLifted comb) parts.items (in_parts partitions done) }
    requires pairs { All (IsCombinable comb) pairs }
    ensures { (done : List GhostValue) →
        AllZip (IsLifted comb) parts.items (in_parts partitions done) →
        IfOk result (λ all.
        AllZip (IsLifted comb) all.items (in_parts partitions (done ++ pairs))) }
{
    let (values, couples) = pairs.into_parts();
    let parts = lift_more(alloc, comb, parts, values, partitions)?;
    lift_more(alloc, comb, parts, couples, partitions)
}

/// What a channel gets that was given this.
pub(crate) fn finish(alloc: Global, filling: Filling) -> Result<Sent, AllocError>
    ensures { IfOk result (λ sent. sent ≡ sent_of filling) }
{
    match filling {
        Filling::Passed(values) => Ok(Sent::Passed(values)),
        Filling::Grouped(parts) => Ok(Sent::Grouped(Pile::from_vec(parts))),
        Filling::Combined(parts) => Ok(Sent::Combined(finish_each(alloc, parts)?)),
    }
}

// Values, and more behind them. Where there are none the others are taken as they are.
fn with_more(values: Vec<Value>, more: Items) -> Result<Vec<Value>, AllocError>
    ensures { IfOk result (λ all. all.items ≡ values.items ++ more) }
{
    let mut more = more.into_vec();
    if values.is_empty() {
        return Ok(more);
    }
    let mut all = values;
    all.append(&mut more)?;
    Ok(all)
}
