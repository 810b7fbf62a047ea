// What the output channels of a stage get of what the steps of a map task gave.
ghost use Rattle.std.specs.Prelude.{◌≡◌, ◌<◌, ◌++◌, [], IfOk, IsSomeAnd, List, OnOk, drop, map, slice_get};
ghost use Rattle.std.specs.List.{AllByRecursion, AllZip};
ghost use Rattle.flume_value.specs.declared.value.Value.{Value as GhostValue};
ghost use Rattle.flume_collection.specs.Calls.{or_none};
ghost use Rattle.exec_plan.specs.declared.plan.Take.{Take as GhostTake};
ghost use Rattle.map_shard.specs.inner.Fillings.{IsFilled, IsFilling, sent_of};
ghost use Rattle.map_shard.specs.inner.Sending.{CanSend, IsSendable, takes_joined, left, taken, takes_of};
ghost use Rattle.map_shard.specs.inner.Takes.{AreTakes};

use crate::filling::{Filling, fill, finish, nothing};
use crate::moving::taken_lists;
use crate::takes::Takes;
use exec_plan::{OutChannel, Take};
use flume_value::Pile;
use forest_steps::Emitted;
use shuffle_parts::Sent;
use std::alloc::{AllocError, Global};
use std::vec::IntoIter;

/// What each output channel was given where that is nothing.
pub(crate) fn nothing_sent(
    alloc: Global,
    channels: &[OutChannel],
    partitions: u32,
) -> Result<Vec<Filling>, AllocError>
    ensures { IfOk result (λ fillings.
        AllZip (IsFilled partitions (λ takes. [])) channels.now fillings.items) }
{
    let mut fillings = Vec::with_capacity(alloc, channels.len())?;
    for channel in channels {
        fillings.push(nothing(alloc, channel, partitions)?)?;
    }
    Ok(fillings)
}

/// What each output channel was given, with what it takes of input channel m, whose outputs were
/// given these lists.
pub(crate) fn send_more(
    alloc: Global,
    channels: &[OutChannel],
    takes: &Takes,
    m: u32,
    lists: Vec<Emitted>,
    partitions: u32,
    fillings: Vec<Filling>,
) -> Result<Vec<Filling>, AllocError>
    requires some { 0 < partitions }
    requires taken { AreTakes m channels.now takes.now }
    requires fit { AllByRecursion (CanSend m lists.items) channels.now }
    requires stands { (before : List GhostTake → List GhostValue)
        × AllZip (IsFilled partitions before) channels.now fillings.items }
    ensures { (before : List GhostTake → List GhostValue) →
        AllZip (IsFilled partitions before) channels.now fillings.items →
        IfOk result (λ more.
        AllZip (IsFilled partitions (λ takes. before takes ++ taken m lists.items takes))
        channels.now more.items) }
{
    let mut given = taken_lists(alloc, takes, m, lists)?.into_iter();
    let mut old = fillings.into_iter();
    let mut more = Vec::with_capacity(alloc, channels.len())?;
    for channel in channels {
        let filling = next_filling(&mut old);
        more.push(fill_next(alloc, channel, filling, &mut given, partitions)?)?;
    }
    Ok(more)
}

/// What each output channel gets that was given this.
pub(crate) fn all_sent(alloc: Global, fillings: Vec<Filling>) -> Result<Pile<Sent>, AllocError>
    ensures { IfOk result (λ sent. sent ≡ map sent_of fillings.items) }
{
    let mut sent = Vec::with_capacity(alloc, fillings.len())?;
    for filling in fillings {
        sent.push(finish(alloc, filling)?)?;
    }
    Ok(Pile::from_vec(sent))
}

// What a channel was given, with the lists for its takes, which are the next of these.
fn fill_next(
    alloc: Global,
    channel: &OutChannel,
    filling: Option<Filling>,
    given: &mut IntoIter<Emitted>,
    partitions: u32,
) -> Result<Filling, AllocError>
    requires some { 0 < partitions }
    requires fit { IsSendable channel.now
        (takes_joined (takes_of channel.now) given.old.rest.items) }
    requires stands { (done : List GhostValue)
        × IsSomeAnd filling (λ f. IsFilling partitions channel.now f done) }
    ensures more { (done : List GhostValue) →
        IsSomeAnd filling (λ f. IsFilling partitions channel.now f done) →
        IfOk result (λ more. IsFilling partitions channel.now more
        (done ++ takes_joined (takes_of channel.now) given.old.rest.items)) }
    ensures left { OnOk result
        (given.new.rest.items ≡ left (takes_of channel.now) given.old.rest.items) }
{
    match filling {
        Some(filling) => match taken_values(alloc, channel, given) {
            Ok(values) => {
                let more = fill(alloc, channel, filling, values, partitions)?;
                Ok(more)
            }
            Err(fault) => {
                drop(filling);
                Err(fault)
            }
        },
        None => unreachable!(),
    }
}

// The next of these, where there is one.
fn next_filling(fillings: &mut IntoIter<Filling>) -> Option<Filling>
    ensures next { result ≡ slice_get fillings.old.rest.items 0 }
    ensures rest { fillings.new.rest.items ≡ drop 1 fillings.old.rest.items }
{
    fillings.next()
}

// The lists of a channel's takes, which are next, one after another.
fn taken_values(
    alloc: Global,
    channel: &OutChannel,
    given: &mut IntoIter<Emitted>,
) -> Result<Emitted, AllocError>
    ensures all { IfOk result (λ values.
        values ≡ takes_joined (takes_of channel.now) given.old.rest.items) }
    ensures left { OnOk result
        (given.new.rest.items ≡ left (takes_of channel.now) given.old.rest.items) }
{
    match channel {
        OutChannel::Pass(take, _) => joined(alloc, &[*take], given),
        OutChannel::Group(group) => joined(alloc, group.takes.as_slice(), given),
    }
}

// The lists of these takes, which are next, one after another.
fn joined(
    alloc: Global,
    takes: &[Take],
    given: &mut IntoIter<Emitted>,
) -> Result<Emitted, AllocError>
    ensures all { IfOk result (λ values. values ≡ takes_joined takes.now given.old.rest.items) }
    ensures left { OnOk result (given.new.rest.items ≡ left takes.now given.old.rest.items) }
{
    let mut values = Emitted::new(alloc);
    for _take in takes {
        values = values.with_more(alloc, next_emitted(alloc, given))?;
    }
    Ok(values)
}

// What was emitted next, or nothing.
fn next_emitted(alloc: Global, given: &mut IntoIter<Emitted>) -> Emitted
    ensures next { result ≡ or_none (slice_get given.old.rest.items 0) }
    ensures rest { given.new.rest.items ≡ drop 1 given.old.rest.items }
{
    given.next().unwrap_or(Emitted::new(alloc))
}
