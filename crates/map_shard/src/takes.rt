// What the output channels take of an input channel, worked out once a task: their takes, and for
// each list the place where it is taken last, so that it is moved there and copied before.
ghost use Rattle.std.specs.Prelude.{◌≡◌, ◌≢◌, ◌++◌, ℕ, IfOk, OnOk, Some, slice_get};
ghost use Rattle.std.specs.List.{flat_map};
ghost use Rattle.map_shard.specs.inner.Sending.{takes_of};
ghost use Rattle.map_shard.specs.inner.Takes.{AreLast, AreTakes};

use exec_plan::{OutChannel, Take};
use std::alloc::{AllocError, Global};

/// What channels take, one after another, and by the number of each list of an input channel the
/// place of its last take.
#[derive(Drop)]
pub(crate) struct Takes {
    pub(crate) all: Vec<Take>,
    pub(crate) last: Vec<usize>,
}

/// What the channels take, with the last takes of the lists of input channel m.
pub(crate) fn takes_from(
    alloc: Global,
    channels: &[OutChannel],
    m: u32,
) -> Result<Takes, AllocError>
    ensures { IfOk result (AreTakes m channels.now) }
{
    let all = all_takes(alloc, channels)?;
    let last = last_places(alloc, all.as_slice(), m)?;
    Ok(Takes { all, last })
}

// What the channels take, one after another.
fn all_takes(alloc: Global, channels: &[OutChannel]) -> Result<Vec<Take>, AllocError>
    ensures { IfOk result (λ takes. takes.items ≡ flat_map takes_of channels.now) }
{
    let mut takes = Vec::new(alloc);
    for channel in channels {
        append_takes(channel, &mut takes)?;
    }
    Ok(takes)
}

fn append_takes(channel: &OutChannel, takes: &mut Vec<Take>) -> Result<(), AllocError>
    ensures { OnOk result (takes.new.items ≡ takes.old.items ++ takes_of channel.now) }
{
    match channel {
        OutChannel::Pass(take, _) => takes.push(*take)?,
        OutChannel::Group(group) => takes.extend_from_slice(group.takes.as_slice())?,
    }
    Ok(())
}

// By the number of each list of input channel m a place behind which it is not taken.
fn last_places(alloc: Global, takes: &[Take], m: u32) -> Result<Vec<usize>, AllocError>
    ensures { IfOk result (λ last. AreLast m takes.now last.items) }
{
    let mut last = Vec::new(alloc);
    for (k, take) in takes.iter().enumerate() {
        if take.channel == m {
            put_place(&mut last, take.out, k)?;
        }
    }
    Ok(last)
}

// Puts the place at that number. Where there is none before, the table is filled up with it.
fn put_place(places: &mut Vec<usize>, number: u32, place: usize) -> Result<(), AllocError>
    ensures { OnOk result ((n k : ℕ) → slice_get places.new.items n ≡ Some k → k ≢ place →
        (n ≢ number) × (slice_get places.old.items n ≡ Some k)) }
{
    let number = number as usize;
    if number < places.len() {
        places[number] = place;
        return Ok(());
    }
    places.resize(number + 1, place)?;
    Ok(())
}
