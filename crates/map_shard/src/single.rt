// Channels that take one list at most of an input channel.
ghost use Rattle.std.specs.Prelude.{◌≡◌, ◌==◌};
ghost use Rattle.std.specs.List.{list_all, list_any};
ghost use Rattle.map_shard.specs.inner.Single.{is_single, takes_once};

use exec_plan::{OutChannel, Take};

/// Whether each of the channels takes one list at most of input channel m.
pub(crate) fn are_single(channels: &[OutChannel], m: u32) -> bool
    ensures { result ≡ list_all (is_single m) channels.now }
{
    channels.iter().all(|channel| is_single(channel, m))
}

fn is_single(channel: &OutChannel, m: u32) -> bool
    ensures { result ≡ is_single m channel.now }
{
    match channel {
        OutChannel::Pass(_, _) => true,
        OutChannel::Group(group) => takes_once(group.takes.as_slice(), m),
    }
}

fn takes_once(takes: &[Take], m: u32) -> bool
    ensures { result ≡ takes_once m takes.now }
{
    for (i, take) in takes.iter().enumerate() {
        if take.channel == m {
            return !some_of(&takes[i + 1..], m);
        }
    }
    true
}

// Whether one of the takes is of input channel m.
fn some_of(takes: &[Take], m: u32) -> bool
    ensures { result ≡ list_any (λ take. take.channel == m) takes.now }
{
    takes.iter().any(|take| take.channel == m)
}
