// Rewrites one after another.
ghost use Rattle.std.specs.Prelude.{◌≡◌, ◌+◌, IfOk, IfSome};
ghost use Rattle.exec_graph.specs.Wellformed.{IsGraphOk};
ghost use Rattle.graph_rewrites.specs.Replays.{rewrite_group};
ghost use Rattle.graph_rewriting.specs.Replayed.{Follows, IsReplayed};
ghost use Rattle.graph_rewriting.specs.inner.Standings.{IsStanding, blocked_of, shown};

use crate::standing::{Standing, applied, ended};
use exec_graph::{Blocked, Graph};
use flume_value::Pile;
use graph_rewrites::Rewrite;
use std::alloc::{AllocError, Global};

/// Why rewrites lead nowhere.
#[derive(Clone, Copy, PartialEq, Eq, Drop)]
pub enum ReplayFault {
    /// The rewrite of that number, from 1 on, is the first that may not be made.
    Step(u32),
    /// Want of memory.
    Memory,
}

impl From<AllocError> for ReplayFault {
    ghost use Rattle.std.specs.Prelude.{◌≡◌};
    ghost use Rattle.graph_rewriting.specs.declared.replaying.ReplayFault.TheVariants.{Memory};

    ghost from_gives = { λ _ e. e ≡ Memory };

    fn from(_e: AllocError) -> ReplayFault {
        ReplayFault::Memory
    }
}

/// The graph with its marks that the rewrites lead to, each behind those of earlier groups, or the
/// first that may not be made where the others before it lead.
pub fn replay(alloc: Global, graph: Graph, rewrites: &[Rewrite]) -> Result<Blocked, ReplayFault>
    requires { IsGraphOk graph }
    ensures { IsReplayed graph rewrites.now result }
{
    let mut now = Standing::Plain(Blocked {
        graph,
        marks: Pile::new(alloc),
    });
    let mut group = 0;
    let mut step: u32 = 0;
    for rewrite in rewrites {
        step = one_more(step)?;
        match follow(alloc, now, group, *rewrite)? {
            Some(next) => now = next,
            None => return Err(ReplayFault::Step(step)),
        }
        group = group_of(*rewrite);
    }
    let last = ended(alloc, now)?;
    Ok(last)
}

/// The next number; more than 32 bits count are more rewrites than memory holds.
fn one_more(step: u32) -> Result<u32, AllocError>
    ensures { IfOk result (λ n. n ≡ step + 1) }
{
    step.checked_add(1).ok_or(AllocError)
}

/// The graph with its marks after the rewrite, or none where it is of an earlier group than that,
/// or may not be made.
fn follow(
    alloc: Global,
    now: Standing,
    group: u32,
    rewrite: Rewrite,
) -> Result<Option<Standing>, AllocError>
    requires ok { IsGraphOk (blocked_of now).graph }
    requires standing { IsStanding now }
    ensures follows { IfOk result (λ made. Follows group (blocked_of now) rewrite (shown made)) }
    ensures standing { IfOk result (λ made. IfSome made (λ s. IsStanding s)) }
{
    let own = group_of(rewrite);
    if own < group {
        drop(now);
        return Ok(None);
    }
    let made = applied(alloc, now, rewrite)?;
    Ok(made)
}

/// The group of a rewrite, of the four in their order.
fn group_of(rewrite: Rewrite) -> u32
    ensures { result ≡ rewrite_group rewrite }
{
    match rewrite {
        Rewrite::Merge { .. } | Rewrite::Sink { .. } => 0,
        Rewrite::Lift { .. } => 1,
        Rewrite::Kid { .. } | Rewrite::Sibling { .. } => 2,
        Rewrite::Mark { .. } => 3,
    }
}
