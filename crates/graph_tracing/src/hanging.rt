// The kids that fusing is, made under names.
ghost use Rattle.std.specs.Prelude.{◌≡◌, ◌++◌, ◌∷◌, [], ℕ, List, IfOk};
ghost use Rattle.exec_graph.specs.Wellformed.{IsGraphOk};
ghost use Rattle.exec_graph.specs.declared.graph.Graph.{Graph as GhostGraph};
ghost use Rattle.graph_joins.specs.Sessions.{IsReader, IsSession};
ghost use Rattle.graph_rewrites.specs.Rewrites as rewrites;
ghost use Rattle.graph_rewrites.specs.declared.rewrite.Rewrite.{Rewrite as GhostRewrite};
ghost use Rattle.graph_rewrites.specs.declared.rewrite.Rewrite.TheVariants as rewrite;
ghost use Rattle.pass_rewrites.specs.of_fuse_chain.Numbers as after;
ghost use Rattle.graph_tracing.specs.Traces.{GoesUnder};
ghost use Rattle.graph_tracing.specs.inner.Named.{trace_of};
ghost use Rattle.graph_tracing.specs.inner.Numbers.{KeepsAll, number_in};
ghost use Rattle.graph_tracing.specs.inner.Waiting.{IsLeaving};

use crate::fusing::{KidTrace, with_kid};
use crate::likely::likely_kid;
use crate::named::{NamedTrace, named_trace, unnamed_trace};
use crate::numbers::note_kid;
use graph_joining::Kid;
use graph_joins::{read_name, with_kid as with_named_kid};
use std::alloc::{AllocError, Global};
use std::collections::HashMap;

/// A graph under names whose kids are under the numbers of the Pdos that they read, the numbers
/// that its nodes have where what comes of two takes the lesser one, and the rewrites that led to
/// it under these.
#[derive(Drop)]
pub(crate) struct NamedKids {
    pub(crate) trace: NamedTrace,
    pub(crate) numbers: HashMap<u32, u32>,
    /// Of each Pdo that went since the names were given, the one that took it in.
    pub(crate) keepers: HashMap<u32, u32>,
}

/// Of the Pdos of these numbers each that is still there becomes a kid of the Pdo that it reads.
pub(crate) fn with_kids(
    alloc: Global,
    kids: KidTrace,
    numbers: &[u32],
) -> Result<KidTrace, AllocError>
    requires ok { IsGraphOk kids.trace.graph }
    requires keeps { KeepsAll (number_in kids.numbers) }
    ensures traced { IfOk result (λ t. GoesUnder (number_in kids.numbers) (number_in t.numbers)
        kids.trace t.trace) }
    ensures whole { IfOk result (λ t. (m : GhostGraph) (f : ℕ → ℕ) (all : List GhostRewrite) →
        IsLeaving (number_in kids.numbers) f kids.trace m numbers.now all →
        IsLeaving (number_in t.numbers) f t.trace m [] all) }
{
    let begun = named_kids(alloc, kids)?;
    let last = all_kids(alloc, begun, numbers)?;
    let made = unnamed_kids(alloc, last)?;
    Ok(made)
}

fn named_kids(alloc: Global, kids: KidTrace) -> Result<NamedKids, AllocError>
    requires { IsGraphOk kids.trace.graph }
    ensures session { IfOk result (λ t. IsSession t.trace.joins) }
    ensures trace { IfOk result (λ t. trace_of t.trace ≡ kids.trace) }
    ensures numbers { IfOk result (λ t. t.numbers ≡ kids.numbers) }
{
    let KidTrace { trace, numbers } = kids;
    let trace = named_trace(alloc, trace)?;
    Ok(NamedKids {
        trace,
        numbers,
        keepers: HashMap::new(alloc),
    })
}

fn all_kids(alloc: Global, kids: NamedKids, numbers: &[u32]) -> Result<NamedKids, AllocError>
    requires session { IsSession kids.trace.joins }
    requires keeps { KeepsAll (number_in kids.numbers) }
    ensures traced { IfOk result (λ t. GoesUnder (number_in kids.numbers) (number_in t.numbers)
        (trace_of kids.trace) (trace_of t.trace)) }
    ensures whole { IfOk result (λ t. (m : GhostGraph) (f : ℕ → ℕ) (all : List GhostRewrite) →
        IsLeaving (number_in kids.numbers) f (trace_of kids.trace) m numbers.now all →
        IsLeaving (number_in t.numbers) f (trace_of t.trace) m [] all) }
{
    let mut kids = kids;
    for number in numbers {
        kids = next_kid(alloc, kids, *number)?;
    }
    Ok(kids)
}

/// The Pdo of that number becomes a kid, if it is still there: under names where it reads what it
/// likely reads and has the greater number, and else as the graph is.
fn next_kid(alloc: Global, kids: NamedKids, number: u32) -> Result<NamedKids, AllocError>
    requires session { IsSession kids.trace.joins }
    requires keeps { KeepsAll (number_in kids.numbers) }
    ensures session { IfOk result (λ t. IsSession t.trace.joins) }
    ensures keeps { IfOk result (λ t. KeepsAll (number_in t.numbers)) }
    ensures traced { IfOk result (λ t. GoesUnder (number_in kids.numbers) (number_in t.numbers)
        (trace_of kids.trace) (trace_of t.trace)) }
    ensures whole { IfOk result (λ t. (m : GhostGraph) (f : ℕ → ℕ) (ns : List ℕ)
        (all : List GhostRewrite) →
        IsLeaving (number_in kids.numbers) f (trace_of kids.trace) m (number ∷ ns) all →
        IsLeaving (number_in t.numbers) f (trace_of t.trace) m ns all) }
{
    if !kids.trace.joins.graph.is_pdo(number) {
        return Ok(kids);
    }
    let kid = likely_kid(&kids.trace.joins, number, &kids.keepers);
    match read_name(&kids.trace.joins, kid) {
        Some(name) => {
            let next = after_named_kid(alloc, kids, kid, name)?;
            Ok(next)
        }
        None => {
            let plain = unnamed_kids(alloc, kids)?;
            let joined = with_kid(alloc, plain, number)?;
            let next = named_kids(alloc, joined)?;
            Ok(next)
        }
    }
}

fn after_named_kid(
    alloc: Global,
    kids: NamedKids,
    kid: Kid,
    name: u32,
) -> Result<NamedKids, AllocError>
    requires session { IsSession kids.trace.joins }
    requires keeps { KeepsAll (number_in kids.numbers) }
    requires reads { IsReader kids.trace.joins.graph kid.keeper kid.output kid.reader name }
    ensures session { IfOk result (λ t. IsSession t.trace.joins) }
    ensures can { IfOk result (λ t.
        rewrites.CanBeKid (trace_of kids.trace).graph kid.keeper kid.output kid.reader) }
    ensures graph { IfOk result (λ t. (trace_of t.trace).graph
        ≡ rewrites.kid_under (trace_of kids.trace).graph kid.keeper kid.output kid.reader) }
    ensures rewrites { IfOk result (λ t. t.trace.rewrites ≡ kids.trace.rewrites
        ++ rewrite.Kid (number_in kids.numbers kid.keeper) kid.output
        (number_in kids.numbers kid.reader) ∷ []) }
    ensures numbers { IfOk result (λ t. (n : ℕ) → number_in t.numbers n
        ≡ after.numbers_after_kid (number_in kids.numbers) kid.keeper kid.reader n) }
{
    let NamedKids {
        trace,
        mut numbers,
        mut keepers,
    } = kids;
    let NamedTrace {
        joins,
        mut rewrites,
    } = trace;
    note_kid(kid, &mut numbers, &mut rewrites)?;
    keepers.insert(kid.reader, kid.keeper)?;
    let joins = with_named_kid(alloc, joins, kid, name)?;
    Ok(NamedKids {
        trace: NamedTrace { joins, rewrites },
        numbers,
        keepers,
    })
}

fn unnamed_kids(alloc: Global, kids: NamedKids) -> Result<KidTrace, AllocError>
    ensures trace { IfOk result (λ t. t.trace ≡ trace_of kids.trace) }
    ensures numbers { IfOk result (λ t. t.numbers ≡ kids.numbers) }
{
    let NamedKids {
        trace,
        numbers,
        keepers: _,
    } = kids;
    let trace = unnamed_trace(alloc, trace)?;
    Ok(KidTrace { trace, numbers })
}
