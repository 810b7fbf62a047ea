// The siblings that fusing is, made under names.
ghost use Rattle.std.specs.Prelude.{◌≡◌, ◌++◌, ◌∷◌, [], ℕ, List, IfOk, true};
ghost use Rattle.exec_graph.specs.Wellformed.{IsGraphOk};
ghost use Rattle.exec_graph.specs.declared.graph.Graph.{Graph as GhostGraph};
ghost use Rattle.graph_states.specs.States.{taken_in};
ghost use Rattle.graph_laws.specs.Joining.{beside};
ghost use Rattle.graph_joins.specs.Sessions.{ArePair, IsSession};
ghost use Rattle.graph_rewrites.specs.Rewrites as rewrites;
ghost use Rattle.graph_rewrites.specs.declared.rewrite.Rewrite.{Rewrite as GhostRewrite};
ghost use Rattle.graph_rewrites.specs.declared.rewrite.Rewrite.TheVariants as rewrite;
ghost use Rattle.graph_tracing.specs.Traces.{GoesOn};
ghost use Rattle.graph_tracing.specs.inner.Callers.{HasFirsts};
ghost use Rattle.graph_tracing.specs.inner.Named.{trace_of};
ghost use Rattle.graph_tracing.specs.inner.Waiting.{AreApart, IsUnderway};

use crate::callers::{firsts_of, keeper_of};
use crate::named::{NamedTrace, named_trace, unnamed_trace};
use crate::trace::Trace;
use graph_joins::with_sibling;
use graph_rewrites::Rewrite;
use std::alloc::{AllocError, Global};
use std::collections::HashMap;

/// Of the Pdos of these numbers each becomes a sibling of the first that reads the same, where that
/// has a lesser number.
pub(crate) fn with_siblings(
    alloc: Global,
    trace: Trace,
    numbers: &[u32],
) -> Result<Trace, AllocError>
    requires { IsGraphOk trace.graph }
    ensures ok { IfOk result (λ t. IsGraphOk t.graph) }
    ensures traced { IfOk result (λ t. GoesOn 2 trace t) }
    ensures whole { IfOk result (λ t. (m : GhostGraph) (f : ℕ → ℕ) (all : List GhostRewrite) →
        AreApart m → IsUnderway true (λ n. n) f trace m numbers.now all →
        IsUnderway true (λ n. n) f t m [] all) }
{
    let begun = named_trace(alloc, trace)?;
    let firsts = firsts_of(alloc, begun.joins.graph.entries())?;
    let last = all_siblings(alloc, begun, &firsts, numbers)?;
    let made = unnamed_trace(alloc, last)?;
    Ok(made)
}

fn all_siblings(
    alloc: Global,
    trace: NamedTrace,
    firsts: &HashMap<u64, u32>,
    numbers: &[u32],
) -> Result<NamedTrace, AllocError>
    requires session { IsSession trace.joins }
    requires firsts { HasFirsts firsts.now trace.joins.graph.nodes }
    ensures session { IfOk result (λ t. IsSession t.joins) }
    ensures traced { IfOk result (λ t. GoesOn 2 (trace_of trace) (trace_of t)) }
    ensures whole { IfOk result (λ t. (m : GhostGraph) (f : ℕ → ℕ) (all : List GhostRewrite) →
        AreApart m → IsUnderway true (λ n. n) f (trace_of trace) m numbers.now all →
        IsUnderway true (λ n. n) f (trace_of t) m [] all) }
{
    let mut trace = trace;
    for number in numbers {
        trace = next_sibling(alloc, trace, firsts, *number)?;
    }
    Ok(trace)
}

fn next_sibling(
    alloc: Global,
    trace: NamedTrace,
    firsts: &HashMap<u64, u32>,
    number: u32,
) -> Result<NamedTrace, AllocError>
    requires session { IsSession trace.joins }
    requires firsts { HasFirsts firsts.now trace.joins.graph.nodes }
    ensures session { IfOk result (λ t. IsSession t.joins) }
    ensures firsts { IfOk result (λ t. HasFirsts firsts.now t.joins.graph.nodes) }
    ensures traced { IfOk result (λ t. GoesOn 2 (trace_of trace) (trace_of t)) }
    ensures whole { IfOk result (λ t. (m : GhostGraph) (f : ℕ → ℕ) (ns : List ℕ)
        (all : List GhostRewrite) → AreApart m →
        IsUnderway true (λ n. n) f (trace_of trace) m (number ∷ ns) all →
        IsUnderway true (λ n. n) f (trace_of t) m ns all) }
{
    match keeper_of(&trace.joins.graph, firsts, number) {
        Some(keeper) => {
            let next = after_sibling(alloc, trace, keeper, number)?;
            Ok(next)
        }
        None => Ok(trace),
    }
}

fn after_sibling(
    alloc: Global,
    trace: NamedTrace,
    keeper: u32,
    other: u32,
) -> Result<NamedTrace, AllocError>
    requires session { IsSession trace.joins }
    requires pair { ArePair trace.joins.graph keeper other }
    ensures session { IfOk result (λ t. IsSession t.joins) }
    ensures can { IfOk result (λ t. rewrites.CanBeSibling (trace_of trace).graph keeper other) }
    ensures graph { IfOk result (λ t. (trace_of t).graph
        ≡ rewrites.after_sibling (trace_of trace).graph keeper other) }
    ensures rewrites { IfOk result (λ t.
        t.rewrites ≡ trace.rewrites ++ rewrite.Sibling keeper other ∷ []) }
    ensures joins { IfOk result (λ t. t.joins.graph ≡ taken_in trace.joins.graph keeper other
        (rewrites.input_at trace.joins.graph keeper)
        (beside (rewrites.forest_at trace.joins.graph keeper)
        (rewrites.forest_at trace.joins.graph other))) }
{
    let NamedTrace {
        joins,
        mut rewrites,
    } = trace;
    rewrites.push(Rewrite::Sibling { keeper, other })?;
    let joins = with_sibling(alloc, joins, keeper, other)?;
    Ok(NamedTrace { joins, rewrites })
}
