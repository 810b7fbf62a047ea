// A kid of a graph as it is.
ghost use Rattle.std.specs.Prelude.{◌≡◌, ◌++◌, ◌∷◌, [], ℕ, List, IfOk};
ghost use Rattle.exec_graph.specs.Wellformed.{IsGraphOk};
ghost use Rattle.exec_graph.specs.declared.graph.Graph.{Graph as GhostGraph};
ghost use Rattle.pass_rewrites.specs.of_fuse_chain.Numbers as after;
ghost use Rattle.graph_rewrites.specs.Rewrites as rewrites;
ghost use Rattle.graph_rewrites.specs.declared.rewrite.Rewrite.{Rewrite as GhostRewrite};
ghost use Rattle.graph_rewrites.specs.declared.rewrite.Rewrite.TheVariants as rewrite;
ghost use Rattle.graph_tracing.specs.Traces.{GoesUnder};
ghost use Rattle.graph_tracing.specs.inner.Numbers.{KeepsAll, number_in};
ghost use Rattle.graph_tracing.specs.inner.Waiting.{IsLeaving};

use crate::callers::read_of;
use crate::numbers::note_kid;
use crate::trace::Trace;
use graph_joining::{Kid, kid_under};
use std::alloc::{AllocError, Global};
use std::collections::HashMap;

/// A graph whose kids are under the numbers of the Pdos that they read, the numbers that its nodes
/// have where what comes of two takes the lesser one, and the rewrites that led to it under these.
#[derive(Drop)]
pub(crate) struct KidTrace {
    pub(crate) trace: Trace,
    pub(crate) numbers: HashMap<u32, u32>,
}

/// The Pdo of that number, where it is still there, becomes a kid of the Pdo that it reads.
pub(crate) fn with_kid(alloc: Global, kids: KidTrace, number: u32) -> Result<KidTrace, AllocError>
    requires ok { IsGraphOk kids.trace.graph }
    requires keeps { KeepsAll (number_in kids.numbers) }
    ensures ok { IfOk result (λ t. IsGraphOk t.trace.graph) }
    ensures keeps { IfOk result (λ t. KeepsAll (number_in t.numbers)) }
    ensures traced { IfOk result (λ t. GoesUnder (number_in kids.numbers) (number_in t.numbers)
        kids.trace t.trace) }
    ensures whole { IfOk result (λ t. (m : GhostGraph) (f : ℕ → ℕ) (ns : List ℕ)
        (all : List GhostRewrite) →
        IsLeaving (number_in kids.numbers) f kids.trace m (number ∷ ns) all →
        IsLeaving (number_in t.numbers) f t.trace m ns all) }
{
    match read_of(kids.trace.graph.nodes.as_slice(), number) {
        Some(read) => {
            let kid = Kid {
                keeper: read.node,
                output: read.out,
                reader: number,
            };
            let next = after_kid(alloc, kids, kid)?;
            Ok(next)
        }
        None => Ok(kids),
    }
}

fn after_kid(alloc: Global, kids: KidTrace, kid: Kid) -> Result<KidTrace, AllocError>
    requires ok { IsGraphOk kids.trace.graph }
    requires keeps { KeepsAll (number_in kids.numbers) }
    requires can { rewrites.CanBeKid kids.trace.graph kid.keeper kid.output kid.reader }
    ensures graph { IfOk result (λ t. t.trace.graph
        ≡ rewrites.kid_under kids.trace.graph kid.keeper kid.output kid.reader) }
    ensures rewrites { IfOk result (λ t. t.trace.rewrites ≡ kids.trace.rewrites
        ++ rewrite.Kid (number_in kids.numbers kid.keeper) kid.output
        (number_in kids.numbers kid.reader) ∷ []) }
    ensures numbers { IfOk result (λ t. (n : ℕ) → number_in t.numbers n
        ≡ after.numbers_after_kid (number_in kids.numbers) kid.keeper kid.reader n) }
{
    let KidTrace { trace, mut numbers } = kids;
    let Trace {
        graph,
        mut rewrites,
    } = trace;
    note_kid(kid, &mut numbers, &mut rewrites)?;
    let graph = kid_under(alloc, graph, kid)?;
    Ok(KidTrace {
        trace: Trace { graph, rewrites },
        numbers,
    })
}
