// The optimiser's plan, with the rewrites that lead to it.
ghost use Rattle.std.specs.Prelude.{◌≡◌, ◌<◌, ◌^◌, IfOk};
ghost use Rattle.std.specs.List.{AllByRecursion};
ghost use Rattle.plan_check.specs.of_optimise.Optimised.{CanOptimise, IsOptimised};
ghost use Rattle.plan_check.specs.Checked.{Forms};
ghost use Rattle.plan_file_law.specs.of_plan_files.Written.{HasSmallNumbers};
ghost use Rattle.plan_tracing.specs.Refined.{IsPassOrder};

use crate::fusing::Refined;
use crate::refining::refine_traced;
use exec_graph::{Blocked, Graph};
use exec_plan::Plan;
use flume_value::Pile;
use graph_rewrites::{Rewrite, replay_law};
use graph_tracing::mscr_form::form;
use plan_check::optimise::count_sources;
use std::alloc::{AllocError, Global};

/// A plan, with rewrites that lead to it.
#[derive(Drop)]
pub struct Traced {
    pub plan: Plan,
    pub rewrites: Pile<Rewrite>,
}

/// The plan of a graph that the passes can take, by the scales of functions in hundredths, and the
/// rewrites that lead to it: those that may be made, in the order in which a file tells them.
pub fn optimise_traced(alloc: Global, scales: &[u32], graph: Graph) -> Result<Traced, AllocError>
    requires ok { CanOptimise graph }
    ensures optimised { IfOk result (λ t. IsOptimised scales.now graph t.plan) }
    ensures forms { IfOk result (λ t. Forms graph t.rewrites t.plan) }
    ensures order { IfOk result (λ t. IsPassOrder graph t.rewrites) }
    ensures small { IfOk result (λ t. AllByRecursion HasSmallNumbers t.rewrites) }
{
    replay_law();
    let sources = count_sources(graph.nodes.as_slice())?;
    let refined = refine_traced(alloc, scales, graph)?;
    let Refined { blocked, rewrites } = refined;
    let _next = next_number(&blocked);
    are_small(rewrites.as_slice());
    let plan = form(alloc, sources, &blocked)?;
    Ok(Traced { plan, rewrites })
}

/// The graph's next number, which has 32 bits.
fn next_number(blocked: &Blocked) -> u32
    ensures same { result ≡ blocked.now.graph.next }
    ensures small { result < 2 ^ 32 }
{
    blocked.graph.next
}

/// The numbers of rewrites have 32 bits.
fn are_small(rewrites: &[Rewrite])
    ensures { AllByRecursion HasSmallNumbers rewrites.now }
{
    for rewrite in rewrites {
        is_small(*rewrite);
    }
}

fn is_small(rewrite: Rewrite)
    ensures { HasSmallNumbers rewrite }
{
    match rewrite {
        Rewrite::Merge { outer, inner } => are_two(outer, inner),
        Rewrite::Sink { flatten, pdo } => are_two(flatten, pdo),
        Rewrite::Lift { group } => are_two(group, group),
        Rewrite::Kid {
            keeper,
            output,
            reader,
        } => are_three(keeper, output, reader),
        Rewrite::Sibling { keeper, other } => are_two(keeper, other),
        Rewrite::Mark { node, output } => are_two(node, output),
    }
}

fn are_two(first: u32, second: u32)
    ensures first { first < 2 ^ 32 }
    ensures second { second < 2 ^ 32 }
{
    let _first = first;
    let _second = second;
}

fn are_three(first: u32, second: u32, third: u32)
    ensures first { first < 2 ^ 32 }
    ensures second { second < 2 ^ 32 }
    ensures third { third < 2 ^ 32 }
{
    let _first = first;
    let _second = second;
    let _third = third;
}
