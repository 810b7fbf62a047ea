// Two Pdos become one.
ghost use Rattle.std.specs.Prelude.{◌≡◌, IfOk};
ghost use Rattle.exec_graph.specs.Forests.{grown};
ghost use Rattle.exec_graph.specs.Meaning.{OutsDiffer};
ghost use Rattle.exec_graph.specs.Wellformed.{Ascends, IsGraphOk};
ghost use Rattle.graph_laws.specs.Joining.{beside, grafted};
ghost use Rattle.graph_laws.specs.Kids.{even, named_by, odd};
ghost use Rattle.graph_rewrites.specs.Rewrites as rewrites;
ghost use Rattle.graph_joining.specs.inner.Joined as spec;

use crate::finding::input_at;
use crate::moves::Apart;
use crate::pairs::Kid;
use crate::refits::{Parted, renewed, take_apart};
use exec_graph::{Graph, Place, Step};
use graph_walks::{Half, half_number, halve, plant};
use std::alloc::{AllocError, Global};

/// The roots of the Pdo `reader` become the last kids of the output of `keeper` that it reads. What
/// comes of both has the lesser of their numbers.
pub fn join_kid(alloc: Global, graph: Graph, kid: Kid) -> Result<Graph, AllocError>
    requires ok { IsGraphOk graph }
    requires can { rewrites.CanBeKid graph kid.keeper kid.output kid.reader }
    ensures { IfOk result (λ h. h ≡ rewrites.after_kid graph kid.keeper kid.output kid.reader) }
{
    if kid.reader < kid.keeper {
        let by = Apart {
            keeper: kid.keeper,
            other: kid.reader,
            number: kid.reader,
        };
        let other = joined(alloc, graph, by, Manner::Kid(kid.output))?;
        return Ok(other);
    }
    let under = kid_under(alloc, graph, kid)?;
    Ok(under)
}

/// The same under the number of `keeper`, whichever is less.
pub fn kid_under(alloc: Global, graph: Graph, kid: Kid) -> Result<Graph, AllocError>
    requires ok { IsGraphOk graph }
    requires can { rewrites.CanBeKid graph kid.keeper kid.output kid.reader }
    ensures { IfOk result (λ h. h ≡ rewrites.kid_under graph kid.keeper kid.output kid.reader) }
{
    let by = Apart {
        keeper: kid.keeper,
        other: kid.reader,
        number: kid.keeper,
    };
    let under = joined(alloc, graph, by, Manner::Kid(kid.output))?;
    Ok(under)
}

/// The roots of the Pdo `other` follow those of `keeper`, which reads the same.
pub fn join_sibling(
    alloc: Global,
    graph: Graph,
    keeper: u32,
    other: u32,
) -> Result<Graph, AllocError>
    requires ok { IsGraphOk graph }
    requires can { rewrites.CanBeSibling graph keeper other }
    ensures { IfOk result (λ h. h ≡ rewrites.after_sibling graph keeper other) }
{
    let by = Apart {
        keeper,
        other,
        number: keeper,
    };
    let sibling = joined(alloc, graph, by, Manner::Sibling)?;
    Ok(sibling)
}

/// How the steps of two Pdos stand in the one that they become.
#[derive(Clone, Copy, Drop)]
enum Manner {
    /// Those of the other on that output of the keeper.
    Kid(u32),
    /// Those of the other behind those of the keeper.
    Sibling,
}

fn joined(alloc: Global, graph: Graph, by: Apart, manner: Manner) -> Result<Graph, AllocError>
    requires ascends { Ascends graph.nodes }
    requires number { spec.IsOfOne by }
    requires stand { spec.Stand graph by.keeper by.other }
    ensures { IfOk result (λ h. h ≡ spec.joined_by graph by manner) }
{
    let input = input_in(&graph, by.keeper);
    let Parted {
        graph: left,
        near,
        far,
    } = take_apart(alloc, graph, by, input);
    let steps = put_together(manner, near, far)?;
    let last = renewed(alloc, left, input, steps, by)?;
    Ok(last)
}

/// What the Pdo of that number reads.
fn input_in(graph: &Graph, number: u32) -> Place
    requires { Ascends graph.now.nodes }
    ensures { result ≡ rewrites.input_at graph.now number }
{
    input_at(graph.nodes.as_slice(), number)
}

/// The steps of both, under numbers that differ.
fn put_together(manner: Manner, near: Vec<Step>, far: Vec<Step>) -> Result<Vec<Step>, AllocError>
    requires { OutsDiffer (grown near.items) }
    ensures { IfOk result (λ v.
        grown v.items ≡ spec.together manner (grown near.items) (grown far.items)) }
{
    match manner {
        Manner::Kid(output) => planted(near, output, far),
        Manner::Sibling => side_by_side(near, far),
    }
}

/// The steps with the others on that output of theirs, under numbers that differ.
fn planted(steps: Vec<Step>, output: u32, others: Vec<Step>) -> Result<Vec<Step>, AllocError>
    requires { OutsDiffer (grown steps.items) }
    ensures { IfOk result (λ v. grown v.items ≡ grafted (even output)
        (named_by odd (grown others.items)) (named_by even (grown steps.items))) }
{
    let mut steps = steps;
    let mut others = others;
    let number = half_number(Half::Even, output)?;
    halve(Half::Even, &mut steps)?;
    halve(Half::Odd, &mut others)?;
    plant(&mut steps, number, others)?;
    Ok(steps)
}

/// The steps with the others behind them, under numbers that differ.
fn side_by_side(steps: Vec<Step>, others: Vec<Step>) -> Result<Vec<Step>, AllocError>
    ensures { IfOk result (λ v. grown v.items
        ≡ beside (named_by even (grown steps.items)) (named_by odd (grown others.items))) }
{
    let mut steps = steps;
    let mut others = others;
    halve(Half::Even, &mut steps)?;
    halve(Half::Odd, &mut others)?;
    steps.append(&mut others)?;
    Ok(steps)
}
