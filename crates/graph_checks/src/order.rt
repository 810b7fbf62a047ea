// Numbers of nodes in an order in which each reads from those before it.
ghost use Rattle.std.specs.Prelude.{◌≡◌, ℕ, ◌<◌, ◌≤◌, ◌↔◌, length, IsTrue, IfOk, true, false};
ghost use Rattle.graph_checks.specs.inner.Order.{IsWithin, HasRank, IsPartly, Reached, NoWay, fresh, HasNoOpen};

use flume_value::Pile;
use std::alloc::{AllocError, Global};

/// How far a walk has come with a node.
#[derive(Clone, Copy)]
pub(crate) enum Mark {
    /// It has not been there.
    Fresh,
    /// It goes on from there.
    Open,
    /// It has been wherever the node leads.
    Done,
}

/// Whether no way along the edges returns to where it began.
pub(crate) fn is_acyclic(alloc: Global, edges: &[Pile<usize>]) -> Result<bool, AllocError>
    requires { IsWithin edges.now }
    ensures { IfOk result (λ b. IsTrue b ↔ HasRank edges.now) }
{
    let mut marks = fresh_marks(alloc, edges)?;
    Ok(reach_all(edges, marks.as_mut_slice()))
}

fn fresh_marks(alloc: Global, edges: &[Pile<usize>]) -> Result<Vec<Mark>, AllocError>
    ensures size { IfOk result (λ v. length v.items ≡ length edges.now) }
    ensures none { IfOk result (λ v. HasNoOpen v.items) }
    ensures partly { IfOk result (λ v. IsPartly edges.now v.items) }
{
    let mut marks = Vec::new(alloc);
    for _edge in edges {
        marks.push(Mark::Fresh)?;
    }
    Ok(marks)
}

fn reach_all(edges: &[Pile<usize>], marks: &mut [Mark]) -> bool
    requires within { IsWithin edges.now }
    requires size { length marks.old ≡ length edges.now }
    requires none { HasNoOpen marks.old }
    requires partly { IsPartly edges.now marks.old }
    ensures { IsTrue result ↔ HasRank edges.now }
{
    for i in 0..edges.len() {
        if !reach(edges, marks, i) {
            return false;
        }
    }
    true
}

/// Goes wherever the node leads; false where that is back to a node from which the walk still goes
/// on.
fn reach(edges: &[Pile<usize>], marks: &mut [Mark], i: usize) -> bool
    requires within { IsWithin edges.now }
    requires size { length marks.old ≡ length edges.now }
    requires here { i < length edges.now }
    requires partly { IsPartly edges.now marks.old }
    ensures few { fresh marks.new ≤ fresh marks.old }
    ensures yes { result ≡ true → Reached edges.now i marks.old marks.new }
    ensures no { result ≡ false → NoWay edges.now i marks.old }
{
    match marks[i] {
        Mark::Done => return true,
        Mark::Open => return false,
        Mark::Fresh => {}
    }
    marks[i] = Mark::Open;
    let leads = edges[i].as_slice();
    for k in 0..leads.len() {
        if !reach(edges, marks, leads[k]) {
            return false;
        }
    }
    marks[i] = Mark::Done;
    true
}
