// The graph between two rewrites: as it is, or under names while Pdos become one.
ghost use Rattle.std.specs.Prelude.{◌≡◌, IfOk, IfSome};
ghost use Rattle.exec_graph.specs.Wellformed.{IsGraphOk};
ghost use Rattle.graph_joins.specs.Sessions.{IsSession};
ghost use Rattle.graph_joins.specs.of_graph_names.Names.{unnamed};
ghost use Rattle.graph_rewrites.specs.declared.rewrite.Rewrite.TheVariants as rewrite;
ghost use Rattle.graph_rewriting.specs.Applied.{IsApplied};
ghost use Rattle.graph_rewriting.specs.inner.Standings as spec;

use crate::applying::apply;
use exec_graph::{Blocked, Place};
use flume_value::Pile;
use graph_joining::Kid;
use graph_joins::{Joins, begin, end, is_pair, read_name, with_kid, with_sibling};
use graph_rewrites::Rewrite;
use std::alloc::{AllocError, Global};

/// A graph with its marks, where kids and siblings are made with no pass over the nodes each.
#[derive(Drop)]
pub(crate) enum Standing {
    Plain(Blocked),
    /// Under names, with the marks.
    Joined(Joins, Pile<Place>),
}

/// The graph with its marks.
pub(crate) fn ended(alloc: Global, now: Standing) -> Result<Blocked, AllocError>
    ensures { IfOk result (λ b. b ≡ spec.blocked_of now) }
{
    match now {
        Standing::Plain(blocked) => Ok(blocked),
        Standing::Joined(joins, marks) => {
            let graph = end(alloc, joins)?;
            Ok(Blocked { graph, marks })
        }
    }
}

/// The graph under names, with its marks.
#[derive(Drop)]
struct Begun {
    joins: Joins,
    marks: Pile<Place>,
}

fn under_names(alloc: Global, now: Standing) -> Result<Begun, AllocError>
    requires ok { IsGraphOk (spec.blocked_of now).graph }
    requires standing { spec.IsStanding now }
    ensures session { IfOk result (λ b. IsSession b.joins) }
    ensures graph { IfOk result (λ b. unnamed b.joins.graph ≡ (spec.blocked_of now).graph) }
    ensures marks { IfOk result (λ b. b.marks ≡ (spec.blocked_of now).marks) }
{
    match now {
        Standing::Plain(blocked) => {
            let Blocked { graph, marks } = blocked;
            let joins = begin(alloc, graph)?;
            Ok(Begun { joins, marks })
        }
        Standing::Joined(joins, marks) => Ok(Begun { joins, marks }),
    }
}

/// The graph with its marks after the rewrite, or none where it may not be made.
pub(crate) fn applied(
    alloc: Global,
    now: Standing,
    rewrite: Rewrite,
) -> Result<Option<Standing>, AllocError>
    requires ok { IsGraphOk (spec.blocked_of now).graph }
    requires standing { spec.IsStanding now }
    ensures applied { IfOk result (λ made.
        IsApplied (spec.blocked_of now) rewrite (spec.shown made)) }
    ensures standing { IfOk result (λ made. IfSome made (λ s. spec.IsStanding s)) }
{
    match rewrite {
        Rewrite::Kid {
            keeper,
            output,
            reader,
        } => {
            let own = Kid {
                keeper,
                output,
                reader,
            };
            kid(alloc, now, own)
        }
        Rewrite::Sibling { keeper, other } => sibling(alloc, now, keeper, other),
        _ => plainly(alloc, now, rewrite),
    }
}

/// The same of the graph as it is.
fn plainly(alloc: Global, now: Standing, rewrite: Rewrite) -> Result<Option<Standing>, AllocError>
    requires { IsGraphOk (spec.blocked_of now).graph }
    ensures applied { IfOk result (λ made.
        IsApplied (spec.blocked_of now) rewrite (spec.shown made)) }
    ensures standing { IfOk result (λ made. IfSome made (λ s. spec.IsStanding s)) }
{
    let blocked = ended(alloc, now)?;
    match apply(alloc, blocked, rewrite)? {
        Some(next) => Ok(Some(Standing::Plain(next))),
        None => Ok(None),
    }
}

fn sibling(
    alloc: Global,
    now: Standing,
    keeper: u32,
    other: u32,
) -> Result<Option<Standing>, AllocError>
    requires ok { IsGraphOk (spec.blocked_of now).graph }
    requires standing { spec.IsStanding now }
    ensures applied { IfOk result (λ made.
        IsApplied (spec.blocked_of now) (rewrite.Sibling keeper other) (spec.shown made)) }
    ensures standing { IfOk result (λ made. IfSome made (λ s. spec.IsStanding s)) }
{
    let Begun { joins, marks } = under_names(alloc, now)?;
    if !is_pair(&joins, keeper, other) {
        let under = Standing::Joined(joins, marks);
        return plainly(alloc, under, Rewrite::Sibling { keeper, other });
    }
    let next = with_sibling(alloc, joins, keeper, other)?;
    Ok(Some(Standing::Joined(next, marks)))
}

fn kid(alloc: Global, now: Standing, kid: Kid) -> Result<Option<Standing>, AllocError>
    requires ok { IsGraphOk (spec.blocked_of now).graph }
    requires standing { spec.IsStanding now }
    ensures applied { IfOk result (λ made. IsApplied (spec.blocked_of now)
        (rewrite.Kid kid.keeper kid.output kid.reader) (spec.shown made)) }
    ensures standing { IfOk result (λ made. IfSome made (λ s. spec.IsStanding s)) }
{
    let Begun { joins, marks } = under_names(alloc, now)?;
    match read_name(&joins, kid) {
        Some(name) => {
            let next = with_kid(alloc, joins, kid, name)?;
            Ok(Some(Standing::Joined(next, marks)))
        }
        None => {
            let under = Standing::Joined(joins, marks);
            let Kid {
                keeper,
                output,
                reader,
            } = kid;
            let own = Rewrite::Kid {
                keeper,
                output,
                reader,
            };
            plainly(alloc, under, own)
        }
    }
}
