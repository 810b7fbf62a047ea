//! Pdos of a graph become one, many of them one after another.
//!
//! `begin` tells a graph under names (graph_names), in which a sibling or a kid changes no place
//! that others read (graph_states); `end` tells it without them. In between `is_pair` and
//! `read_name` say whether two Pdos may become one, and `with_sibling` and `with_kid` make one of
//! them: what comes of it, without names, is what the rewrite makes (specs/Sessions.antt). So a
//! list of rewrites is made with one pass at its beginning and one at its end; in between a Pdo
//! that is taken in leaves its place empty, so that no node is moved. A kid looks its
//! output up in the list of the names that its keeper keeps, and goes the way to it, which is a
//! hint that is looked at where it ends; only where that fails does it go over the steps of its
//! keeper.
#![tactic(auto)]

mod counts;
mod graphs;
mod hanging;
mod lists;
mod names;
mod putting;
mod seeking;
mod session;
mod taking;
mod ways;

pub use graphs::NamedGraph;
pub use names::Names;
pub use session::{Joins, Tables, begin, end, is_pair, read_name, with_kid, with_sibling};
