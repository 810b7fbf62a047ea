// A graph, and how it was come to.
use exec_graph::Graph;
use flume_value::Pile;
use graph_rewrites::Rewrite;

/// A graph, with the rewrites that led to it.
#[derive(Drop)]
pub struct Trace {
    pub graph: Graph,
    pub rewrites: Pile<Rewrite>,
}
