// Rewrites of a graph, one step each.

/// A rewrite of a graph. Its numbers are those of nodes, and of their outputs, in the graph as it
/// stands when the rewrite is made.
#[derive(Clone, Copy, PartialEq, Eq, Drop)]
pub enum Rewrite {
    /// The inputs of the Flatten `inner` go in place of it, among those of the Flatten `outer`.
    Merge {
        outer: u32,
        inner: u32,
    },
    /// The Pdo goes below the Flatten that it reads.
    Sink {
        flatten: u32,
        pdo: u32,
    },
    /// The group is lifted, with the combiner of its reader.
    Lift {
        group: u32,
    },
    /// The roots of the Pdo `reader` become the last kids of the output of `keeper` that it reads.
    Kid {
        keeper: u32,
        output: u32,
        reader: u32,
    },
    /// The roots of the Pdo `other` follow those of the Pdo `keeper`, which reads the same.
    Sibling {
        keeper: u32,
        other: u32,
    },
    /// The output of the node is marked, so that its readers are not fused with what gives it.
    Mark {
        node: u32,
        output: u32,
    },
}
