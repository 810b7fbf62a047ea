// Whether each Pdo has one step with few outputs, as a test before a call of `fuse`.
ghost use Rattle.std.specs.Prelude.{◌≡◌, ◌↔◌, ◌==◌, IsTrue, length};
ghost use Rattle.std.specs.List.{AllByRecursion, list_all};
ghost use Rattle.graph_laws.specs.Single.{HasNarrowSteps, IsUnfused};
ghost use Rattle.pardo_fuse.specs.inner.Narrow.{IsNarrow, is_short, one_short};

use exec_graph::{Entry, Graph, Node, Output, Step};

/// How many outputs a step has at most.
const MOST_OUTPUTS: usize = 8;

/// Whether each Pdo has one step, which has few outputs, as `fuse` takes them.
pub fn has_narrow_steps(graph: &Graph) -> bool
    ensures { IsTrue result ↔ (IsUnfused graph.now × HasNarrowSteps graph.now) }
{
    are_narrow(graph.nodes.as_slice())
}

fn are_narrow(nodes: &[Entry]) -> bool
    ensures { IsTrue result ↔ AllByRecursion (λ e. IsNarrow e.node) nodes.now }
{
    for entry in nodes {
        if !is_narrow(&entry.node) {
            return false;
        }
    }
    true
}

fn is_narrow(node: &Node) -> bool
    ensures { IsTrue result ↔ IsNarrow node.now }
{
    match node {
        Node::Pdo { roots, .. } => is_one_short(roots.steps()),
        Node::Source(_) | Node::Flatten(_) | Node::Gbk { .. } | Node::Barrier { .. } => true,
    }
}

/// Whether this is one step, with few outputs and none on them.
fn is_one_short(steps: &[Step]) -> bool
    ensures { result ≡ one_short steps.now }
{
    match steps {
        [step] => is_short(step),
        _ => false,
    }
}

fn is_short(step: &Step) -> bool
    ensures { result ≡ is_short step.now }
{
    if !step.first.kids.is_empty() {
        return false;
    }
    if !are_bare(step.more.as_slice()) {
        return false;
    }
    step.more.len() < MOST_OUTPUTS
}

/// Whether there are no steps on the outputs.
fn are_bare(outputs: &[Output]) -> bool
    ensures { result ≡ list_all (λ o. length o.kids.items == 0) outputs.now }
{
    outputs.iter().all(|output| output.kids.is_empty())
}
