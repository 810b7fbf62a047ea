// What the meaning of a graph reads is there.
ghost use Rattle.std.specs.List.{AllByRecursion};
ghost use Rattle.exec_graph.specs.Meaning.{IsSound, collection};
ghost use Rattle.exec_graph.specs.Typing.{IsTypedBy, IsWorldTyped, Signatures};
ghost use Rattle.exec_graph.specs.World.{World};
ghost use Rattle.exec_graph.specs.declared.graph.Graph.{Graph};
ghost use Rattle.exec_graph.specs.declared.graph.Place.{Place};
ghost use Rattle.flume_types.specs.declared.types.Ty.{Ty};
ghost use Rattle.no_defaults.specs.Steps.{NodeFinds};

/// In a graph whose types fit, over a typed world, each step is given members of the form that it
/// takes, and answers with a list for the output that it stands for; and each group is of pairs
/// alone.
pub fn graph_law()
    ensures { (s : Signatures) (w : World) (g : Graph) (types : Place → Ty) → IsSound g →
        IsTypedBy s g types → IsWorldTyped s w →
        AllByRecursion (λ e. NodeFinds w (collection w g) e.node) g.nodes }
{}
