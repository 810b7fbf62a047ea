// Laws of outputs that have readers, and of weights that each merge and each step lowers.
ghost use Rattle.std.specs.Prelude.{◌≡◌, ◌<◌, ℕ, List, Some, true};
ghost use Rattle.sink_laws.specs.of_exec_graph.Forests.{Forest};
ghost use Rattle.sink_laws.specs.of_exec_graph.Meaning.{node_at, place};
ghost use Rattle.sink_laws.specs.of_exec_graph.Readers.{is_read};
ghost use Rattle.sink_laws.specs.of_exec_graph.Wellformed.{IsGraphOk};
ghost use Rattle.sink_laws.specs.of_exec_graph.declared.graph.Graph.{Graph};
ghost use Rattle.sink_laws.specs.of_exec_graph.declared.graph.Node.{Node as GhostNode};
ghost use Rattle.sink_laws.specs.of_exec_graph.declared.graph.Node.TheVariants as node;
ghost use Rattle.sink_laws.specs.of_exec_graph.declared.graph.Place.{Place};
ghost use Rattle.sink_laws.specs.of_graph_laws.Single.{HasSingleOutputs};
ghost use Rattle.sink_laws.specs.Chain.{IsSunk};
ghost use Rattle.sink_laws.specs.Merging.{CanMerge, merge_step};
ghost use Rattle.sink_laws.specs.Sinking.{CanSink, outputs_of, sink_step, sunk_once};
ghost use Rattle.sink_weights.specs.Outputs.{from, numbers_kept, read_outputs, sunk_single};
ghost use Rattle.sink_weights.specs.Weights.{node_weight, total_weight, weight};

/// The outputs of a Pdo that have a reader are all that are numbered, and they are numbered from 0
/// on in their order. So a step makes a Flatten of each output that has a reader, in order.
pub fn outputs_law()
    ensures numbered { (g : Graph) (p : ℕ) (c : Place) (f : Forest) → IsGraphOk g →
        node_at g.nodes p ≡ Some (node.Pdo c f) → numbers_kept f ≡ from 0 (outputs_of f) }
    ensures read { (g : Graph) (p : ℕ) (c : Place) (f : Forest) → IsGraphOk g →
        node_at g.nodes p ≡ Some (node.Pdo c f) → read_outputs g p f ≡ numbers_kept f }
{}

/// The step on a Pdo with one output makes it the Flatten of its copies, under its number, and
/// nothing else reads anything else than before. So it is with all Pdos that are read, where each
/// has one step with one output.
pub fn single_law()
    ensures step { (g : Graph) (n p : ℕ) (f : Forest) (ins : List Place) → IsGraphOk g →
        CanSink g n p f ins → outputs_of f ≡ 1 → sunk_once g p f ins ≡ sunk_single g p f ins }
    ensures one { (g : Graph) (p j : ℕ) (c : Place) (f : Forest) → IsGraphOk g →
        HasSingleOutputs g → node_at g.nodes p ≡ Some (node.Pdo c f) →
        is_read g (place p j) ≡ true → outputs_of f ≡ 1 }
{}

/// The weights of nodes are what they must be. Each merge and each step lowers the weight of the
/// script outputs and of the nodes that nothing reads, so that sinking ends, in just one graph.
pub fn weight_law()
    ensures weighs { (g : Graph) (n : ℕ) (x : GhostNode) → IsGraphOk g →
        node_at g.nodes n ≡ Some x → weight g.nodes n ≡ node_weight (weight g.nodes) x }
    ensures merge { (g : Graph) (f : ℕ) (ins : List Place) (e : ℕ) (es : List Place) →
        IsGraphOk g → CanMerge g f ins e es →
        total_weight (merge_step g f ins e es) < total_weight g }
    ensures step { (g : Graph) (n p : ℕ) (f : Forest) (ins : List Place) → IsGraphOk g →
        CanSink g n p f ins → total_weight (sink_step g n p f ins) < total_weight g }
    ensures ends { (g : Graph) → IsGraphOk g → (h : Graph) × IsSunk g h }
    ensures one { (g h i : Graph) → IsSunk g h → IsSunk g i → h ≡ i }
{}
