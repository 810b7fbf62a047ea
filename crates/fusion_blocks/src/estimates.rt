// How many elements each collection has, by estimate.
ghost use Rattle.std.specs.Prelude.{◌≡◌, ◌*◌, ◌/◌, ℕ, map, IfOk, OnOk};
ghost use Rattle.exec_graph.specs.declared.graph.Place.{Place as GhostPlace};
ghost use Rattle.fusion_blocks.specs.Estimates.{act_estimate, AreEstimates, capped, estimate, scale_of, step_scale, sum_of};
ghost use Rattle.exec_graph.specs.declared.graph.Act.TheVariants.{SideInput};
ghost use Rattle.node_index.specs.Index.{IsIndex};
ghost use Rattle.fusion_blocks.specs.inner.Tables.{AllBelow, Fills, Has, HasAll, IsBelow, IsPartly, IsRanked, known, table};

use exec_graph::{Act, Does, Entry, Node, Place, Roots};
use node_index::{find_node, reads_of};
use std::alloc::{AllocError, Global};
use std::collections::HashMap;

/// The estimate of a source.
const SOURCE: u64 = 1000000;

/// What a step gives of a hundred elements, where nothing is said.
const WHOLE: u32 = 100;

/// The estimate of a node, 0 where it is not known.
pub(crate) fn known(estimates: &HashMap<u32, u64>, node: u32) -> u64
    ensures { result ≡ known estimates.now node }
{
    match estimates.get(&node) {
        Some(estimate) => *estimate,
        None => 0,
    }
}

/// The estimates of all nodes, by their numbers. Each is worked out once.
pub(crate) fn estimates_of(
    alloc: Global,
    scales: &[u32],
    nodes: &[Entry],
    index: &HashMap<u32, usize>,
) -> Result<HashMap<u32, u64>, AllocError>
    requires index { IsIndex index.now nodes.now }
    requires founded { IsRanked nodes.now }
    ensures { IfOk result (λ m. AreEstimates scales.now nodes.now (known m)) }
{
    let mut estimates = HashMap::new(alloc);
    for e in nodes {
        fill(
            scales,
            nodes,
            index,
            nodes.len() + 1,
            e.number,
            &mut estimates,
        )?;
    }
    Ok(estimates)
}

/// Makes known the estimate of a node, and before it those of all that it reads.
#[cycle(fill)]
fn fill(
    scales: &[u32],
    nodes: &[Entry],
    index: &HashMap<u32, usize>,
    turns: usize,
    number: u32,
    estimates: &mut HashMap<u32, u64>,
) -> Result<(), AllocError>
    requires index { IsIndex index.now nodes.now }
    requires below { IsBelow nodes.now turns number }
    requires partly { IsPartly scales.now nodes.now (table estimates.old) }
    ensures fills { OnOk result
        (Fills scales.now nodes.now (table estimates.old) (table estimates.new)) }
    ensures has { OnOk result (Has (table estimates.new) number) }
{
    if estimates.contains_key(&number) {
        return Ok(());
    }
    if let Some(node) = find_node(nodes, index, number) {
        fill_all(scales, nodes, index, turns - 1, reads_of(node), estimates)?;
        let estimate = estimate_of(scales, estimates, node);
        estimates.insert(number, estimate)?;
    }
    Ok(())
}

/// Makes known the estimates of the nodes of these collections, and of all that they rest on.
#[cycle(fill)]
fn fill_all(
    scales: &[u32],
    nodes: &[Entry],
    index: &HashMap<u32, usize>,
    turns: usize,
    places: &[Place],
    estimates: &mut HashMap<u32, u64>,
) -> Result<(), AllocError>
    requires index { IsIndex index.now nodes.now }
    requires below { AllBelow nodes.now turns places.now }
    requires partly { IsPartly scales.now nodes.now (table estimates.old) }
    ensures fills { OnOk result
        (Fills scales.now nodes.now (table estimates.old) (table estimates.new)) }
    ensures has { OnOk result (HasAll (table estimates.new) places.now) }
{
    for c in places {
        fill(scales, nodes, index, turns, c.node, estimates)?;
    }
    Ok(())
}

/// The estimate of a node, by those of the nodes that it reads.
fn estimate_of(scales: &[u32], estimates: &HashMap<u32, u64>, node: &Node) -> u64
    ensures { result ≡ estimate scales.now (known estimates.now) node.now }
{
    match node {
        Node::Source(_) => SOURCE,
        Node::Flatten(inputs) => sum_of(estimates, inputs.as_slice()),
        Node::Pdo { input: c, roots } => scaled(known(estimates, c.node), scale_of(scales, roots)),
        Node::Gbk { input: c, .. } => known(estimates, c.node),
        Node::Barrier { inputs, act, .. } => {
            act_estimate(scales, estimates, *act, inputs.as_slice())
        }
    }
}

fn sum_of(estimates: &HashMap<u32, u64>, inputs: &[Place]) -> u64
    ensures { result ≡ capped
        (sum_of (map (λ (c : GhostPlace). known estimates.now c.node) inputs.now)) }
{
    let mut sum: u64 = 0;
    for c in inputs {
        sum = sum.saturating_add(known(estimates, c.node));
    }
    sum
}

/// So many hundredths of a number, or the greatest number where they are more.
fn scaled(n: u64, scale: u32) -> u64
    ensures { result ≡ capped (n * scale / 100) }
{
    let whole = u128::from(n) * u128::from(scale) / 100;
    if whole < 18446744073709551615 {
        whole as u64
    } else {
        18446744073709551615
    }
}

/// The scale of a Pdo: that of its first step.
fn scale_of(scales: &[u32], roots: &Roots) -> u32
    ensures { result ≡ scale_of scales.now roots.now }
{
    let steps = roots.steps();
    if steps.is_empty() {
        return WHOLE;
    }
    let first = &steps[0];
    step_scale(scales, first.does)
}

/// What a step gives of a hundred elements.
fn step_scale(scales: &[u32], does: Does) -> u32
    ensures { result ≡ step_scale scales.now does }
{
    match does {
        Does::Call(function) => match scales.get(function as usize) {
            Some(scale) => *scale,
            None => WHOLE,
        },
        _ => WHOLE,
    }
}

/// The estimate of what is made of whole collections.
fn act_estimate(scales: &[u32], estimates: &HashMap<u32, u64>, act: Act, inputs: &[Place]) -> u64
    ensures { result ≡ act_estimate scales.now act
        (map (λ (c : GhostPlace). known estimates.now c.node) inputs.now) }
{
    match act {
        Act::SideInput(function) => side_estimate(scales, estimates, function, inputs),
        Act::Operate(_) | Act::Singleton(_) => sum_of(estimates, inputs),
    }
}

fn side_estimate(
    scales: &[u32],
    estimates: &HashMap<u32, u64>,
    function: u32,
    inputs: &[Place],
) -> u64
    ensures { result ≡ act_estimate scales.now (SideInput function)
        (map (λ (c : GhostPlace). known estimates.now c.node) inputs.now) }
{
    if inputs.is_empty() {
        return 0;
    }
    let first = inputs[0];
    scaled(
        known(estimates, first.node),
        step_scale(scales, Does::Call(function)),
    )
}
