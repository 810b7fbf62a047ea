// The forest over a collection: trees of steps, over each output those of its kids.
ghost use Rattle.std.specs.Prelude.{◌≡◌, ◌++◌, ◌+◌, ◌<◌, ◌^◌, Some, IfOk, OnOk, map};
ghost use Rattle.exec_graph.specs.Forests.{Bare, after_out, grown, limb, new_out, numbered, twigs};
ghost use Rattle.exec_graph.specs.Twigs.{twig};
ghost use Rattle.graph_laws.specs.Joining.{beside};
ghost use Rattle.pardo_fuse.specs.Readers.{cut_of};
ghost use Rattle.pardo_fuse.specs.Fusing.{hanging, step_in};
ghost use Rattle.pardo_fuse.specs.inner.Growing as growing;
ghost use Rattle.pardo_fuse.specs.inner.Naming.{IsNamed, IsTreeNamed, labels, out_names, steps_at};
ghost use Rattle.pardo_fuse.specs.inner.Tables.{AreTables};

use crate::names::{Name, Naming};
use crate::parents::{kept_code, kids_on};
use crate::tables::Tables;
use exec_graph::{Blocked, Node, Output, Place, Step};
use node_index::find_node;
use std::alloc::{AllocError, Global};

/// A Pdo in a graph with its tables. Its trees grow in the node `lead`, with kids down to a number
/// of levels.
#[derive(Clone, Copy)]
struct Growth<'a> {
    blocked: &'a Blocked,
    tables: &'a Tables,
    lead: u32,
    number: u32,
    levels: usize,
}

/// The trees of these Pdos side by side, down to a number of levels.
#[cycle(grow)]
pub(crate) fn trees_of(
    alloc: Global,
    blocked: &Blocked,
    tables: &Tables,
    levels: usize,
    lead: u32,
    numbers: &[u32],
    naming: &mut Naming,
) -> Result<Vec<Step>, AllocError>
    requires tables { AreTables blocked.now tables.now }
    requires few { naming.old.next + labels (hanging (cut_of blocked.now) levels numbers.now)
        < 2 ^ 32 }
    ensures trees { IfOk result (λ v. grown v.items ≡ numbered naming.old.next
        (hanging (cut_of blocked.now) levels numbers.now)) }
    ensures named { OnOk result (IsNamed lead (hanging (cut_of blocked.now) levels numbers.now)
        naming.old.next naming.new.next naming.old.names.items naming.new.names.items) }
{
    let mut found = Vec::new(alloc);
    if levels == 0 {
        return Ok(found);
    }
    for number in numbers {
        let growth = Growth {
            blocked,
            tables,
            lead,
            number: *number,
            levels: levels - 1,
        };
        push_trees(alloc, &growth, &mut found, naming)?;
    }
    Ok(found)
}

/// Adds the trees of a Pdo.
#[cycle(grow)]
fn push_trees(
    alloc: Global,
    growth: &Growth<'_>,
    found: &mut Vec<Step>,
    naming: &mut Naming,
) -> Result<(), AllocError>
    requires tables { AreTables growth.now.blocked.now growth.now.tables.now }
    requires few { naming.old.next + labels (growing.trees growth.now
        (growing.steps_of growth.now)) < 2 ^ 32 }
    ensures trees { OnOk result (grown found.new.items ≡ beside (grown found.old.items)
        (numbered naming.old.next (growing.trees growth.now (growing.steps_of growth.now)))) }
    ensures named { OnOk result (IsNamed growth.now.lead
        (growing.trees growth.now (growing.steps_of growth.now)) naming.old.next naming.new.next
        naming.old.names.items naming.new.names.items) }
{
    for step in steps_at(growth.blocked, growth.tables, growth.number) {
        let tree = tree_of(alloc, growth, step, naming)?;
        found.push(tree)?;
    }
    Ok(())
}

/// The tree of a step of a Pdo.
#[cycle(grow)]
fn tree_of(
    alloc: Global,
    growth: &Growth<'_>,
    step: &Step,
    naming: &mut Naming,
) -> Result<Step, AllocError>
    requires tables { AreTables growth.now.blocked.now growth.now.tables.now }
    requires few { naming.old.next + labels (growing.trees growth.now (limb step.now Bare))
        < 2 ^ 32 }
    ensures tree { IfOk result (λ t. limb t Bare ≡ numbered naming.old.next
        (growing.trees growth.now (limb step.now Bare))) }
    ensures named { OnOk result (IsNamed growth.now.lead
        (growing.trees growth.now (limb step.now Bare)) naming.old.next naming.new.next
        naming.old.names.items naming.new.names.items) }
{
    let first = output_over(alloc, growth, step.first.number, naming)?;
    let more = outputs_over(alloc, growth, step, naming)?;
    Ok(Step::new(step.origin, step.last, step.does, first, more))
}

/// The outputs of a step behind its first, with what stands over them.
#[cycle(grow)]
fn outputs_over(
    alloc: Global,
    growth: &Growth<'_>,
    step: &Step,
    naming: &mut Naming,
) -> Result<Vec<Output>, AllocError>
    requires tables { AreTables growth.now.blocked.now growth.now.tables.now }
    requires few { naming.old.next + labels (growing.trees growth.now
        (twigs step.now 1 step.now.more Bare)) < 2 ^ 32 }
    ensures outputs { IfOk result (λ v. twigs step.now 1 (map twig v.items) Bare
        ≡ numbered naming.old.next (growing.trees growth.now
        (twigs step.now 1 step.now.more Bare))) }
    ensures named { OnOk result (IsNamed growth.now.lead
        (growing.trees growth.now (twigs step.now 1 step.now.more Bare)) naming.old.next
        naming.new.next naming.old.names.items naming.new.names.items) }
{
    let mut found = Vec::new(alloc);
    for output in &step.more {
        let made = output_over(alloc, growth, output.number, naming)?;
        found.push(made)?;
    }
    Ok(found)
}

/// An output of a Pdo's step with what stands over it.
#[cycle(grow)]
fn output_over(
    alloc: Global,
    growth: &Growth<'_>,
    out: Option<u32>,
    naming: &mut Naming,
) -> Result<Output, AllocError>
    requires tables { AreTables growth.now.blocked.now growth.now.tables.now }
    requires few { naming.old.next + (1 + labels (growing.over growth.now out)) < 2 ^ 32 }
    ensures output { IfOk result (λ o. twig o ≡ record {
      out = new_out naming.old.next (growing.name_of growth.now out);
      kids = numbered (after_out naming.old.next (growing.name_of growth.now out))
          (growing.over growth.now out);
    }) }
    ensures named { OnOk result (IsTreeNamed growth.now.lead (growing.name_of growth.now out)
        (growing.over growth.now out) naming.old.next naming.new.next
        naming.old.names.items naming.new.names.items) }
{
    let kids = kids_on(growth.blocked, growth.tables, growth.number, out);
    let name = name_output(growth, out, naming)?;
    let below = trees_of(
        alloc,
        growth.blocked,
        growth.tables,
        growth.levels,
        growth.lead,
        kids,
        naming,
    )?;
    Ok(Output::new(name, below))
}

/// Gives an output of a Pdo's step the next number in the forest of `lead`, where it is kept.
fn name_output(
    growth: &Growth<'_>,
    out: Option<u32>,
    naming: &mut Naming,
) -> Result<Option<u32>, AllocError>
    requires tables { AreTables growth.now.blocked.now growth.now.tables.now }
    requires few { naming.old.next + 1 < 2 ^ 32 }
    ensures out { IfOk result
        (λ o. o ≡ new_out naming.old.next (growing.name_of growth.now out)) }
    ensures next { OnOk result (naming.new.next
        ≡ after_out naming.old.next (growing.name_of growth.now out)) }
    ensures names { OnOk result (naming.new.names.items ≡ naming.old.names.items
        ++ out_names growth.now.lead naming.old.next (growing.name_of growth.now out)) }
{
    match kept_code(growth.blocked, growth.tables, growth.number, out) {
        Some(former) => give_name(growth.lead, former, naming),
        None => Ok(None),
    }
}

fn give_name(lead: u32, former: u64, naming: &mut Naming) -> Result<Option<u32>, AllocError>
    requires few { naming.old.next + 1 < 2 ^ 32 }
    ensures out { IfOk result (λ o. o ≡ Some naming.old.next) }
    ensures next { OnOk result (naming.new.next ≡ naming.old.next + 1) }
    ensures names { OnOk result (naming.new.names.items ≡ naming.old.names.items
        ++ out_names lead naming.old.next (Some former)) }
{
    let out = naming.next;
    naming.names.push(Name {
        former,
        place: Place { node: lead, out },
    })?;
    naming.next = out + 1;
    Ok(Some(out))
}

/// The steps of a Pdo.
pub(crate) fn steps_at<'a>(blocked: &'a Blocked, tables: &Tables, number: u32) -> &'a [Step]
    requires { AreTables blocked.now tables.now }
    ensures { grown result.now ≡ steps_at (cut_of blocked.now) number }
{
    match find_node(blocked.graph.nodes.as_slice(), &tables.index, number) {
        Some(node) => node_steps(node),
        None => &[],
    }
}

fn node_steps(node: &Node) -> &[Step]
    ensures { grown result.now ≡ step_in (Some node.now) }
{
    match node {
        Node::Pdo { roots, .. } => roots.steps(),
        Node::Source(_) | Node::Flatten(_) | Node::Gbk { .. } | Node::Barrier { .. } => &[],
    }
}
