// Whose own bags the outputs of a channel's steps are.
ghost use Rattle.std.specs.Prelude.{◌≡◌, ◌++◌, ◌∷◌, IfOk, OnOk};
ghost use Rattle.exec_graph.specs.Forests.{grown};
ghost use Rattle.exec_graph.specs.World.{World};
ghost use Rattle.task_lists.specs.Outs.{kept_counts};
ghost use Rattle.task_lists.specs.Plans.{steps_count};
ghost use Rattle.task_lists.specs.Tasks.{Task};
ghost use Rattle.step_counts.specs.Owners.{owners_in, owners_of};
ghost use Rattle.step_counts.specs.Sizes.{HaveGrown};
ghost use Rattle.step_counts.specs.inner.Owned.{branch_owners, owner_at};

use crate::sizes::add_all;
use exec_graph::{Output, Roots, Step};
use std::alloc::{AllocError, Global};
use std::marker::Model;

/// Of each output of the steps of a channel, in preorder, the script node whose own bag it is, or
/// none. Contracts see the list.
#[derive(Drop)]
pub struct Owners {
    nodes: Vec<Option<u64>>,
}

impl Model for Owners {
    ghost use Rattle.std.specs.Prelude.{ℕ, List, Option};

    ghost Value = { List (Option ℕ) };

    ghost view = { λ o. o.nodes.items };
}

impl Owners {
    /// Those of the outputs of these steps.
    pub fn new(alloc: Global, does: &Option<Roots>) -> Result<Owners, AllocError>
        ensures { IfOk result (λ owners. owners ≡ owners_of does.now) }
    {
        let mut nodes = Vec::new(alloc);
        if let Some(roots) = does {
            push_roots(roots, &mut nodes)?;
        }
        Ok(Owners { nodes })
    }

    /// Adds what the steps of a task have counted, output by output, to the sizes of script nodes.
    pub fn add_steps(&self, counts: &[u64], sizes: &mut [u64])
        ensures { (w : World) (task : Task) → self.now ≡ owners_of task.does →
            counts.now ≡ kept_counts w task →
            HaveGrown (λ i. steps_count w i task) sizes.old sizes.new }
    {
        add_all(&self.nodes, counts, sizes);
    }
}

fn push_roots(roots: &Roots, nodes: &mut Vec<Option<u64>>) -> Result<(), AllocError>
    ensures { OnOk result (nodes.new.items ≡ nodes.old.items ++ owners_in roots.now) }
{
    for step in roots.steps() {
        push_step(step, nodes)?;
    }
    Ok(())
}

#[cycle(push)]
fn push_step(step: &Step, nodes: &mut Vec<Option<u64>>) -> Result<(), AllocError>
    ensures { OnOk result (nodes.new.items ≡ nodes.old.items ++ branch_owners step.now) }
{
    push_output(owner_of(step, 0), &step.first, nodes)?;
    for (at, output) in step.more.iter().enumerate() {
        push_output(owner_of(step, at as u64 + 1), output, nodes)?;
    }
    Ok(())
}

#[cycle(push)]
fn push_output(
    owner: Option<u64>,
    output: &Output,
    nodes: &mut Vec<Option<u64>>,
) -> Result<(), AllocError>
    ensures { OnOk result (nodes.new.items
        ≡ nodes.old.items ++ (owner ∷ owners_in (grown output.now.kids.items))) }
{
    nodes.push(owner)?;
    for kid in &output.kids {
        push_step(kid, nodes)?;
    }
    Ok(())
}

// The script node whose own bag the step's output of that place is.
fn owner_of(step: &Step, at: u64) -> Option<u64>
    ensures { result ≡ owner_at step.now at }
{
    if step.last {
        Some(u64::from(step.origin).saturating_add(at))
    } else {
        None
    }
}
