// How many outputs a forest has, and how many results a stage gives.
ghost use Rattle.std.specs.Prelude.{◌≡◌, ◌-◌, ◌^◌, min};
ghost use Rattle.exec_graph.specs.Twigs.{twig};
ghost use Rattle.exec_plan.specs.Wellformed.{outputs_told, out_count, count_of_outputs, stage_width, results_given, widths};
ghost use Rattle.plan_checks.specs.inner.Counts.{branch_kept, twig_kept};

use exec_graph::{Output, Roots, Step};
use exec_plan::{OutChannel, Stage};

/// How many outputs a forest has, or the identity.
pub(crate) fn count_outs(does: &Option<Roots>) -> u64
    ensures { result ≡ min (count_of_outputs does.now) (2 ^ 64 - 1) }
{
    match does {
        None => 1,
        Some(roots) => count_roots(roots),
    }
}

/// How many outputs are kept, or the greatest number where there are more.
fn count_roots(roots: &Roots) -> u64
    ensures { result ≡ min (outputs_told roots.now) (2 ^ 64 - 1) }
{
    let mut count: u64 = 0;
    for step in roots.steps() {
        count = count.saturating_add(count_step(step));
    }
    count
}

#[cycle(count)]
fn count_step(step: &Step) -> u64
    ensures { result ≡ min (branch_kept step.now) (2 ^ 64 - 1) }
{
    let mut count = count_output(&step.first);
    for output in &step.more {
        count = count.saturating_add(count_output(output));
    }
    count
}

#[cycle(count)]
fn count_output(output: &Output) -> u64
    ensures { result ≡ min (twig_kept (twig output.now)) (2 ^ 64 - 1) }
{
    let mut count = count_out(output.number);
    for kid in &output.kids {
        count = count.saturating_add(count_step(kid));
    }
    count
}

fn count_out(number: Option<u32>) -> u64
    ensures { result ≡ out_count number }
{
    match number {
        None => 0,
        Some(_) => 1,
    }
}

/// How many results a channel gives.
pub(crate) fn width_of(channel: &OutChannel) -> u64
    ensures { result ≡ min (results_given channel.now) (2 ^ 64 - 1) }
{
    match channel {
        OutChannel::Group(group) => count_outs(&group.does),
        OutChannel::Pass(_, _) => 1,
    }
}

/// How many results a stage gives.
pub(crate) fn stage_width(stage: &Stage) -> u64
    ensures { result ≡ min (stage_width stage.now) (2 ^ 64 - 1) }
{
    match stage {
        Stage::Mscr(mscr) => widths_of(mscr.outputs.as_slice()),
        Stage::Flatten(_) | Stage::Operate(_, _, _, _) => 1,
    }
}

fn widths_of(channels: &[OutChannel]) -> u64
    ensures { result ≡ min (widths channels.now) (2 ^ 64 - 1) }
{
    let mut count: u64 = 0;
    for channel in channels {
        count = count.saturating_add(width_of(channel));
    }
    count
}
