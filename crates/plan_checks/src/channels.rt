// Whether the output channels of a stage take what is there, and number their results.
ghost use Rattle.std.specs.Prelude.{◌≡◌, ◌-◌, ◌==◌, ◌||◌, ◌^◌, ℕ, false, min};
ghost use Rattle.std.specs.List.{list_all};
ghost use Rattle.exec_plan.specs.Wellformed.{is_pass};
ghost use Rattle.plan_checks.specs.inner.Tests.{combines_by, exists_test, group_test, lift_test, out_test, outs_test};

use crate::counts::{count_outs, width_of};
use crate::numbers::is_numbered;
use combine_table::Comb;
use exec_graph::{Roots, root_comb};
use exec_plan::{Grouping, InChannel, OutChannel, Take};

/// Whether grouping channels stand before pass-through channels, their results are numbered over
/// them, and all that they take is there.
pub(crate) fn are_outs_ok(inputs: &[InChannel], outputs: &[OutChannel]) -> bool
    ensures { result ≡ outs_test inputs.now false 0 outputs.now }
{
    let mut passed = false;
    let mut count: u64 = 0;
    for channel in outputs {
        if !is_out_ok(inputs, passed, count, channel) {
            return false;
        }
        passed = has_passed(passed, channel);
        count = count.saturating_add(width_of(channel));
    }
    true
}

/// Whether a channel after that many results is well-formed.
fn is_out_ok(inputs: &[InChannel], passed: bool, count: u64, channel: &OutChannel) -> bool
    ensures { (k : ℕ) → count ≡ min k (2 ^ 64 - 1) →
        result ≡ out_test inputs.now passed k channel.now }
{
    match channel {
        OutChannel::Group(group) => is_group_ok(inputs, passed, count, group),
        OutChannel::Pass(take, number) => is_number(*number, count) && exists(inputs, *take),
    }
}

fn is_group_ok(inputs: &[InChannel], passed: bool, count: u64, group: &Grouping) -> bool
    ensures { (k : ℕ) → count ≡ min k (2 ^ 64 - 1) →
        result ≡ group_test inputs.now passed k group.now }
{
    !passed
        && is_number(group.first, count)
        && all_exist(inputs, group.takes.as_slice())
        && is_numbered(&group.does)
        && is_lift_ok(group.lifted, &group.does)
}

/// Whether the number is this count, which stands at the greatest number where there are more.
fn is_number(number: u32, count: u64) -> bool
    ensures { (k : ℕ) → count ≡ min k (2 ^ 64 - 1) → result ≡ (number == k) }
{
    u64::from(number) == count
}

fn all_exist(inputs: &[InChannel], takes: &[Take]) -> bool
    ensures { result ≡ list_all (exists_test inputs.now) takes.now }
{
    takes.iter().all(|take| exists(inputs, *take))
}

/// Whether an input channel has the output.
fn exists(inputs: &[InChannel], take: Take) -> bool
    ensures { result ≡ exists_test inputs.now take }
{
    match inputs.get(take.channel as usize) {
        None => false,
        Some(channel) => u64::from(take.out) < count_outs(&channel.does),
    }
}

/// Whether the reducer of a lifted channel has one root, a step of the channel's combiner.
fn is_lift_ok(lifted: Option<Comb>, does: &Option<Roots>) -> bool
    ensures { result ≡ lift_test lifted does.now }
{
    match (lifted, does) {
        (None, _) => true,
        (Some(_), None) => false,
        (Some(comb), Some(roots)) => combines_by(comb, root_comb(roots)),
    }
}

fn combines_by(comb: Comb, root: Option<Comb>) -> bool
    ensures { result ≡ combines_by comb root }
{
    match root {
        None => false,
        Some(root) => root == comb,
    }
}

fn has_passed(passed: bool, channel: &OutChannel) -> bool
    ensures { result ≡ (passed || is_pass channel.now) }
{
    match channel {
        OutChannel::Group(_) => passed,
        OutChannel::Pass(_, _) => true,
    }
}
