// Whether each stage reads what is made before it, by channels that are not too many.
ghost use Rattle.std.specs.Prelude.{◌≡◌, ◌-◌, ◌^◌, [], min};
ghost use Rattle.std.specs.List.{list_all};
ghost use Rattle.exec_plan.specs.Meaning.{object_places};
ghost use Rattle.exec_plan.specs.Wellformed.{results_at};
ghost use Rattle.plan_checks.specs.inner.Tests.{in_test, made_test, mscr_test, stage_test, stages_test};

use crate::channels::are_outs_ok;
use crate::counts::stage_width;
use crate::numbers::is_numbered;
use exec_plan::{InChannel, Mscr, PlanPlace, Stage};

/// How many input channels, and how many output channels, a stage may have.
const MOST_CHANNELS: usize = 131072;

pub(crate) fn are_made(sources: u32, before: &[Stage], places: &[PlanPlace]) -> bool
    ensures { result ≡ list_all (made_test sources before.now) places.now }
{
    places.iter().all(|place| is_made(sources, before, *place))
}

/// Whether the place is a source, or a result of one of the stages before.
fn is_made(sources: u32, before: &[Stage], place: PlanPlace) -> bool
    ensures { result ≡ made_test sources before.now place }
{
    match place {
        PlanPlace::Source(number) => number < sources,
        PlanPlace::Result { stage, number } => u64::from(number) < results_at(before, stage),
    }
}

/// How many results the stage of that number gives.
fn results_at(stages: &[Stage], number: u32) -> u64
    ensures { result ≡ min (results_at stages.now number) (2 ^ 64 - 1) }
{
    if number == 0 {
        return 0;
    }
    match stages.get((number - 1) as usize) {
        None => 0,
        Some(stage) => stage_width(stage),
    }
}

/// Whether each stage is well-formed after those before it.
pub(crate) fn are_stages_ok(sources: u32, stages: &[Stage]) -> bool
    ensures { result ≡ stages_test sources [] stages.now }
{
    for (i, stage) in stages.iter().enumerate() {
        if !is_stage_ok(sources, &stages[..i], stage) {
            return false;
        }
    }
    true
}

fn is_stage_ok(sources: u32, before: &[Stage], stage: &Stage) -> bool
    ensures { result ≡ stage_test sources before.now stage.now }
{
    match stage {
        Stage::Mscr(mscr) => is_mscr_ok(sources, before, mscr),
        Stage::Flatten(takes) => are_made(sources, before, takes.as_slice()),
        Stage::Operate(takes, _, _, _) => are_made(sources, before, takes.as_slice()),
    }
}

fn is_mscr_ok(sources: u32, before: &[Stage], mscr: &Mscr) -> bool
    ensures { result ≡ mscr_test sources before.now mscr.now }
{
    let inputs = mscr.inputs.as_slice();
    let outputs = mscr.outputs.as_slice();
    !inputs.is_empty()
        && inputs.len() <= MOST_CHANNELS
        && outputs.len() <= MOST_CHANNELS
        && are_ins_ok(sources, before, inputs)
        && are_outs_ok(inputs, outputs)
}

fn are_ins_ok(sources: u32, before: &[Stage], inputs: &[InChannel]) -> bool
    ensures { result ≡ list_all (in_test sources before.now) inputs.now }
{
    inputs
        .iter()
        .all(|channel| is_in_ok(sources, before, channel))
}

fn is_in_ok(sources: u32, before: &[Stage], channel: &InChannel) -> bool
    ensures { result ≡ in_test sources before.now channel.now }
{
    is_made(sources, before, channel.reads)
        && is_object_made(sources, before, channel.beside)
        && is_numbered(&channel.does)
}

fn is_object_made(sources: u32, before: &[Stage], beside: Option<PlanPlace>) -> bool
    ensures { result ≡ list_all (made_test sources before.now) (object_places beside) }
{
    match beside {
        None => true,
        Some(place) => is_made(sources, before, place),
    }
}
