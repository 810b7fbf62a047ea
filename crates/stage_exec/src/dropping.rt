// Lists that are read no more are dropped: rows of sources, and results of stages.
ghost use Rattle.std.specs.Prelude.{◌≡◌};
ghost use Rattle.std.specs.List.{list_any};
ghost use Rattle.exec_plan.specs.Meaning.{in_reads, stage_reads, object_places};
ghost use Rattle.stage_exec.specs.inner.Places as spec;
ghost use Rattle.stage_exec.specs.inner.Reads.{KeepsLater, later_reads};

use crate::taking::{is_among, is_same, taken};
use exec_plan::{InChannel, PlanPlace, Stage};
use flume_value::{Items, Pile};
use std::alloc::Global;

/// Drops those lists which a stage has read, and which no later stage and no output reads.
pub(crate) fn drop_read(
    alloc: Global,
    sources: &mut Vec<Items>,
    results: &mut Vec<Pile<Items>>,
    stage: &Stage,
    later: &[Stage],
    outputs: &[PlanPlace],
)
    ensures kept { KeepsLater later.now outputs.now sources.old.items results.old.items
        sources.new.items results.new.items }
{
    match stage {
        Stage::Mscr(stage) => {
            drop_inputs(alloc, sources, results, &stage.inputs, later, outputs);
        }
        Stage::Flatten(takes) | Stage::Operate(takes, _, _, _) => {
            for place in takes.as_slice() {
                drop_unread(alloc, sources, results, *place, later, outputs);
            }
        }
    }
}

/// Drops those lists which these input channels have read, objects beside them included, and which
/// no later stage and no output reads.
pub(crate) fn drop_inputs(
    alloc: Global,
    sources: &mut Vec<Items>,
    results: &mut Vec<Pile<Items>>,
    inputs: &Pile<InChannel>,
    later: &[Stage],
    outputs: &[PlanPlace],
)
    ensures kept { KeepsLater later.now outputs.now sources.old.items results.old.items
        sources.new.items results.new.items }
{
    for input in inputs.as_slice() {
        drop_input(alloc, sources, results, input, later, outputs);
    }
}

// Drops what an input channel has read, and the object beside it.
fn drop_input(
    alloc: Global,
    sources: &mut Vec<Items>,
    results: &mut Vec<Pile<Items>>,
    input: &InChannel,
    later: &[Stage],
    outputs: &[PlanPlace],
)
    ensures kept { KeepsLater later.now outputs.now sources.old.items results.old.items
        sources.new.items results.new.items }
{
    drop_unread(alloc, sources, results, input.reads, later, outputs);
    if let Some(object) = input.beside {
        drop_unread(alloc, sources, results, object, later, outputs);
    }
}

// Drops a list, where it is read no more.
fn drop_unread(
    alloc: Global,
    sources: &mut Vec<Items>,
    results: &mut Vec<Pile<Items>>,
    place: PlanPlace,
    later: &[Stage],
    outputs: &[PlanPlace],
)
    ensures kept { KeepsLater later.now outputs.now sources.old.items results.old.items
        sources.new.items results.new.items }
{
    if is_read(later, outputs, place) {
        return;
    }
    taken(alloc, sources, results, place);
}

// Whether one of these stages reads a collection, or it is an output.
fn is_read(later: &[Stage], outputs: &[PlanPlace], place: PlanPlace) -> bool
    ensures { result ≡ spec.is_among (later_reads later.now outputs.now) place }
{
    any_reads(later, place) || is_among(outputs, place)
}

fn any_reads(stages: &[Stage], place: PlanPlace) -> bool
    ensures { result ≡ list_any (λ s. spec.is_among (stage_reads s) place) stages.now }
{
    stages.iter().any(|stage| reads(stage, place))
}

fn reads(stage: &Stage, place: PlanPlace) -> bool
    ensures { result ≡ spec.is_among (stage_reads stage.now) place }
{
    match stage {
        Stage::Mscr(stage) => has_input(stage.inputs.as_slice(), place),
        Stage::Flatten(takes) | Stage::Operate(takes, _, _, _) => {
            is_among(takes.as_slice(), place)
        }
    }
}

fn has_input(inputs: &[InChannel], place: PlanPlace) -> bool
    ensures { result ≡ list_any (λ c. spec.is_among (in_reads c) place) inputs.now }
{
    inputs.iter().any(|input| takes_in(input, place))
}

// Whether an input channel reads a collection, or calls its steps beside it.
fn takes_in(input: &InChannel, place: PlanPlace) -> bool
    ensures { result ≡ spec.is_among (in_reads input.now) place }
{
    is_same(input.reads, place) || is_beside(input.beside, place)
}

fn is_beside(beside: Option<PlanPlace>, place: PlanPlace) -> bool
    ensures { result ≡ spec.is_among (object_places beside) place }
{
    match beside {
        None => false,
        Some(object) => is_same(object, place),
    }
}
