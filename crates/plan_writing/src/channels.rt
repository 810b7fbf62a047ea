// The lines of input and output channels.
ghost use Rattle.std.specs.Prelude.{◌≡◌, ◌++◌, OnOk};
ghost use Rattle.plan_writing.specs.Lists.{spaced};
ghost use Rattle.plan_writing.specs.Places.{given_text, place_text, take_text};
ghost use Rattle.plan_writing.specs.PlanText as spec;

use crate::forests::push_forest;
use crate::names::Names;
use crate::outs::outs_of;
use crate::places::{push_dotted, push_number, push_place, push_result, push_take};
use combine_table::Comb;
use exec_plan::{Grouping, InChannel, OutChannel, PlanPlace, Take};
use std::alloc::{AllocError, Global};

/// Adds the line of an input channel.
pub(crate) fn push_in<N: Names>(
    text: &mut Vec<u8>,
    names: &N,
    number: u64,
    channel: &InChannel,
) -> Result<(), AllocError>
    ensures { OnOk result (text.new.items
        ≡ text.old.items ++ spec.in_line (N.naming names.now) number channel.now) }
{
    push_in_begin(text, number, channel)?;
    text.extend_from_slice(b" does ")?;
    push_forest(text, names, &channel.does)?;
    text.extend_from_slice(b"\n")
}

/// Adds what an input channel reads.
fn push_in_begin(text: &mut Vec<u8>, number: u64, channel: &InChannel) -> Result<(), AllocError>
    ensures { OnOk result (text.new.items ≡ text.old.items ++ spec.in_begin number channel.now) }
{
    text.extend_from_slice(b"in ")?;
    push_number(text, number)?;
    text.extend_from_slice(b" reads ")?;
    push_place(text, channel.reads)?;
    push_beside(text, channel.beside)
}

/// Adds the object that steps are called beside.
fn push_beside(text: &mut Vec<u8>, beside: Option<PlanPlace>) -> Result<(), AllocError>
    ensures { OnOk result (text.new.items ≡ text.old.items ++ spec.beside_text beside) }
{
    match beside {
        None => Ok(()),
        Some(object) => {
            text.extend_from_slice(b" with ")?;
            push_place(text, object)
        }
    }
}

/// Adds the line of an output channel of a stage.
pub(crate) fn push_out<N: Names>(
    alloc: Global,
    text: &mut Vec<u8>,
    names: &N,
    stage: u64,
    number: u64,
    channel: &OutChannel,
) -> Result<(), AllocError>
    ensures { OnOk result (text.new.items
        ≡ text.old.items ++ spec.out_line (N.naming names.now) stage number channel.now) }
{
    match channel {
        OutChannel::Group(group) => {
            push_group_begin(text, names, number, group)?;
            text.extend_from_slice(b" takes")?;
            push_takes(text, group.takes.as_slice())?;
            text.extend_from_slice(b" does ")?;
            push_forest(text, names, &group.does)?;
            push_group_end(alloc, text, stage, group)
        }
        OutChannel::Pass(take, given) => push_pass(text, stage, number, *take, *given),
    }
}

fn push_group_begin<N: Names>(
    text: &mut Vec<u8>,
    names: &N,
    number: u64,
    group: &Grouping,
) -> Result<(), AllocError>
    ensures { OnOk result (text.new.items
        ≡ text.old.items ++ spec.group_begin (N.naming names.now) number group.now) }
{
    text.extend_from_slice(b"group ")?;
    push_number(text, number)?;
    text.extend_from_slice(b" ")?;
    names.push_node(text, group.origin)?;
    push_lift(text, names, group.lifted)
}

fn push_group_end(
    alloc: Global,
    text: &mut Vec<u8>,
    stage: u64,
    group: &Grouping,
) -> Result<(), AllocError>
    ensures { OnOk result (text.new.items ≡ text.old.items ++ spec.group_end stage group.now) }
{
    let outs = outs_of(alloc, &group.does)?;
    text.extend_from_slice(b" gives")?;
    push_given(text, stage, group, outs.as_slice())?;
    text.extend_from_slice(b"\n")
}

fn push_pass(
    text: &mut Vec<u8>,
    stage: u64,
    number: u64,
    take: Take,
    given: u32,
) -> Result<(), AllocError>
    ensures { OnOk result (text.new.items
        ≡ text.old.items ++ spec.pass_line stage number take given) }
{
    text.extend_from_slice(b"pass ")?;
    push_number(text, number)?;
    text.extend_from_slice(b" takes ")?;
    push_take(text, take)?;
    text.extend_from_slice(b" gives ")?;
    push_dotted(text, stage, u64::from(given))?;
    text.extend_from_slice(b"\n")
}

/// Adds the combiner of a lifted channel.
fn push_lift<N: Names>(
    text: &mut Vec<u8>,
    names: &N,
    lifted: Option<Comb>,
) -> Result<(), AllocError>
    ensures { OnOk result (text.new.items
        ≡ text.old.items ++ spec.lift_text (N.naming names.now) lifted) }
{
    match lifted {
        None => Ok(()),
        Some(combiner) => {
            text.extend_from_slice(b" lift ")?;
            names.push_combiner(text, combiner)
        }
    }
}

fn push_takes(text: &mut Vec<u8>, takes: &[Take]) -> Result<(), AllocError>
    ensures { OnOk result (text.new.items ≡ text.old.items ++ spaced take_text takes.now) }
{
    for take in takes {
        text.extend_from_slice(b" ")?;
        push_take(text, *take)?;
    }
    Ok(())
}

/// Adds the results that a grouping channel of a stage gives for these outputs of its reducer.
fn push_given(
    text: &mut Vec<u8>,
    stage: u64,
    group: &Grouping,
    outs: &[u32],
) -> Result<(), AllocError>
    ensures { OnOk result (text.new.items
        ≡ text.old.items ++ spaced (given_text stage group.now) outs.now) }
{
    for out in outs {
        text.extend_from_slice(b" ")?;
        push_result(text, stage, group.first, *out)?;
    }
    Ok(())
}

/// Adds collections.
pub(crate) fn push_places(text: &mut Vec<u8>, places: &[PlanPlace]) -> Result<(), AllocError>
    ensures { OnOk result (text.new.items ≡ text.old.items ++ spaced place_text places.now) }
{
    for place in places {
        text.extend_from_slice(b" ")?;
        push_place(text, *place)?;
    }
    Ok(())
}
