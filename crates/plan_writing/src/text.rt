// The text of a plan: its stages, and the outputs of the script.
ghost use Rattle.std.specs.Prelude.{◌≡◌, ◌++◌, ◌<◌, IfOk, OnOk, Some, length, slice_get};
ghost use Rattle.plan_writing.specs.Lists.{one_text, numbered_texts, paired};
ghost use Rattle.plan_writing.specs.Naming.{Written};
ghost use Rattle.plan_writing.specs.PlanText as spec;

use crate::acts::push_act;
use crate::channels::{push_in, push_out, push_places};
use crate::names::Names;
use crate::places::{push_dotted, push_number, push_place};
use exec_graph::Act;
use exec_plan::{InChannel, Mscr, OutChannel, Plan, PlanPlace, Stage};
use printing::push_quoted;
use std::alloc::{AllocError, Global};

/// The text of a plan: a line for each stage, each channel of a stage, and each output.
pub fn plan_text<N: Names>(alloc: Global, names: &N, plan: &Plan) -> Result<Vec<u8>, AllocError>
    ensures { IfOk result (λ text.
        text.items ≡ spec.plan_text_of (N.naming names.now) plan.now) }
{
    let mut text = Vec::new(alloc);
    text.extend_from_slice(b"plan\n")?;
    push_stages(alloc, &mut text, names, plan.stages.as_slice())?;
    push_outputs(&mut text, names, plan.outputs.as_slice())?;
    Ok(text)
}

fn push_stages<N: Names>(
    alloc: Global,
    text: &mut Vec<u8>,
    names: &N,
    stages: &[Stage],
) -> Result<(), AllocError>
    ensures { OnOk result (text.new.items ≡ text.old.items
        ++ one_text (numbered_texts (spec.stage_text (N.naming names.now)) 1 stages.now)) }
{
    for (i, stage) in stages.iter().enumerate() {
        push_stage(alloc, text, names, i as u64 + 1, stage)?;
    }
    Ok(())
}

/// Adds the lines of the stage of a number.
fn push_stage<N: Names>(
    alloc: Global,
    text: &mut Vec<u8>,
    names: &N,
    number: u64,
    stage: &Stage,
) -> Result<(), AllocError>
    ensures { OnOk result (text.new.items ≡ text.old.items
        ++ spec.stage_text (N.naming names.now) number stage.now) }
{
    match stage {
        Stage::Mscr(mscr) => push_mscr(alloc, text, names, number, mscr),
        Stage::Flatten(takes) => push_flatten(text, number, takes.as_slice()),
        Stage::Operate(takes, origin, _, act) => {
            push_operate(text, names, number, takes.as_slice(), *origin, *act)
        }
    }
}

fn push_mscr<N: Names>(
    alloc: Global,
    text: &mut Vec<u8>,
    names: &N,
    number: u64,
    mscr: &Mscr,
) -> Result<(), AllocError>
    ensures { OnOk result (text.new.items ≡ text.old.items
        ++ (spec.mscr_line number
        ++ (one_text (numbered_texts (spec.in_line (N.naming names.now)) 0 mscr.now.inputs)
        ++ one_text (numbered_texts (spec.out_line (N.naming names.now) number) 0
        mscr.now.outputs)))) }
{
    push_mscr_line(text, number)?;
    push_ins(text, names, mscr.inputs.as_slice())?;
    push_outs(alloc, text, names, number, mscr.outputs.as_slice())
}

fn push_mscr_line(text: &mut Vec<u8>, number: u64) -> Result<(), AllocError>
    ensures { OnOk result (text.new.items ≡ text.old.items ++ spec.mscr_line number) }
{
    text.extend_from_slice(b"stage ")?;
    push_number(text, number)?;
    text.extend_from_slice(b" mscr\n")
}

fn push_ins<N: Names>(text: &mut Vec<u8>, names: &N, inputs: &[InChannel]) -> Result<(), AllocError>
    ensures { OnOk result (text.new.items ≡ text.old.items
        ++ one_text (numbered_texts (spec.in_line (N.naming names.now)) 0 inputs.now)) }
{
    for (i, channel) in inputs.iter().enumerate() {
        push_in(text, names, i as u64, channel)?;
    }
    Ok(())
}

fn push_outs<N: Names>(
    alloc: Global,
    text: &mut Vec<u8>,
    names: &N,
    stage: u64,
    outputs: &[OutChannel],
) -> Result<(), AllocError>
    ensures { OnOk result (text.new.items ≡ text.old.items
        ++ one_text (numbered_texts (spec.out_line (N.naming names.now) stage) 0 outputs.now)) }
{
    for (i, channel) in outputs.iter().enumerate() {
        push_out(alloc, text, names, stage, i as u64, channel)?;
    }
    Ok(())
}

fn push_flatten(text: &mut Vec<u8>, number: u64, takes: &[PlanPlace]) -> Result<(), AllocError>
    ensures { OnOk result (text.new.items
        ≡ text.old.items ++ spec.flatten_line number takes.now) }
{
    text.extend_from_slice(b"stage ")?;
    push_number(text, number)?;
    text.extend_from_slice(b" flatten takes")?;
    push_places(text, takes)?;
    text.extend_from_slice(b" gives ")?;
    push_dotted(text, number, 0)?;
    text.extend_from_slice(b"\n")
}

fn push_operate<N: Names>(
    text: &mut Vec<u8>,
    names: &N,
    number: u64,
    takes: &[PlanPlace],
    origin: u32,
    act: Act,
) -> Result<(), AllocError>
    ensures { OnOk result (text.new.items ≡ text.old.items
        ++ spec.operate_line (N.naming names.now) number takes.now origin act) }
{
    push_operate_begin(text, number, takes)?;
    text.extend_from_slice(b" does ")?;
    push_act(text, names, origin, act)?;
    text.extend_from_slice(b" gives ")?;
    push_dotted(text, number, 0)?;
    text.extend_from_slice(b"\n")
}

fn push_operate_begin(
    text: &mut Vec<u8>,
    number: u64,
    takes: &[PlanPlace],
) -> Result<(), AllocError>
    ensures { OnOk result (text.new.items
        ≡ text.old.items ++ spec.operate_begin number takes.now) }
{
    text.extend_from_slice(b"stage ")?;
    push_number(text, number)?;
    text.extend_from_slice(b" operate takes")?;
    push_places(text, takes)
}

/// Adds the lines of the script's outputs, which are read at these places.
fn push_outputs<N: Names>(
    text: &mut Vec<u8>,
    names: &N,
    places: &[PlanPlace],
) -> Result<(), AllocError>
    ensures { OnOk result (text.new.items ≡ text.old.items
        ++ one_text (paired spec.output_line (N.naming names.now).outputs places.now)) }
{
    let count = names.output_count().min(places.len());
    for number in 0..count {
        push_output(text, names, number, places[number])?;
    }
    Ok(())
}

/// Adds the line of an output, which is read there.
fn push_output<N: Names>(
    text: &mut Vec<u8>,
    names: &N,
    number: usize,
    place: PlanPlace,
) -> Result<(), AllocError>
    requires { number < length (N.naming names.now).outputs }
    ensures { (output : Written) →
        slice_get (N.naming names.now).outputs number ≡ Some output →
        OnOk result (text.new.items ≡ text.old.items ++ spec.output_line output place) }
{
    text.extend_from_slice(b"output ")?;
    text.extend_from_slice(names.output_name(number))?;
    text.extend_from_slice(b" reads ")?;
    push_place(text, place)?;
    text.extend_from_slice(b" to ")?;
    push_quoted(text, names.output_file(number))?;
    text.extend_from_slice(b"\n")
}
