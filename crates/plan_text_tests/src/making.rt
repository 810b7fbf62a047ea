// The parts of plans that are made by hand.
use combine_table::Comb;
use exec_graph::{Does, Output, Roots, Step};
use exec_plan::{Grouping, InChannel, Mscr, OutChannel, Plan, PlanPlace, Stage, Take};
use flume_value::Pile;
use std::alloc::{AllocError, Global};

/// A list of one.
pub fn list<T: Drop>(alloc: Global, item: T) -> Result<Vec<T>, AllocError> {
    let mut items = Vec::new(alloc);
    items.push(item)?;
    Ok(items)
}

/// The list with one item more.
pub fn with<T: Drop>(mut items: Vec<T>, item: T) -> Result<Vec<T>, AllocError> {
    items.push(item)?;
    Ok(items)
}

/// A step with one output under a number, and no steps on it.
pub fn leaf(alloc: Global, origin: u32, does: Does, out: u32) -> Step {
    let output = Output::new(Some(out), Vec::new(alloc));
    Step::new(origin, true, does, output, Vec::new(alloc))
}

/// A step with one output, which only another step reads.
pub fn over(alloc: Global, origin: u32, does: Does, kid: Step) -> Result<Step, AllocError> {
    let output = Output::new(None, list(alloc, kid)?);
    Ok(Step::new(origin, true, does, output, Vec::new(alloc)))
}

/// A forest of one step.
fn tree(alloc: Global, step: Step) -> Result<Option<Roots>, AllocError> {
    let steps = list(alloc, step)?;
    Ok(Some(Roots::new(steps)))
}

/// An input channel with one step.
pub fn input(alloc: Global, reads: PlanPlace, step: Step) -> Result<InChannel, AllocError> {
    let does = tree(alloc, step)?;
    Ok(InChannel {
        reads,
        beside: None,
        does,
    })
}

/// An input channel with one step, which is called beside an object.
pub fn beside(
    alloc: Global,
    reads: PlanPlace,
    object: PlanPlace,
    step: Step,
) -> Result<InChannel, AllocError> {
    let does = tree(alloc, step)?;
    Ok(InChannel {
        reads,
        beside: Some(object),
        does,
    })
}

/// A channel that groups output 0 of the first input channel. Its results are numbered from 0 on.
pub fn grouping(
    alloc: Global,
    origin: u32,
    lifted: Option<Comb>,
    does: Option<Roots>,
) -> Result<OutChannel, AllocError> {
    let takes = Pile::from_vec(list(alloc, take(0, 0))?);
    Ok(OutChannel::Group(Grouping {
        origin,
        last: true,
        lifted,
        takes,
        does,
        first: 0,
    }))
}

/// Such a channel with one step on its groups.
pub fn reducing(
    alloc: Global,
    origin: u32,
    lifted: Option<Comb>,
    step: Step,
) -> Result<OutChannel, AllocError> {
    let does = tree(alloc, step)?;
    grouping(alloc, origin, lifted, does)
}

/// A stage of one input channel and one output channel.
pub fn mscr(alloc: Global, input: InChannel, output: OutChannel) -> Result<Stage, AllocError> {
    let inputs = Pile::from_vec(list(alloc, input)?);
    let outputs = Pile::from_vec(list(alloc, output)?);
    Ok(Stage::Mscr(Mscr { inputs, outputs }))
}

pub fn take(channel: u32, out: u32) -> Take {
    Take { channel, out }
}

/// A result of a stage.
pub fn result(stage: u32, number: u32) -> PlanPlace {
    PlanPlace::Result { stage, number }
}

/// These stages, and where the outputs are read.
pub fn plan(alloc: Global, stages: Vec<Stage>, outputs: Vec<PlanPlace>) -> Plan {
    Plan {
        sources: 1,
        objects: Pile::new(alloc),
        stages: Pile::from_vec(stages),
        outputs: Pile::from_vec(outputs),
    }
}

/// A plan of one stage, whose one output is result 0.
pub fn one_stage(alloc: Global, stage: Stage) -> Result<Plan, AllocError> {
    let stages = list(alloc, stage)?;
    let outputs = list(alloc, result(1, 0))?;
    Ok(plan(alloc, stages, outputs))
}
