// A script's plan, as it is shown.
ghost use Rattle.std.specs.Prelude.{◌≡◌, ◌++◌, IfErr, IfOk};
ghost use Rattle.command_words.specs.declared.words.PlanForm.TheVariants.{Json, Rewrites, Text};
ghost use Rattle.script_loading.specs.of_graph_build.Graphs.{graph_of};
ghost use Rattle.outer_plans.specs.Plans.{IsTaken};
ghost use Rattle.outer_plans.specs.of_graph_print.GraphText.{graph_text};
ghost use Rattle.outer_plans.specs.of_plan_texts.Texts.{plan_text_of};
ghost use Rattle.outer_plans.specs.of_script_plans.Plans.{IsScriptPlan};
ghost use Rattle.script_run.specs.Runs.{IsPlanOf};
ghost use Rattle.run_course.specs.Written.{ShowsPlan, file_shown, text_shown};
ghost use Rattle.run_course.specs.inner.Course.{IsTakingStop, refusal_of};

use command_words::PlanForm;
use exec_graph::Graph;
use exec_plan::Plan;
use outer_plans::graph_print::graph_text;
use outer_plans::plan_texts::{plan_json, plan_text};
use outer_plans::script_plans::plan_of;
use outer_plans::{Traced, line_law, rewrites_json, taken_plan, traced_plan};
use plan_faults::PlanFault;
use run_texts::Status;
use script_loading::ReadyProgram;
use script_loading::build_law::types_law;
use script_loading::graph_build::build;
use script_program::Program;
use std::alloc::{AllocError, Global};

/// A script's plan, and its text behind that of the script's execution graph.
#[derive(Drop)]
pub struct ShownPlan {
    pub plan: Plan,
    pub text: Vec<u8>,
}

/// The plan of a script in one of its forms.
pub fn shown(alloc: Global, program: &ReadyProgram, form: PlanForm) -> Result<Vec<u8>, AllocError>
    ensures { IfOk result (λ text. ShowsPlan form program.now.script text.items) }
{
    match form {
        PlanForm::Text => text_shown(alloc, program),
        PlanForm::Json => json_shown(alloc, program),
        PlanForm::Rewrites => rewrites_shown(alloc, program),
    }
}

fn text_shown(alloc: Global, program: &ReadyProgram) -> Result<Vec<u8>, AllocError>
    ensures { IfOk result (λ text. ShowsPlan Text program.now.script text.items) }
{
    let ShownPlan { plan, text } = plan_shown(alloc, program)?;
    drop(plan);
    Ok(text)
}

/// A script's plan, and its text.
pub fn plan_shown(alloc: Global, program: &ReadyProgram) -> Result<ShownPlan, AllocError>
    ensures optimised { IfOk result (λ it. IsScriptPlan program.now.script it.plan) }
    ensures of_script { IfOk result (λ it. IsPlanOf program.now.script it.plan) }
    ensures text { IfOk result (λ it. it.text.items ≡ text_shown program.now.script it.plan) }
{
    types_law();
    let held = program.as_program();
    let (graph, front) = graph_shown(alloc, held)?;
    let plan = plan_of(alloc, held, graph)?;
    match text_behind(alloc, held, front, &plan) {
        Ok(text) => Ok(ShownPlan { plan, text }),
        Err(e) => {
            drop(plan);
            Err(e)
        }
    }
}

/// The plan that the bytes of a file tell, if it is one of the script, and its text.
pub(crate) fn taken_shown(
    alloc: Global,
    program: &ReadyProgram,
    bytes: &[u8],
) -> Result<ShownPlan, Status>
    ensures taken { IfOk result (λ it. IsTaken program.now.script bytes.now it.plan) }
    ensures of_script { IfOk result (λ it. IsPlanOf program.now.script it.plan) }
    ensures text { IfOk result (λ it. it.text.items ≡ text_shown program.now.script it.plan) }
    ensures stop { IfErr result (IsTakingStop program.now.script bytes.now) }
{
    let held = program.as_program();
    let (graph, front) = graph_shown(alloc, held)?;
    let plan = plan_taken(alloc, program, graph, bytes)?;
    match text_behind(alloc, held, front, &plan) {
        Ok(text) => Ok(ShownPlan { plan, text }),
        Err(_) => {
            drop(plan);
            Err(Status::WantOfMemory)
        }
    }
}

// A script's execution graph, and its text.
fn graph_shown(alloc: Global, program: &Program) -> Result<(Graph, Vec<u8>), AllocError>
    ensures graph { IfOk result (λ it. it.0 ≡ graph_of program.now.script) }
    ensures text { IfOk result (λ it. it.1.items
        ≡ graph_text program.now.script (graph_of program.now.script)) }
{
    let graph = build(alloc, program)?;
    match graph_text(alloc, program, &graph) {
        Ok(text) => Ok((graph, text)),
        Err(e) => {
            drop(graph);
            Err(e)
        }
    }
}

// The text of a plan behind the one that stands first.
fn text_behind(
    alloc: Global,
    program: &Program,
    front: Vec<u8>,
    plan: &Plan,
) -> Result<Vec<u8>, AllocError>
    ensures { IfOk result (λ text.
        text.items ≡ front.items ++ plan_text_of program.now.script plan.now) }
{
    let mut text = front;
    let mut behind = plan_text(alloc, program, plan)?;
    text.append(&mut behind)?;
    Ok(text)
}

// The plan that the bytes of a file tell, if it is one of the script, which has this execution
// graph.
fn plan_taken(
    alloc: Global,
    program: &ReadyProgram,
    graph: Graph,
    bytes: &[u8],
) -> Result<Plan, Status>
    requires built { graph ≡ graph_of program.now.script }
    ensures taken { IfOk result (λ plan. IsTaken program.now.script bytes.now plan) }
    ensures of_script { IfOk result (λ plan. IsPlanOf program.now.script plan) }
    ensures stop { IfErr result (IsTakingStop program.now.script bytes.now) }
{
    types_law();
    let held = program.as_program();
    match taken_plan(alloc, held, graph, bytes) {
        Ok(plan) => Ok(plan),
        Err(fault) => Err(refusal(fault)),
    }
}

// What a plan that is not taken is answered with.
fn refusal(fault: PlanFault) -> Status
    ensures { result ≡ refusal_of fault }
{
    match fault {
        PlanFault::Refused { step, kind } => Status::PlanRefused { step, kind },
        PlanFault::Memory => Status::WantOfMemory,
    }
}

// A script's plan as JSON, on a line.
fn json_shown(alloc: Global, program: &ReadyProgram) -> Result<Vec<u8>, AllocError>
    ensures { IfOk result (λ text. ShowsPlan Json program.now.script text.items) }
{
    let held = program.as_program();
    let graph = build(alloc, held)?;
    let plan = plan_of(alloc, held, graph)?;
    let mut text = plan_json(alloc, held, &plan)?;
    text.extend_from_slice(b"\n")?;
    Ok(text)
}

// A script's plan as the file of a plan, on a line.
fn rewrites_shown(alloc: Global, program: &ReadyProgram) -> Result<Vec<u8>, AllocError>
    ensures { IfOk result (λ text. ShowsPlan Rewrites program.now.script text.items) }
{
    line_law();
    let held = program.as_program();
    let graph = build(alloc, held)?;
    let traced = traced_plan(alloc, held, graph)?;
    let text = traced_text(alloc, held, &traced);
    drop(traced);
    text
}

// A plan with its rewrites, on a line.
fn traced_text(alloc: Global, program: &Program, traced: &Traced) -> Result<Vec<u8>, AllocError>
    ensures { IfOk result (λ text. text.items
        ≡ file_shown program.now.script traced.now.rewrites traced.now.plan) }
{
    let mut text = rewrites_json(alloc, program, traced.rewrites.as_slice(), &traced.plan)?;
    text.extend_from_slice(b"\n")?;
    Ok(text)
}
