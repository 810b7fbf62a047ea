// The functions of a script, by their numbers.
ghost use Rattle.std.specs.Prelude.{◌≡◌, ◌∷◌, [], IfErr, IfOk, length};
ghost use Rattle.dofn_eval.specs.Function.{CanBeCalledOn};
ghost use Rattle.dofn_eval.specs.Outcome.{Gives, IsFaultIn};
ghost use Rattle.dofn_eval.specs.Run.{slots_mean};
ghost use Rattle.forest_steps.specs.Answers.{lists_of};

use crate::emission::one_emission;
use build_law::script_program::Program;
use dofn_calls::call;
use dofn_eval::Fun;
use flume_value::{CallFault, Items, Value};
use forest_steps::{Answer, Functions};
use std::alloc::{AllocError, Global};
use std::marker::Model;

/// The functions of a program, which contracts see as its script.
#[derive(Drop)]
pub struct ScriptFunctions<'a> {
    program: &'a Program,
}

impl<'a> Model for ScriptFunctions<'a> {
    ghost use Rattle.std.specs.Coded.{codes};
    ghost use Rattle.flume_types.specs.contracts.types.Ty as coded_types;
    ghost use Rattle.flume_grammar.specs.contracts.tree.Body as coded_bodies;
    ghost use Rattle.build_law.specs.of_script_program.contracts.made.Made as coded_made;
    ghost use Rattle.build_law.specs.of_script_program.contracts.made.Output as coded_outputs;
    ghost use Rattle.build_law.specs.of_script_program.Script.{Script};

    ghost Value = { Script };

    ghost coded = { Prim.hlevel (
      codes,
      coded_types.the_row.coded,
      coded_bodies.the_row.coded,
      coded_made.the_row.coded,
      coded_outputs.the_row.coded,
    ) };

    ghost view = { λ functions. functions.program.now.script };
}

impl<'a> ScriptFunctions<'a> {
    /// The functions of a program.
    pub fn new(program: &'a Program) -> ScriptFunctions<'a>
        ensures { result ≡ program.now.script }
    {
        ScriptFunctions { program }
    }
}

impl<'a> Functions for ScriptFunctions<'a> {
    ghost use Rattle.std.specs.Prelude.{[]};
    ghost use Rattle.build_law.specs.Signatures.{signatures_of};
    ghost use Rattle.build_law.specs.Worlds.{script_world};
    ghost use Rattle.task_safety.specs.Taking.{Takes};

    ghost called = { λ script. (script_world script []).called };

    ghost can_call = { λ script. Takes (signatures_of script) };

    fn call(&self, alloc: Global, number: u32, element: &Value) -> Result<Answer, CallFault> {
        let number = number as usize;
        if number < self.program.function_count() {
            call_function(alloc, &self.program.function(number).fun, element)
        } else {
            Ok(Answer::Lists(Vec::new(alloc)))
        }
    }
}

/// What a call of a function gives to each of its outputs, in order, or its trap.
fn call_function(alloc: Global, fun: &Fun, element: &Value) -> Result<Answer, CallFault>
    requires { CanBeCalledOn fun.now element.now }
    ensures emissions { IfOk result (λ answer.
        slots_mean fun.now.outputs fun.now.body element.now ≡ Gives (lists_of answer)) }
    ensures trap { IfErr result (IsFaultIn (slots_mean fun.now.outputs fun.now.body element.now)) }
{
    match one_emission(alloc, fun, element)? {
        Some(answer) => Ok(answer),
        None => run_body(alloc, fun, element),
    }
}

/// The same of any function: its statements run one after another.
fn run_body(alloc: Global, fun: &Fun, element: &Value) -> Result<Answer, CallFault>
    requires { CanBeCalledOn fun.now element.now }
    ensures emissions { IfOk result (λ answer.
        slots_mean fun.now.outputs fun.now.body element.now ≡ Gives (lists_of answer)) }
    ensures trap { IfErr result (IsFaultIn (slots_mean fun.now.outputs fun.now.body element.now)) }
{
    let (first, others) = call(alloc, fun, element)?.into_parts();
    Ok(in_order(first, others)?)
}

/// The first list before the others. No list is made for one value of one output.
fn in_order(first: Items, others: Vec<Items>) -> Result<Answer, AllocError>
    ensures { IfOk result (λ answer. lists_of answer ≡ first ∷ others.items) }
{
    if first.len() == 1 && others.is_empty() {
        return Ok(Answer::One(only_of(first)));
    }
    let mut lists = others;
    lists.insert(0, first)?;
    Ok(Answer::Lists(lists))
}

/// The value of a list of one.
fn only_of(list: Items) -> Value
    requires { length list ≡ 1 }
    ensures { list ≡ result ∷ [] }
{
    let mut values = list.into_vec();
    match values.pop() {
        Some(value) => value,
        None => unreachable!(),
    }
}
