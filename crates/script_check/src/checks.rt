// The check of a whole script, statement after statement.
ghost use Rattle.std.specs.Prelude.{◌≡◌};
ghost use Rattle.operation_check.specs.of_written_types.Answer.{Gives};
ghost use Rattle.script_rules.specs.Rules as spec;

use crate::rules::rule;
use flume_grammar::{Ast, ScriptFault, ScriptKind, Statement};
use flume_value::Pile;
use operation_check::written_types::refused;
use script_program::Program;
use script_state::State;
use std::alloc::Global;

/// The program that a script is, or its first fault: statements in order, and the rules of each in
/// theirs.
pub fn check(alloc: Global, ast: Ast) -> Result<Program, ScriptFault>
    ensures { Gives (λ program. program.script) result (spec.script_of ast.statements) }
{
    let mut state = State::new(alloc);
    match define(alloc, ast.statements, &mut state) {
        Ok(()) => {
            if state.output_count() == 0 {
                drop(state);
                return Err(refused(0, ScriptKind::NoOutput));
            }
            Ok(state.into_program(alloc)?)
        }
        Err(fault) => {
            drop(state);
            Err(fault)
        }
    }
}

/// Statements in order, behind none.
fn define(alloc: Global, statements: Pile<Statement>, state: &mut State) -> Result<(), ScriptFault>
    requires { state.old.state.statements ≡ 0 }
    ensures { Gives (λ _. state.new.state) result
        (spec.defined statements state.old.state) }
{
    let _count = statements.len();
    for statement in statements.into_vec() {
        rule(alloc, statement, state)?;
        state.end_statement();
    }
    Ok(())
}
