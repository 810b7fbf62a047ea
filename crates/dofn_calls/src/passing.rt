// Loops that emit each member as it is, which may pass on a whole list at once.
ghost use Rattle.std.specs.Prelude.{◌≡◌, [], ◌∷◌, Some, IfSome, IsTrue};
ghost use Rattle.flume_value.specs.Parts.{members_of};
ghost use Rattle.dofn_eval.specs.declared.expr.Expr.TheVariants as expr;
ghost use Rattle.dofn_eval.specs.Outcome.{Gives, IsSafe, with_part};
ghost use Rattle.dofn_calls.specs.inner.Evaluates.{Evaluates};
ghost use Rattle.dofn_calls.specs.inner.Operands.{content};
ghost use Rattle.dofn_calls.specs.inner.Passing as spec;
ghost use Rattle.dofn_calls.specs.inner.Passing.{passes, passed_by, passed_to, passed_of};

use crate::lists::Lists;
use crate::operand::Operand;
use dofn_eval::{Block, Expr, Stmt};
use flume_value::{CallFault, Value};
use std::alloc::Global;

/// The output to which a block emits its newest value as it is, where it does no more.
#[tactic(auto, using(crate::proofs::PassingLemmas::passing_rules))]
pub fn passes_to(block: &Block) -> Option<usize>
    ensures found { result ≡ passed_to block.now }
    ensures passes { IfSome result (λ output. block.now ≡ passes output) }
{
    match block.as_slice() {
        [stmt] => passes_by(stmt),
        _ => None,
    }
}

// The output to which a statement emits the newest value.
fn passes_by(stmt: &Stmt) -> Option<usize>
    ensures found { result ≡ passed_by stmt.now }
    ensures passes { IfSome result (λ output. stmt.now ∷ [] ≡ passes output) }
{
    match stmt {
        Stmt::Emit(output, e) => { if is_newest(e) { Some(*output) } else { None } }
        _ => None,
    }
}

fn is_newest(e: &Expr) -> bool
    ensures newest { result ≡ spec.is_newest e.now }
    ensures variable { IsTrue result → e.now ≡ expr.Variable 0 }
{
    match e {
        Expr::Variable(slot) => *slot == 0,
        _ => false,
    }
}

/// Emits the members of a list. Those of an owned list are moved, and not copied.
pub fn pass_on<'a>(
    alloc: Global,
    output: usize,
    x: Operand<'a>,
    out: &mut Lists,
) -> Result<(), CallFault>
    requires { IsSafe (passed_of output (content x) out.old) }
    ensures { Evaluates (λ _. out.new) result (passed_of output (content x.entry) out.old) }
{
    let values = into_members(x.into_owned(alloc)?);
    if values.is_empty() {
        return Ok(());
    }
    out.emit_all(alloc, output, values)
}

fn into_members(x: Value) -> Vec<Value>
    requires { IsSafe (with_part (members_of x) Gives) }
    ensures { members_of x ≡ Some result.items }
{
    match x {
        Value::List(members) => members.into_vec(),
        _ => unreachable!(),
    }
}
