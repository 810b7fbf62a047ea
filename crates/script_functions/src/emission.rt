// The one emission of a function that only puts parts of its element and literals together: it is
// read off the body, with no scope and no list.
#![tactic(auto, using(dofn_eval::proofs::MeaningLemmas::value_rules))]

ghost use Rattle.std.specs.Prelude.{◌≡◌, ◌∷◌, [], IfOk, IfSome};
ghost use Rattle.flume_value.specs.declared.value.Value.{Value as GhostValue};
ghost use Rattle.bag_groups.specs.Pairs.{pair as pair_of};
ghost use Rattle.dofn_eval.specs.Meaning.{expression_value, part_values};
ghost use Rattle.dofn_eval.specs.Operations.{field_in};
ghost use Rattle.dofn_eval.specs.Outcome.{Gives};
ghost use Rattle.dofn_eval.specs.Run.{slots_mean};
ghost use Rattle.forest_steps.specs.Answers.{lists_of};
ghost use Rattle.dofn_eval.specs.declared.stmt.Stmt.TheVariants as stmts;

use dofn_eval::{Block, Expr, Fun, Stmt};
use flume_value::{Pile, Value};
use forest_steps::Answer;
use key_order::Couple;
use std::alloc::{AllocError, Global};

/// What a function emits to its one output, where its body is one emission, of a part of the
/// element, a literal or a record of such. None for all other functions.
pub(crate) fn one_emission(
    alloc: Global,
    fun: &Fun,
    element: &Value,
) -> Result<Option<Answer>, AllocError>
    ensures { IfOk result (λ emission. IfSome emission (λ answer.
        slots_mean fun.now.outputs fun.now.body element.now ≡ Gives (lists_of answer))) }
{
    if fun.outputs() != 1 {
        return Ok(None);
    }
    match emitted(fun.body()) {
        Some(e) => put_together(alloc, e, element),
        None => Ok(None),
    }
}

/// The expression whose value a block emits to the first output, where it does no more.
fn emitted(block: &Block) -> Option<&Expr>
    ensures { IfSome result (λ e. block.now ≡ stmts.Emit 0 e.now ∷ []) }
{
    match block.as_slice() {
        [stmt] => emitted_by(stmt),
        _ => None,
    }
}

fn emitted_by(stmt: &Stmt) -> Option<&Expr>
    ensures { IfSome result (λ e. stmt.now ≡ stmts.Emit 0 e.now) }
{
    match stmt {
        Stmt::Emit(0, e) => Some(e),
        _ => None,
    }
}

/// The emission of what an expression gives with the element in scope, where it is a part of that,
/// a literal or a record of such. No record is made of two fields, which are a pair.
fn put_together(alloc: Global, e: &Expr, element: &Value) -> Result<Option<Answer>, AllocError>
    ensures { IfOk result (λ made. IfSome made (λ answer. (v : GhostValue)
        × (expression_value e.now (element.now ∷ []) ≡ Gives v)
        × (lists_of answer ≡ (v ∷ []) ∷ []))) }
{
    match e {
        Expr::Record(parts) => match parts.as_slice() {
            [key, value] => couple(alloc, key, value, element),
            parts => match fields(alloc, parts, element)? {
                Some(fields) => Ok(Some(Answer::One(Value::Rec(fields)))),
                None => Ok(None),
            },
        },
        _ => match part(e, element) {
            Some(part) => Ok(Some(Answer::One(part.copy(alloc)?))),
            None => Ok(None),
        },
    }
}

/// The pair of two such parts, for which no record is made.
fn couple(
    alloc: Global,
    key: &Expr,
    value: &Expr,
    element: &Value,
) -> Result<Option<Answer>, AllocError>
    ensures { IfOk result (λ made. IfSome made (λ answer. (k v : GhostValue)
        × (expression_value key.now (element.now ∷ []) ≡ Gives k)
        × (expression_value value.now (element.now ∷ []) ≡ Gives v)
        × (lists_of answer ≡ (pair_of k v ∷ []) ∷ []))) }
{
    let Some(key) = part(key, element) else {
        return Ok(None);
    };
    let Some(value) = part(value, element) else {
        return Ok(None);
    };
    let key = key.copy(alloc)?;
    let value = value.copy(alloc)?;
    Ok(Some(Answer::Pair(Couple::of(key, value))))
}

/// What expressions give with the element in scope, where all are parts of that or literals.
fn fields(alloc: Global, parts: &[Expr], element: &Value) -> Result<Option<Pile<Value>>, AllocError>
    ensures { IfOk result (λ made. IfSome made (λ all.
        part_values expression_value parts.now (element.now ∷ []) [] ≡ Gives all)) }
{
    if !parts.iter().all(is_part) {
        return Ok(None);
    }
    let mut all = Vec::with_capacity(alloc, parts.len())?;
    for e in parts {
        match part(e, element) {
            Some(value) => all.push(value.copy(alloc)?)?,
            None => return Ok(None),
        }
    }
    Ok(Some(Pile::from_vec(all)))
}

fn is_part(e: &Expr) -> bool {
    match e {
        Expr::Literal(_) => true,
        Expr::Variable(slot) => *slot == 0,
        Expr::Field(of, _) => is_part(of.get()),
        _ => false,
    }
}

/// The literal that an expression is, or the part of the element that it names.
fn part<'a>(e: &'a Expr, element: &'a Value) -> Option<&'a Value>
    ensures { IfSome result (λ part. expression_value e.now (element.now ∷ []) ≡ Gives part.now) }
{
    match e {
        Expr::Literal(value) => Some(value),
        Expr::Variable(0) => Some(element),
        Expr::Field(of, at) => match part(of.get(), element) {
            Some(whole) => field(whole, *at),
            None => None,
        },
        _ => None,
    }
}

fn field(whole: &Value, at: usize) -> Option<&Value>
    ensures { IfSome result (λ field. field_in at whole.now ≡ Gives field.now) }
{
    match whole {
        Value::Rec(fields) => fields.get(at),
        _ => None,
    }
}
