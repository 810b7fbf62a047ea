//! Each form of expression, from the slots and types of its parts.
ghost use Rattle.std.specs.Prelude.{◌≡◌, ◌<◌, Ok, length, IfOk};
ghost use Rattle.flume_value.specs.declared.value.Value.TheVariants as value;
ghost use Rattle.type_table.specs.of_flume_types.declared.types.Ty.TheVariants as ty_;
ghost use Rattle.int_text.specs.Ints.{int_of_text as int_in};
ghost use Rattle.dofn_eval.specs.declared.expr.Expr.TheVariants as slots;
ghost use Rattle.type_table.specs.Table.{type_at, Extends};
ghost use Rattle.expression_types.specs.of_written_types.Answer.{Gives};
ghost use Rattle.expression_types.specs.Held.{AreTypes};
ghost use Rattle.expression_check.specs.Slots as spec;

use crate::typed::{AllTyped, Operand, Pair, Typed};
use dofn_eval::Expr as Slots;
use expression_types::written_types::refused;
use expression_types::{
    Half, Operator, Scope, Sides, binary_type, index_type, list_of, list_type, one, pick_type,
    place_under, record_type, side_of, side_type, unary_type,
};
use flume_grammar::{ScriptFault, ScriptKind, Type, Unary};
use flume_value::{Held, Pile, Str, Value};
use int_text::int_of_text;
use std::alloc::Global;
use type_table::{Shape, Types};

pub fn number(line: u32, digits: &Str, scope: &mut Scope) -> Result<Typed, ScriptFault>
    ensures gives { Gives (spec.slots_typed scope.new.types) result
        (spec.literal line (int_in digits.now)) }
    ensures within { IfOk result (λ made. made.ty < length scope.new.types) }
    ensures extends { Extends scope.old.types scope.new.types }
    ensures sight { scope.new.sight ≡ scope.old.sight }
{
    let Some(n) = int_of_text(digits.as_bytes()) else {
        return Err(refused(line, ScriptKind::BadNumber));
    };
    let ty = scope.intern(Shape::Int)?;
    Ok(Typed {
        expr: Slots::Literal(Value::Int(n)),
        ty,
    })
}

pub fn text(alloc: Global, text: &Str, scope: &mut Scope) -> Result<Typed, ScriptFault>
    ensures gives { Gives (spec.slots_typed scope.new.types) result
        (Ok (slots.Literal (value.Text text.now), ty_.Text)) }
    ensures within { IfOk result (λ made. made.ty < length scope.new.types) }
    ensures extends { Extends scope.old.types scope.new.types }
    ensures sight { scope.new.sight ≡ scope.old.sight }
{
    let ty = scope.intern(Shape::Text)?;
    let text = text.copy(alloc)?;
    Ok(Typed {
        expr: Slots::Literal(Value::Text(text)),
        ty,
    })
}

pub fn truth(b: bool, scope: &mut Scope) -> Result<Typed, ScriptFault>
    ensures gives { Gives (spec.slots_typed scope.new.types) result
        (Ok (slots.Literal (value.Bool b), ty_.Bool)) }
    ensures within { IfOk result (λ made. made.ty < length scope.new.types) }
    ensures extends { Extends scope.old.types scope.new.types }
    ensures sight { scope.new.sight ≡ scope.old.sight }
{
    let ty = scope.intern(Shape::Bool)?;
    Ok(Typed {
        expr: Slots::Literal(Value::Bool(b)),
        ty,
    })
}

pub fn variable(line: u32, name: &Str, scope: &Scope) -> Result<Typed, ScriptFault>
    ensures gives { Gives (spec.slots_typed scope.now.types) result
        (spec.variable line name.now scope.now.sight.names) }
    ensures within { IfOk result (λ made. made.ty < length scope.now.types) }
{
    match scope.find(name) {
        Some(at) => Ok(Typed {
            expr: Slots::Variable(at.place),
            ty: at.ty,
        }),
        None => Err(refused(line, ScriptKind::Unknown)),
    }
}

pub fn empty(
    alloc: Global,
    line: u32,
    written: &Type,
    scope: &mut Scope,
) -> Result<Typed, ScriptFault>
    ensures gives { Gives (spec.slots_typed scope.new.types) result
        (spec.empty line written.now scope.old.sight) }
    ensures within { IfOk result (λ made. made.ty < length scope.new.types) }
    ensures extends { Extends scope.old.types scope.new.types }
    ensures sight { scope.new.sight ≡ scope.old.sight }
{
    let member = scope.written(alloc, line, written)?;
    let ty = list_of(line, member, scope)?;
    Ok(Typed {
        expr: Slots::List(Pile::new(alloc)),
        ty,
    })
}

pub fn unary(line: u32, op: Unary, x: Operand, scope: &mut Scope) -> Result<Typed, ScriptFault>
    requires { x.ty < length scope.old.types }
    ensures gives { Gives (spec.slots_typed scope.new.types) result
        (spec.unary line op (spec.operand scope.old.types x)) }
    ensures within { IfOk result (λ made. made.ty < length scope.new.types) }
    ensures extends { Extends scope.old.types scope.new.types }
    ensures sight { scope.new.sight ≡ scope.old.sight }
{
    let ty = unary_type(line, op, x.ty, scope)?;
    Ok(Typed {
        expr: Slots::Unary(one(op), x.expr),
        ty,
    })
}

pub fn binary(line: u32, op: Operator, both: Pair, scope: &mut Scope) -> Result<Typed, ScriptFault>
    requires first { both.first.ty < length scope.old.types }
    requires second { both.second.ty < length scope.old.types }
    ensures gives { Gives (spec.slots_typed scope.new.types) result (spec.binary line op
        (spec.operand scope.old.types both.first) (spec.operand scope.old.types both.second)) }
    ensures within { IfOk result (λ made. made.ty < length scope.new.types) }
    ensures extends { Extends scope.old.types scope.new.types }
    ensures sight { scope.new.sight ≡ scope.old.sight }
{
    let Pair { first, second } = both;
    let sides = Sides {
        left: first.ty,
        right: second.ty,
    };
    let ty = binary_type(line, op, sides, scope)?;
    let expr = operation(op, first.expr, second.expr);
    Ok(Typed { expr, ty })
}

fn operation(op: Operator, a: Held<Slots>, b: Held<Slots>) -> Slots
    ensures { result ≡ spec.operation op a b }
{
    match op {
        Operator::And => Slots::And(a, b),
        Operator::Or => Slots::Or(a, b),
        Operator::Two(op) => Slots::Binary(op, a, b),
    }
}

pub fn field(line: u32, x: Operand, name: &Str, types: &Types) -> Result<Typed, ScriptFault>
    requires { x.ty < length types.now }
    ensures gives { Gives (spec.slots_typed types.now) result
        (spec.field line name.now (spec.operand types.now x)) }
    ensures within { IfOk result (λ made. made.ty < length types.now) }
{
    let at = place_under(line, name, x.ty, types)?;
    Ok(Typed {
        expr: Slots::Field(x.expr, at.place),
        ty: at.ty,
    })
}

pub fn index(line: u32, x: Operand, y: Operand, types: &Types) -> Result<Typed, ScriptFault>
    requires first { x.ty < length types.now }
    requires second { y.ty < length types.now }
    ensures gives { Gives (spec.slots_typed types.now) result (spec.index line
        (spec.operand types.now x) (spec.operand types.now y)) }
    ensures within { IfOk result (λ made. made.ty < length types.now) }
{
    let ty = index_type(line, x.ty, y.ty, types)?;
    Ok(Typed {
        expr: Slots::Index(x.expr, y.expr),
        ty,
    })
}

pub fn record(
    alloc: Global,
    line: u32,
    names: &[Str],
    all: AllTyped,
    scope: &mut Scope,
) -> Result<Typed, ScriptFault>
    requires { AreTypes (length scope.old.types) all.types }
    ensures gives { Gives (spec.slots_typed scope.new.types) result
        (spec.fields line names.now (spec.all_typed scope.old.types all)) }
    ensures within { IfOk result (λ made. made.ty < length scope.new.types) }
    ensures extends { Extends scope.old.types scope.new.types }
    ensures sight { scope.new.sight ≡ scope.old.sight }
{
    let ty = record_type(alloc, line, names, all.types.as_slice(), scope)?;
    Ok(Typed {
        expr: Slots::Record(all.exprs),
        ty,
    })
}

pub fn list(line: u32, all: AllTyped, scope: &mut Scope) -> Result<Typed, ScriptFault>
    requires { AreTypes (length scope.old.types) all.types }
    ensures gives { Gives (spec.slots_typed scope.new.types) result
        (spec.members_slots line (spec.all_typed scope.old.types all)) }
    ensures within { IfOk result (λ made. made.ty < length scope.new.types) }
    ensures extends { Extends scope.old.types scope.new.types }
    ensures sight { scope.new.sight ≡ scope.old.sight }
{
    let ty = list_type(line, all.types.as_slice(), scope)?;
    Ok(Typed {
        expr: Slots::List(all.exprs),
        ty,
    })
}

pub fn sided(line: u32, half: Half, x: Operand, scope: &mut Scope) -> Result<Typed, ScriptFault>
    requires other_in { half.other < length scope.old.types }
    requires x_in { x.ty < length scope.old.types }
    ensures gives { Gives (spec.slots_typed scope.new.types) result (spec.sided line half.side
        (type_at scope.old.types half.other) (spec.operand scope.old.types x)) }
    ensures within { IfOk result (λ made. made.ty < length scope.new.types) }
    ensures extends { Extends scope.old.types scope.new.types }
    ensures sight { scope.new.sight ≡ scope.old.sight }
{
    let side = half.side;
    let ty = side_type(line, half, x.ty, scope)?;
    Ok(Typed {
        expr: Slots::Unary(side_of(side), x.expr),
        ty,
    })
}

pub fn pick(line: u32, test: Operand, both: Pair, types: &Types) -> Result<Typed, ScriptFault>
    requires test_in { test.ty < length types.now }
    requires first { both.first.ty < length types.now }
    requires second { both.second.ty < length types.now }
    ensures gives { Gives (spec.slots_typed types.now) result
        (spec.pick line (spec.operand types.now test) (spec.operand types.now both.first)
        (spec.operand types.now both.second)) }
    ensures within { IfOk result (λ made. made.ty < length types.now) }
{
    let Pair { first, second } = both;
    let sides = Sides {
        left: first.ty,
        right: second.ty,
    };
    let ty = pick_type(line, test.ty, sides, types)?;
    Ok(Typed {
        expr: Slots::Pick(test.expr, first.expr, second.expr),
        ty,
    })
}
