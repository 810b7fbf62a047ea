// The parts of values, and what operations give of one value or two.
ghost use Rattle.std.specs.Prelude.{◌≡◌, Some, ◌++◌, slice_get, IfOk, IfErr};
ghost use Rattle.dofn_eval.specs.Outcome.{Gives, IsSafe, with_part};
ghost use Rattle.flume_value.specs.Order.{value_cmp};
ghost use Rattle.flume_value.specs.Parts.{int_of, bool_of, members_of};
ghost use Rattle.dofn_eval.specs.Operations.{field_in, member_in, of_one, of_two};
ghost use Rattle.dofn_calls.specs.inner.Operands.{content};
ghost use Rattle.dofn_calls.specs.inner.Evaluates.{Evaluates, Returns};

use crate::arithmetic::{compute, difference, is_met, length_value};
use crate::operand::Operand;
use crate::words::words;
use dofn_eval::{Binary, Unary};
use flume_value::{CallFault, Held, Kind, Pile, Str, Value, compare, copy};
use int_text::int_of_text;
use itoa::Buffer;
use std::alloc::Global;
use std::cmp::Ordering;

/// The field at a place of a record.
pub fn field<'a>(x: Operand<'a>, at: usize) -> Operand<'a>
    requires { IsSafe (field_in at (content x)) }
    ensures { field_in at (content x.entry) ≡ Gives (content result) }
{
    match x {
        Operand::Borrowed(value) => Operand::Borrowed(field_of(value, at)),
        Operand::Owned(value) => Operand::Owned(into_field(value, at)),
    }
}

fn field_of(x: &Value, at: usize) -> &Value
    requires { IsSafe (field_in at x.now) }
    ensures { field_in at x.now ≡ Gives result.now }
{
    match x {
        Value::Rec(fields) => match fields.get(at) {
            Some(value) => value,
            None => unreachable!(),
        },
        _ => unreachable!(),
    }
}

fn into_field(x: Value, at: usize) -> Value
    requires { IsSafe (field_in at x) }
    ensures { field_in at x ≡ Gives result }
{
    match x {
        Value::Rec(fields) => match take(fields.into_vec(), at) {
            Some(value) => value,
            None => unreachable!(),
        },
        _ => unreachable!(),
    }
}

/// The member of a list at an index.
pub fn member<'a>(x: Operand<'a>, at: Operand<'a>) -> Result<Operand<'a>, CallFault>
    requires { IsSafe (member_in (content x) (content at)) }
    ensures { Evaluates content result (member_in (content x.entry) (content at.entry)) }
{
    let member = member_at(x, at.get());
    drop(at);
    member
}

fn member_at<'a>(x: Operand<'a>, at: &Value) -> Result<Operand<'a>, CallFault>
    requires { IsSafe (member_in (content x) at.now) }
    ensures { Evaluates content result (member_in (content x.entry) at.now) }
{
    match x {
        Operand::Borrowed(value) => Ok(Operand::Borrowed(member_of(value, at)?)),
        Operand::Owned(value) => Ok(Operand::Owned(into_member(value, at)?)),
    }
}

fn member_of<'a>(x: &'a Value, at: &Value) -> Result<&'a Value, CallFault>
    requires { IsSafe (member_in x.now at.now) }
    ensures { Evaluates (λ v. v.now) result (member_in x.now at.now) }
{
    match x {
        Value::List(members) => match at {
            Value::Int(n) => {
                if *n < 0 {
                    return Err(CallFault::Trap(Kind::BadIndex));
                }
                match members.get(*n as usize) {
                    Some(value) => Ok(value),
                    None => Err(CallFault::Trap(Kind::BadIndex)),
                }
            }
            _ => unreachable!(),
        },
        _ => unreachable!(),
    }
}

fn into_member(x: Value, at: &Value) -> Result<Value, CallFault>
    requires { IsSafe (member_in x at.now) }
    ensures { Returns result (member_in x at.now) }
{
    match x {
        Value::List(members) => match at {
            Value::Int(n) => {
                if *n < 0 {
                    return Err(CallFault::Trap(Kind::BadIndex));
                }
                match take(members.into_vec(), *n as usize) {
                    Some(value) => Ok(value),
                    None => Err(CallFault::Trap(Kind::BadIndex)),
                }
            }
            _ => unreachable!(),
        },
        _ => unreachable!(),
    }
}

// The item at a place, by itself.
fn take(mut items: Vec<Value>, at: usize) -> Option<Value>
    ensures { result ≡ slice_get items.items at }
{
    if at < items.len() {
        Some(items.swap_remove(at))
    } else {
        None
    }
}

/// The members of a list.
pub fn members(x: &Value) -> &[Value]
    requires { IsSafe (with_part (members_of x.now) Gives) }
    ensures { members_of x.now ≡ Some result.now }
{
    match x {
        Value::List(members) => members.as_slice(),
        _ => unreachable!(),
    }
}

/// Whether a test holds.
pub fn is_true<'a>(x: Operand<'a>) -> bool
    requires { IsSafe (with_part (bool_of (content x)) Gives) }
    ensures { bool_of (content x.entry) ≡ Some result }
{
    let holds = test(x.get());
    drop(x);
    holds
}

fn test(x: &Value) -> bool
    requires { IsSafe (with_part (bool_of x.now) Gives) }
    ensures { bool_of x.now ≡ Some result }
{
    match x {
        Value::Bool(b) => *b,
        _ => unreachable!(),
    }
}

fn number(x: &Value) -> i64
    requires { IsSafe (with_part (int_of x.now) Gives) }
    ensures { int_of x.now ≡ Some result }
{
    match x {
        Value::Int(n) => *n,
        _ => unreachable!(),
    }
}

/// What an operation gives of one value.
pub fn apply_one<'a>(alloc: Global, op: Unary, x: Operand<'a>) -> Result<Value, CallFault>
    requires { IsSafe (of_one op (content x)) }
    ensures { Returns result (of_one op (content x.entry)) }
{
    match x {
        Operand::Borrowed(value) => of_seen(alloc, op, value),
        Operand::Owned(value) => of_own(alloc, op, value),
    }
}

fn of_seen(alloc: Global, op: Unary, x: &Value) -> Result<Value, CallFault>
    requires { IsSafe (of_one op x.now) }
    ensures { Returns result (of_one op x.now) }
{
    match op {
        Unary::Negate => difference(0, number(x)),
        Unary::Not => Ok(Value::Bool(!test(x))),
        Unary::Len => count(x),
        Unary::Words => split(alloc, x),
        Unary::Text => decimal(alloc, x),
        Unary::Number => read(x),
        Unary::Left => left(alloc, copy(alloc, x)?),
        Unary::Right => right(alloc, copy(alloc, x)?),
    }
}

// A side takes the value itself.
fn of_own(alloc: Global, op: Unary, x: Value) -> Result<Value, CallFault>
    requires { IsSafe (of_one op x) }
    ensures { Returns result (of_one op x) }
{
    match op {
        Unary::Left => left(alloc, x),
        Unary::Right => right(alloc, x),
        _ => {
            let given = of_seen(alloc, op, &x);
            drop(x);
            given
        }
    }
}

fn left(alloc: Global, x: Value) -> Result<Value, CallFault>
    ensures { Returns result (of_one Unary.Left x) }
{
    Ok(Value::Left(Held::new(alloc, x)?))
}

fn right(alloc: Global, x: Value) -> Result<Value, CallFault>
    ensures { Returns result (of_one Unary.Right x) }
{
    Ok(Value::Right(Held::new(alloc, x)?))
}

/// What an operation gives of two values.
pub fn apply_two<'a>(
    alloc: Global,
    op: Binary,
    x: Operand<'a>,
    y: Operand<'a>,
) -> Result<Value, CallFault>
    requires { IsSafe (of_two op (content x) (content y)) }
    ensures { Returns result (of_two op (content x.entry) (content y.entry)) }
{
    match op {
        Binary::Arithmetic(op) => compute(op, integer(x), integer(y)),
        Binary::Comparison(op) => Ok(Value::Bool(is_met(op, order(x, y)))),
        Binary::Concat => join(alloc, x, y),
    }
}

fn integer<'a>(x: Operand<'a>) -> i64
    requires { IsSafe (with_part (int_of (content x)) Gives) }
    ensures { int_of (content x.entry) ≡ Some result }
{
    let n = number(x.get());
    drop(x);
    n
}

fn order<'a>(x: Operand<'a>, y: Operand<'a>) -> Ordering
    ensures { result ≡ value_cmp (content x.entry) (content y.entry) }
{
    let order = compare(x.get(), y.get());
    drop(x);
    drop(y);
    order
}

fn join<'a>(alloc: Global, x: Operand<'a>, y: Operand<'a>) -> Result<Value, CallFault>
    requires { IsSafe (of_two Binary.Concat (content x) (content y)) }
    ensures { Returns result (of_two Binary.Concat (content x.entry) (content y.entry)) }
{
    match x.into_owned(alloc) {
        Ok(own) => {
            let both = put_behind(alloc, own, y.get());
            drop(y);
            both
        }
        Err(fault) => {
            drop(y);
            Err(fault.into())
        }
    }
}

fn count(x: &Value) -> Result<Value, CallFault>
    requires { IsSafe (of_one Unary.Len x.now) }
    ensures { Returns result (of_one Unary.Len x.now) }
{
    match x {
        Value::List(members) => length_value(members.len()),
        Value::Text(text) => length_value(text.len()),
        _ => unreachable!(),
    }
}

fn split(alloc: Global, x: &Value) -> Result<Value, CallFault>
    requires { IsSafe (of_one Unary.Words x.now) }
    ensures { Returns result (of_one Unary.Words x.now) }
{
    match x {
        Value::Text(text) => Ok(Value::List(Pile::from_vec(words(alloc, text.as_bytes())?))),
        _ => unreachable!(),
    }
}

fn decimal(alloc: Global, x: &Value) -> Result<Value, CallFault>
    requires { IsSafe (of_one Unary.Text x.now) }
    ensures { Returns result (of_one Unary.Text x.now) }
{
    let mut buffer = Buffer::new();
    let digits = buffer.format(number(x));
    Ok(Value::Text(Str::from_slice(alloc, digits.as_bytes())?))
}

fn read(x: &Value) -> Result<Value, CallFault>
    requires { IsSafe (of_one Unary.Number x.now) }
    ensures { Returns result (of_one Unary.Number x.now) }
{
    match x {
        Value::Text(text) => match int_of_text(text.as_bytes()) {
            Some(n) => Ok(Value::Int(n)),
            None => Err(CallFault::Trap(Kind::BadNumber)),
        },
        _ => unreachable!(),
    }
}

fn put_behind(alloc: Global, x: Value, y: &Value) -> Result<Value, CallFault>
    requires { IsSafe (of_two Binary.Concat x y.now) }
    ensures { Returns result (of_two Binary.Concat x y.now) }
{
    match x {
        Value::Text(text) => match y {
            Value::Text(more) => Ok(Value::Text(text.joined(alloc, more)?)),
            _ => unreachable!(),
        },
        Value::List(members) => match y {
            Value::List(more) => {
                let mut all = members.into_vec();
                append(alloc, &mut all, more.as_slice())?;
                Ok(Value::List(Pile::from_vec(all)))
            }
            _ => unreachable!(),
        },
        _ => unreachable!(),
    }
}

// Puts copies of the members behind the others.
fn append(alloc: Global, all: &mut Vec<Value>, members: &[Value]) -> Result<(), CallFault>
    ensures ok { IfOk result (λ _. all.new.items ≡ all.old.items ++ members.now) }
    ensures err { IfErr result (λ f. f ≡ CallFault.Memory) }
{
    for value in members {
        all.push(copy(alloc, value)?)?;
    }
    Ok(())
}
