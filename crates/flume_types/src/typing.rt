// Whether a value has a type.
ghost use Rattle.std.specs.Prelude.{◌≡◌};
ghost use Rattle.std.specs.List.{list_all};
ghost use Rattle.flume_value.specs.declared.value.Value.{Value as Value_, out-Value};
ghost use Rattle.flume_types.specs.declared.types.Ty.{Ty as Ty_, out-Ty};
ghost use Rattle.flume_types.specs.Typing.{has_type as has, layer_has, each_has};

use crate::types::{Field, Ty};
use flume_value::Value;

/// Whether the value has the type. It takes no memory.
#[cycle(has)]
pub fn has_type(value: &Value, ty: &Ty) -> bool
    ensures { result ≡ has value.now ty.now }
{
    match (value, ty) {
        (Value::Int(_), Ty::Int) => true,
        (Value::Bool(_), Ty::Bool) => true,
        (Value::Text(_), Ty::Text) => true,
        (Value::List(items), Ty::List(ty)) => all_have(items.as_slice(), ty.get()),
        (Value::Rec(items), Ty::Rec(fields)) => each_has(items.as_slice(), fields.as_slice()),
        (Value::Left(part), Ty::Either(left, _)) => has_type(part.get(), left.get()),
        (Value::Right(part), Ty::Either(_, right)) => has_type(part.get(), right.get()),
        _ => false,
    }
}

#[cycle(has)]
fn all_have(items: &[Value], ty: &Ty) -> bool
    ensures { result ≡ list_all (λ x. has x ty.now) items.now }
{
    for item in items {
        if !has_type(item, ty) {
            return false;
        }
    }
    true
}

#[cycle(has)]
fn each_has(items: &[Value], fields: &[Field<Ty>]) -> bool
    ensures { result ≡ each_has has items.now fields.now }
{
    if items.len() != fields.len() {
        return false;
    }
    for i in 0..items.len() {
        if !has_type(&items[i], &fields[i].ty) {
            return false;
        }
    }
    true
}

/// Whether a value has a type, from whether its parts have the type's parts.
pub fn typing_law()
    ensures one_level { (v : Value_) (t : Ty_) → has v t ≡ layer_has has (out-Value v) (out-Ty t) }
{}
