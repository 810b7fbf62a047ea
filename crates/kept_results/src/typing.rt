// Whether a value has the type of a number.
ghost use Rattle.std.specs.Prelude.{◌≡◌, ◌<◌, ℕ, ℤ, Bool, List, length, map};
ghost use Rattle.std.specs.List.{list_all};
ghost use Rattle.flume_types.specs.declared.types.Ty.{Ty};
ghost use Rattle.flume_types.specs.Typing.{each_has as each_fits, has_type as has, layer_has};
ghost use Rattle.flume_value.specs.declared.value.Value.{Value-F};
ghost use Rattle.type_table.specs.Table.{AreWithin, field_at, shape_layer, type_at};

use flume_value::Value;
use type_table::{Part, Shape, TypeId, Types};

/// Whether the value has the type of that number. It takes no memory.
#[cycle(has)]
pub fn has_type(value: &Value, types: &Types, id: TypeId) -> bool
    requires { id < length types.now }
    ensures { result ≡ has value.now (type_at types.now id) }
{
    let shape = types.shape(id);
    match value {
        Value::Int(_) => is_int(shape),
        Value::Bool(_) => is_bool(shape),
        Value::Text(_) => is_text(shape),
        Value::Wide(_) => false,
        Value::List(items) => match shape {
            Shape::List(part) => all_have(items.as_slice(), types, *part),
            _ => false,
        },
        Value::Rec(items) => match shape {
            Shape::Rec(parts) => each_has(items.as_slice(), types, parts.as_slice()),
            _ => false,
        },
        Value::Left(part) => match shape {
            Shape::Either(left, _) => has_type(part.get(), types, *left),
            _ => false,
        },
        Value::Right(part) => match shape {
            Shape::Either(_, right) => has_type(part.get(), types, *right),
            _ => false,
        },
    }
}

/// Whether the values all have it.
#[cycle(has)]
pub fn all_have(items: &[Value], types: &Types, id: TypeId) -> bool
    requires { id < length types.now }
    ensures { result ≡ list_all (λ x. has x (type_at types.now id)) items.now }
{
    for item in items {
        if !has_type(item, types, id) {
            return false;
        }
    }
    true
}

#[cycle(has)]
fn each_has(items: &[Value], types: &Types, parts: &[Part]) -> bool
    requires { AreWithin (length types.now) parts.now }
    ensures { result ≡ each_fits has items.now (map (field_at types.now) parts.now) }
{
    if items.len() != parts.len() {
        return false;
    }
    for i in 0..items.len() {
        if !has_type(&items[i], types, parts[i].ty) {
            return false;
        }
    }
    true
}

fn is_int(shape: &Shape) -> bool
    ensures { (types : List Ty) (n : ℤ) → result
        ≡ layer_has has (Value-F.Int n) (shape_layer types shape.now) }
{
    matches!(shape, Shape::Int)
}

fn is_bool(shape: &Shape) -> bool
    ensures { (types : List Ty) (b : Bool) → result
        ≡ layer_has has (Value-F.Bool b) (shape_layer types shape.now) }
{
    matches!(shape, Shape::Bool)
}

fn is_text(shape: &Shape) -> bool
    ensures { (types : List Ty) (text : List ℕ) → result
        ≡ layer_has has (Value-F.Text text) (shape_layer types shape.now) }
{
    matches!(shape, Shape::Text)
}
