//! Of what kind types are.
ghost use Rattle.std.specs.Prelude.{◌≡◌, ◌<◌, length};
ghost use Rattle.flume_types.specs.declared.types.Ty.{out-Ty};
ghost use Rattle.type_table.specs.Table.{type_at};
ghost use Rattle.expression_types.specs.Types as spec;

use type_table::{Shape, TypeId, Types};

/// Whether it is the type of numbers.
pub fn is_int(types: &Types, id: TypeId) -> bool
    requires { id < length types.now }
    ensures { result ≡ spec.is_int (out-Ty (type_at types.now id)) }
{
    match types.shape(id) {
        Shape::Int => true,
        _ => false,
    }
}

/// Whether it is the type of truth values.
pub fn is_bool(types: &Types, id: TypeId) -> bool
    requires { id < length types.now }
    ensures { result ≡ spec.is_bool (out-Ty (type_at types.now id)) }
{
    match types.shape(id) {
        Shape::Bool => true,
        _ => false,
    }
}

/// Whether it is the type of texts.
pub fn is_text(types: &Types, id: TypeId) -> bool
    requires { id < length types.now }
    ensures { result ≡ spec.is_text (out-Ty (type_at types.now id)) }
{
    match types.shape(id) {
        Shape::Text => true,
        _ => false,
    }
}

/// Whether it is the type of texts or of lists.
pub fn is_long(types: &Types, id: TypeId) -> bool
    requires { id < length types.now }
    ensures { result ≡ spec.is_long (out-Ty (type_at types.now id)) }
{
    match types.shape(id) {
        Shape::Text => true,
        Shape::List(_) => true,
        _ => false,
    }
}
