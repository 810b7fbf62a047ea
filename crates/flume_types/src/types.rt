// The types of values, and the fields of record types.
use flume_value::{Held, Pile, Str};

/// A type of values.
#[derive(PartialEq, Eq, Drop)]
pub enum Ty {
    /// Signed numbers of 64 bits.
    Int,
    /// Truth values.
    Bool,
    /// Byte texts.
    Text,
    /// Lists whose members have this type.
    List(Held<Ty>),
    /// Records of these fields, in this order. A script's record types have 1 to 16.
    Rec(Fields),
    /// A left side of the first type, or a right side of the second.
    Either(Held<Ty>, Held<Ty>),
}

/// The fields of a record type, in order.
pub type Fields = Pile<Field<Ty>>;

/// A name, and what is said under it: a field of a record type is a `Field<Ty>`.
#[derive(PartialEq, Eq, Drop)]
pub struct Field<T> {
    /// The field's name.
    pub name: Str,
    /// The field's type.
    pub ty: T,
}
