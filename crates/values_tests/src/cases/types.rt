// Rows of types: the values that have them, how deep they are, and their columns.
use super::samples::{Sample, value_of};
use flume_types::{
    ColumnFault, ColumnKind, Columns, Field, Ty, columns, copy, depth, has_type, input_columns,
    same_type, table_type,
};
use flume_value::{Held, Pile, Str};
use std::alloc::{AllocError, Global};
use std::test::Fail;

/// A type that tests try, as plain data.
#[derive(Clone, Copy)]
enum Shape {
    Int,
    Text,
    /// `list<int>`
    Ints,
    /// `{x: int, ok: bool}`
    Point,
    /// `{id: text, at: {x: int, ok: bool}}`
    Place,
    /// The list of such places.
    Places,
    /// `table<int, bool>`
    Pair,
    /// `table<int, {id: text, at: {x: int, ok: bool}}>`
    Nested,
    /// `either<int, bool>`
    Either,
}

fn type_of(alloc: Global, shape: Shape) -> Result<Ty, AllocError> {
    match shape {
        Shape::Int => Ok(Ty::Int),
        Shape::Text => Ok(Ty::Text),
        Shape::Ints => list_of(alloc, Ty::Int),
        Shape::Point => point(alloc),
        Shape::Place => place(alloc),
        Shape::Places => list_of(alloc, place(alloc)?),
        Shape::Pair => table_type(alloc, Ty::Int, Ty::Bool),
        Shape::Nested => nested(alloc),
        Shape::Either => either(alloc),
    }
}

fn list_of(alloc: Global, ty: Ty) -> Result<Ty, AllocError> {
    Ok(Ty::List(Held::new(alloc, ty)?))
}

fn either(alloc: Global) -> Result<Ty, AllocError> {
    let left = Held::new(alloc, Ty::Int)?;
    Ok(Ty::Either(left, Held::new(alloc, Ty::Bool)?))
}

fn nested(alloc: Global) -> Result<Ty, AllocError> {
    let value = place(alloc)?;
    table_type(alloc, Ty::Int, value)
}

fn push_field(
    alloc: Global,
    name: &[u8],
    ty: Ty,
    fields: &mut Pile<Field<Ty>>,
) -> Result<(), AllocError> {
    let name = Str::from_slice(alloc, name)?;
    fields.push(Field { name, ty })
}

fn point(alloc: Global) -> Result<Ty, AllocError> {
    let mut fields = Pile::new(alloc);
    push_field(alloc, b"x", Ty::Int, &mut fields)?;
    push_field(alloc, b"ok", Ty::Bool, &mut fields)?;
    Ok(Ty::Rec(fields))
}

fn place(alloc: Global) -> Result<Ty, AllocError> {
    let mut fields = Pile::new(alloc);
    push_field(alloc, b"id", Ty::Text, &mut fields)?;
    push_field(alloc, b"at", point(alloc)?, &mut fields)?;
    Ok(Ty::Rec(fields))
}

fn is_of(alloc: Global, sample: Sample, ty: &Ty) -> Result<bool, AllocError> {
    let value = value_of(alloc, sample)?;
    Ok(has_type(&value, ty))
}

fn is_typed(alloc: Global, sample: Sample, shape: Shape) -> Result<bool, AllocError> {
    let ty = type_of(alloc, shape)?;
    is_of(alloc, sample, &ty)
}

/// What columns are for: an input, or any table.
#[derive(Clone, Copy)]
enum Use {
    Input,
    Any,
}

fn columns_for(alloc: Global, ty: &Ty, it: Use) -> Result<Columns, ColumnFault> {
    match it {
        Use::Input => input_columns(alloc, ty),
        Use::Any => columns(alloc, ty),
    }
}

/// The columns that a type has for a use.
fn columns_of(alloc: Global, shape: Shape, it: Use) -> Result<Columns, ColumnFault> {
    let ty = type_of(alloc, shape)?;
    columns_for(alloc, &ty, it)
}

/// The columns of a place.
static COLUMNS: [(&[u8], ColumnKind); 3] = [
    (b"id", ColumnKind::Text),
    (b"at.x", ColumnKind::Int),
    (b"at.ok", ColumnKind::Bool),
];

fn are_columns(columns: &Columns, wanted: &[(&[u8], ColumnKind)]) -> bool {
    if columns.len() != wanted.len() {
        return false;
    }
    for (column, (name, kind)) in columns.as_slice().iter().zip(wanted.iter()) {
        if !column.name.is(*name) || column.kind != *kind {
            return false;
        }
    }
    true
}

/// Whether a place has these columns.
fn has_columns(alloc: Global, wanted: &[(&[u8], ColumnKind)]) -> Result<bool, ColumnFault> {
    let all = columns_of(alloc, Shape::Place, Use::Any)?;
    Ok(are_columns(&all, wanted))
}

/// How many columns the type has for a use.
fn width_of(alloc: Global, shape: Shape, it: Use) -> Result<usize, ColumnFault> {
    let all = columns_of(alloc, shape, it)?;
    Ok(all.len())
}

fn has_same_copy(alloc: Global, ty: &Ty) -> Result<bool, AllocError> {
    let copied = copy(alloc, ty)?;
    Ok(same_type(ty, &copied))
}

fn is_point(alloc: Global, ty: &Ty) -> Result<bool, AllocError> {
    let other = point(alloc)?;
    Ok(same_type(ty, &other))
}

/// Whether the type is of this depth, and the same as its copy and no point.
fn is_so(alloc: Global, ty: &Ty, deep: u32) -> Result<bool, AllocError> {
    Ok(has_same_copy(alloc, ty)? && !is_point(alloc, ty)? && depth(ty) == deep)
}

fn is_deep(alloc: Global, shape: Shape, deep: u32) -> Result<bool, AllocError> {
    let ty = type_of(alloc, shape)?;
    is_so(alloc, &ty, deep)
}

/// What is so of types.
#[derive(Clone, Copy)]
enum Claim {
    /// The value has the type.
    Has(Sample, Shape),
    /// The value does not have the type.
    Lacks(Sample, Shape),
    /// For this use the type has so many columns.
    Wide(Shape, Use, usize),
    /// For this use the type is not flat.
    NotFlat(Shape, Use),
    /// The type has this depth, and is the same as its copy and no point.
    Deep(Shape, u32),
}

static CLAIMS: [Claim; 14] = [
    // a list has its type by its members, a record by its fields, an either by its side
    Claim::Has(Sample::Empty, Shape::Ints),
    Claim::Lacks(Sample::Truths, Shape::Ints),
    Claim::Lacks(Sample::Wide(1), Shape::Int),
    Claim::Has(Sample::Pair, Shape::Pair),
    Claim::Lacks(Sample::Pair, Shape::Int),
    Claim::Has(Sample::Right, Shape::Either),
    // a record in a record in a record is not flat, and a cell is one column and no input
    Claim::NotFlat(Shape::Nested, Use::Any),
    Claim::NotFlat(Shape::Nested, Use::Input),
    Claim::Wide(Shape::Int, Use::Any, 1),
    Claim::NotFlat(Shape::Int, Use::Input),
    Claim::Wide(Shape::Point, Use::Input, 2),
    Claim::Deep(Shape::Text, 1),
    Claim::Deep(Shape::Place, 3),
    Claim::Deep(Shape::Places, 4),
];

fn holds(alloc: Global, claim: Claim) -> bool {
    match claim {
        Claim::Has(sample, shape) => matches!(is_typed(alloc, sample, shape), Ok(true)),
        Claim::Lacks(sample, shape) => matches!(is_typed(alloc, sample, shape), Ok(false)),
        Claim::Wide(shape, it, wanted) => {
            matches!(width_of(alloc, shape, it), Ok(width) if width == wanted)
        }
        Claim::NotFlat(shape, it) => {
            matches!(width_of(alloc, shape, it), Err(ColumnFault::NotFlat))
        }
        Claim::Deep(shape, deep) => matches!(is_deep(alloc, shape, deep), Ok(true)),
    }
}

#[test]
fn types_of_values_and_their_columns(rt: HostRuntime) -> Result<(), Fail> {
    let alloc = rt.alloc();
    let wrong = CLAIMS.iter().position(|claim| !holds(alloc, *claim));
    assert_eq!(rt; wrong, None);
    assert!(rt; matches!(has_columns(rt.alloc(), &COLUMNS), Ok(true)));
    Ok(())
}
