// The columns of a flat type, which the cells of its values fill.
ghost use Rattle.std.specs.Prelude.{◌≡◌, ◌≢◌, ◌++◌, IsTrue, List, Some, None, IfOk, IfErr, OnOk, codes};
ghost use Rattle.flume_types.specs.Columns.{columns_and, columns_of, input_columns_of, cell_kind as kind_of, cell_column, cells_under, field_columns, record_columns};
ghost use Rattle.flume_value.specs.declared.value.Value.{Value as Value_};
ghost use Rattle.flume_types.specs.Cells.{cells_of, are_filled};
ghost use Rattle.flume_types.specs.Typing.{has_type};
ghost use Rattle.flume_types.specs.declared.types.Ty.{Ty as Ty_, out-Ty};
ghost use Rattle.flume_types.specs.declared.column.Column.{Column as Column_};

use crate::column::{Column, ColumnFault, ColumnKind, Columns};
use crate::types::{Field, Ty};
use flume_value::{Pile, Str, Value};
use std::alloc::{AllocError, Global};

/// The columns of a flat type: of int, bool and text the one column `value`, and of a record
/// those of its fields in order, where a field f that is int, bool or text has the column `f`,
/// and one that is a record of these has `f.g` for each of its fields g. `NotFlat` comes
/// exactly where the type is none of this.
pub fn columns(alloc: Global, ty: &Ty) -> Result<Columns, ColumnFault>
    ensures flat { IfOk result (λ columns. columns_of ty.now ≡ Some columns) }
    ensures not_flat { IfErr result (λ e. e ≢ ColumnFault.Memory →
        columns_of ty.now ≡ None) }
{
    let mut columns = Pile::new(alloc);
    match ty {
        Ty::Rec(fields) => add_fields(alloc, fields.as_slice(), &mut columns)?,
        cell => add_cell(Str::from_slice(alloc, b"value")?, cell, &mut columns)?,
    }
    Ok(columns)
}

/// The columns of an input's type, which is a record of int, bool and text: its fields.
/// `NotFlat` comes exactly where the type is another one.
pub fn input_columns(alloc: Global, ty: &Ty) -> Result<Columns, ColumnFault>
    ensures flat { IfOk result (λ columns. input_columns_of ty.now ≡ Some columns) }
    ensures not_flat { IfErr result (λ e. e ≢ ColumnFault.Memory →
        input_columns_of ty.now ≡ None) }
{
    match ty {
        Ty::Rec(fields) => {
            let mut columns = Pile::new(alloc);
            add_cells(alloc, b"", fields.as_slice(), &mut columns)?;
            Ok(columns)
        }
        _ => Err(ColumnFault::NotFlat),
    }
}

/// The cells of a value of a flat type fill the type's columns: as many, and each of its
/// column's kind. An input's type is flat, with the same columns, and its values are just the
/// records whose fields fill them.
pub fn columns_law()
    ensures cells { (v : Value_) (t : Ty_) (columns : List Column_) →
        columns_of t ≡ Some columns → IsTrue (has_type v t) →
        IsTrue (are_filled columns (cells_of v)) }
    ensures input { (t : Ty_) (columns : List Column_) →
        input_columns_of t ≡ Some columns → columns_of t ≡ Some columns }
    ensures records { (t : Ty_) (columns : List Column_) (cells : List Value_) →
        input_columns_of t ≡ Some columns →
        has_type (Value.Rec cells) t ≡ are_filled columns cells }
{}

fn add_fields(alloc: Global, fields: &[Field<Ty>], columns: &mut Columns) -> Result<(), ColumnFault>
    ensures flat { OnOk result (
        columns_and (Some columns.old) (record_columns fields.now) ≡ Some columns.new) }
    ensures not_flat { IfErr result (λ e. e ≢ ColumnFault.Memory →
        record_columns fields.now ≡ None) }
{
    for field in fields {
        add_field(alloc, field, columns)?;
    }
    Ok(())
}

fn add_field(alloc: Global, field: &Field<Ty>, columns: &mut Columns) -> Result<(), ColumnFault>
    ensures flat { OnOk result (
        columns_and (Some columns.old) (field_columns field.now.name (out-Ty field.now.ty))
        ≡ Some columns.new) }
    ensures not_flat { IfErr result (λ e. e ≢ ColumnFault.Memory →
        field_columns field.now.name (out-Ty field.now.ty) ≡ None) }
{
    match &field.ty {
        Ty::Rec(fields) => {
            let prefix = dotted(alloc, &field.name)?;
            add_cells(alloc, prefix.as_bytes(), fields.as_slice(), columns)
        }
        cell => add_cell(field.name.copy(alloc)?, cell, columns),
    }
}

/// Adds the columns of a record of cells, each named by the prefix and then its field.
fn add_cells(
    alloc: Global,
    prefix: &[u8],
    fields: &[Field<Ty>],
    columns: &mut Columns,
) -> Result<(), ColumnFault>
    ensures flat { OnOk result (
        columns_and (Some columns.old) (cells_under prefix.now fields.now)
        ≡ Some columns.new) }
    ensures not_flat { IfErr result (λ e. e ≢ ColumnFault.Memory →
        cells_under prefix.now fields.now ≡ None) }
{
    for field in fields {
        let name = prefixed(alloc, prefix, &field.name)?;
        add_cell(name, &field.ty, columns)?;
    }
    Ok(())
}

fn add_cell(name: Str, ty: &Ty, columns: &mut Columns) -> Result<(), ColumnFault>
    ensures flat { OnOk result (
        columns_and (Some columns.old) (cell_column name (out-Ty ty.now))
        ≡ Some columns.new) }
    ensures not_flat { IfErr result (λ e. e ≢ ColumnFault.Memory →
        cell_column name (out-Ty ty.now) ≡ None) }
{
    let Some(kind) = cell_kind(ty) else {
        return Err(ColumnFault::NotFlat);
    };
    columns.push(Column { name, kind })?;
    Ok(())
}

fn cell_kind(ty: &Ty) -> Option<ColumnKind>
    ensures { result ≡ kind_of (out-Ty ty.now) }
{
    match ty {
        Ty::Int => Some(ColumnKind::Int),
        Ty::Bool => Some(ColumnKind::Bool),
        Ty::Text => Some(ColumnKind::Text),
        _ => None,
    }
}

fn dotted(alloc: Global, name: &Str) -> Result<Str, AllocError>
    ensures { IfOk result (λ dotted. dotted ≡ name.now ++ codes ".") }
{
    let dot = Str::from_slice(alloc, b".")?;
    prefixed(alloc, name.as_bytes(), &dot)
}

fn prefixed(alloc: Global, prefix: &[u8], name: &Str) -> Result<Str, AllocError>
    ensures { IfOk result (λ s. s ≡ prefix.now ++ name.now) }
{
    Str::from_slice(alloc, prefix)?.joined(alloc, name)
}
