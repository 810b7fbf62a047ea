// The columns of a flat type, and of the type of an input.
ghost use Rattle.std.specs.Prelude.{◌≡◌, ◌≢◌, ◌<◌, ◌++◌, List, length, map, Some, None, IfOk, IfErr, OnOk, codes};
ghost use Rattle.flume_types.specs.declared.types.Ty.{Ty, out-Ty};
ghost use Rattle.flume_types.specs.Columns.{columns_and, columns_of, input_columns_of, cell_kind as kind_of, cell_column, cells_under, field_columns, record_columns};
ghost use Rattle.type_table.specs.inner.Adding.{Adds};
ghost use Rattle.type_table.specs.Table.{type_at};
ghost use Rattle.type_table.specs.Table as spec;

use crate::shape::{Part, Shape, TypeId};
use crate::table::Types;
use flume_types::flume_value::{Pile, Str};
use flume_types::{Column, ColumnFault, ColumnKind, Columns};
use std::alloc::{AllocError, Global};

/// The columns of a flat type, as `flume_types::columns` gives them. `NotFlat` comes exactly
/// where the type has none.
pub fn columns(alloc: Global, types: &Types, id: TypeId) -> Result<Columns, ColumnFault>
    requires { id < length types.now }
    ensures flat { IfOk result (λ columns. columns_of (type_at types.now id) ≡ Some columns) }
    ensures not_flat { IfErr result (λ e. e ≢ ColumnFault.Memory →
        columns_of (type_at types.now id) ≡ None) }
{
    let mut columns = Pile::new(alloc);
    match types.shape(id) {
        Shape::Rec(parts) => add_fields(alloc, types, parts.as_slice(), &mut columns)?,
        cell => add_cell(Str::from_slice(alloc, b"value")?, cell, &mut columns)?,
    }
    Ok(columns)
}

/// The columns of an input's type, as `flume_types::input_columns` gives them. `NotFlat` comes
/// exactly where the type is no record of int, bool and text.
pub fn input_columns(alloc: Global, types: &Types, id: TypeId) -> Result<Columns, ColumnFault>
    requires { id < length types.now }
    ensures flat { IfOk result (λ columns. input_columns_of (type_at types.now id) ≡ Some columns) }
    ensures not_flat { IfErr result (λ e. e ≢ ColumnFault.Memory →
        input_columns_of (type_at types.now id) ≡ None) }
{
    match types.shape(id) {
        Shape::Rec(parts) => {
            let mut columns = Pile::new(alloc);
            add_cells(alloc, types, b"", parts.as_slice(), &mut columns)?;
            Ok(columns)
        }
        _ => Err(ColumnFault::NotFlat),
    }
}

fn add_fields(
    alloc: Global,
    types: &Types,
    parts: &[Part],
    columns: &mut Columns,
) -> Result<(), ColumnFault>
    requires { spec.AreWithin (length types.now) parts.now }
    ensures flat { OnOk result (Adds columns.old columns.new
        (record_columns (map (spec.field_at types.now) parts.now))) }
    ensures not_flat { IfErr result (λ e. e ≢ ColumnFault.Memory →
        record_columns (map (spec.field_at types.now) parts.now) ≡ None) }
{
    for part in parts {
        add_field(alloc, types, part, columns)?;
    }
    Ok(())
}

fn add_field(
    alloc: Global,
    types: &Types,
    part: &Part,
    columns: &mut Columns,
) -> Result<(), ColumnFault>
    requires { part.now.ty < length types.now }
    ensures flat { OnOk result (Adds columns.old columns.new
        (field_columns part.now.name (out-Ty (type_at types.now part.now.ty)))) }
    ensures not_flat { IfErr result (λ e. e ≢ ColumnFault.Memory →
        field_columns part.now.name (out-Ty (type_at types.now part.now.ty)) ≡ None) }
{
    match types.shape(part.ty) {
        Shape::Rec(parts) => {
            let prefix = dotted(alloc, &part.name)?;
            add_cells(alloc, types, prefix.as_slice(), parts.as_slice(), columns)
        }
        cell => add_cell(part.name.copy(alloc)?, cell, columns),
    }
}

/// Adds the columns of a record of cells, each named by the prefix and then its field.
fn add_cells(
    alloc: Global,
    types: &Types,
    prefix: &[u8],
    parts: &[Part],
    columns: &mut Columns,
) -> Result<(), ColumnFault>
    requires { spec.AreWithin (length types.now) parts.now }
    ensures flat { OnOk result (Adds columns.old columns.new
        (cells_under prefix.now (map (spec.field_at types.now) parts.now))) }
    ensures not_flat { IfErr result (λ e. e ≢ ColumnFault.Memory →
        cells_under prefix.now (map (spec.field_at types.now) parts.now) ≡ None) }
{
    for part in parts {
        let name = prefixed(alloc, prefix, &part.name)?;
        add_cell_at(name, types, part.ty, columns)?;
    }
    Ok(())
}

fn add_cell_at(
    name: Str,
    types: &Types,
    id: TypeId,
    columns: &mut Columns,
) -> Result<(), ColumnFault>
    requires { id < length types.now }
    ensures flat { OnOk result (Adds columns.old columns.new
        (cell_column name (out-Ty (type_at types.now id)))) }
    ensures not_flat { IfErr result (λ e. e ≢ ColumnFault.Memory →
        cell_column name (out-Ty (type_at types.now id)) ≡ None) }
{
    add_cell(name, types.shape(id), columns)
}

fn add_cell(name: Str, shape: &Shape, columns: &mut Columns) -> Result<(), ColumnFault>
    ensures flat { OnOk result ((types : List Ty) → Adds columns.old columns.new
        (cell_column name (spec.shape_layer types shape.now))) }
    ensures not_flat { IfErr result (λ e. e ≢ ColumnFault.Memory → (types : List Ty) →
        cell_column name (spec.shape_layer types shape.now) ≡ None) }
{
    match cell_kind(shape) {
        Some(kind) => {
            columns.push(Column { name, kind })?;
            Ok(())
        }
        None => Err(ColumnFault::NotFlat),
    }
}

fn cell_kind(shape: &Shape) -> Option<ColumnKind>
    ensures { (types : List Ty) → result ≡ kind_of (spec.shape_layer types shape.now) }
{
    match shape {
        Shape::Int => Some(ColumnKind::Int),
        Shape::Bool => Some(ColumnKind::Bool),
        Shape::Text => Some(ColumnKind::Text),
        _ => None,
    }
}

fn dotted(alloc: Global, name: &Str) -> Result<Vec<u8>, AllocError>
    ensures { IfOk result (λ bytes. bytes.items ≡ name.now ++ codes ".") }
{
    let mut bytes = Vec::from_slice(alloc, name.as_bytes())?;
    bytes.push(b'.')?;
    Ok(bytes)
}

fn prefixed(alloc: Global, prefix: &[u8], name: &Str) -> Result<Str, AllocError>
    ensures { IfOk result (λ s. s ≡ prefix.now ++ name.now) }
{
    Str::from_slice(alloc, prefix)?.joined(alloc, name)
}
