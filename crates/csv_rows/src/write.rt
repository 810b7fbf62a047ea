// Writing rows.

ghost use Rattle.std.specs.Prelude.{◌≡◌, ◌++◌, ◌∷◌, [], length, map, Some, IfOk, IfSome, IsSome, IsTrue, OnOk};
ghost use Rattle.std.specs.Io.KnownBytes.{Appends};
ghost use Rattle.std.specs.List.{All};
ghost use Rattle.csv.specs.Records.{fields_of, partial_of};
ghost use Rattle.csv.specs.Writing.{row_text, text_written};
ghost use Rattle.flume_value.specs.Bag.{bag_of};
ghost use Rattle.flume_value.specs.declared.value.Value.{out-Value};
ghost use Rattle.flume_types.specs.Cells.{cells_of, field_cells};
ghost use Rattle.flume_types.specs.Columns.{columns_of};
ghost use Rattle.flume_types.specs.Typing.{has_type};
ghost use Rattle.csv_rows.specs.Text.{cell_text, plain_writer, table_text, csv_text_of};
ghost use Rattle.csv_rows.specs.inner.Writers.{IsFresh};

use csv::{ByteRecord, Writer, WriterBuilder};
use flume_types::{Column, ColumnFault, Ty, columns};
use flume_value::{Items, Value, ascending};
use itoa::Buffer;
use std::alloc::{AllocError, Global};
use std::io::Write;

/// The sorted text of a bag of values of a flat type.
///
/// Its header is the names of the type's columns, and its rows are the values in ascending order,
/// equal ones repeated, as `csv` writes them. The values stay as they are: references are sorted.
pub fn text(alloc: Global, values: &Items, ty: &Ty) -> Result<Vec<u8>, AllocError>
    requires flat { IsSome (columns_of ty.now) }
    requires typed { All (λ value. IsTrue (has_type value ty.now)) values.now }
    ensures { IfOk result (λ text. csv_text_of (bag_of values.now) ty.now ≡ Some text.items) }
{
    let bag = ascending(alloc, values.as_slice())?;
    match columns(alloc, ty) {
        Ok(columns) => write_table(alloc, columns.as_slice(), &bag),
        Err(ColumnFault::Memory) => Err(AllocError),
        Err(ColumnFault::NotFlat) => unreachable!(),
    }
}

/// The text of values of a type whose columns are these: a header, and a row for each value, in
/// this order.
pub fn text_under_columns(
    alloc: Global,
    values: &[Value],
    columns: &[Column],
) -> Result<Vec<u8>, AllocError>
    ensures { IfOk result (λ text. text.items ≡ table_text columns.now values.now) }
{
    let values: Vec<&Value> = values.iter().collect(alloc)?;
    write_table(alloc, columns, &values)
}

/// The text of a header and of a row for each value, in this order.
fn write_table(alloc: Global, columns: &[Column], values: &[&Value]) -> Result<Vec<u8>, AllocError>
    ensures { IfOk result (λ text.
        text.items ≡ table_text columns.now (map (λ value. value.now) values.now)) }
{
    let mut writer = WriterBuilder::new()
        .has_headers(false)
        .from_writer(Vec::new(alloc));
    write_rows(alloc, &mut writer, columns, values)?;
    match writer.into_inner() {
        Ok(text) => Ok(text),
        Err(refused) => {
            drop(refused);
            Err(AllocError)
        }
    }
}

/// Writes a header and a row for each value, in this order, where nothing is written yet.
fn write_rows(
    alloc: Global,
    writer: &mut Writer<Vec<u8>>,
    columns: &[Column],
    values: &[&Value],
) -> Result<(), AllocError>
    requires fresh { IsFresh writer.old }
    requires empty { IfSome (text_written (λ v. Some v.items) writer.old) (λ text. text ≡ []) }
    ensures text { OnOk result (IfSome (text_written (λ v. Some v.items) writer.new)
        (λ text. text ≡ table_text columns.now (map (λ value. value.now) values.now))) }
    ensures fresh { OnOk result (IsFresh writer.new) }
{
    let mut row = ByteRecord::new(alloc);
    put_names(&mut row, columns)?;
    write_row(writer, &row)?;
    'rows: for value in values {
        row.clear();
        put_row(&mut row, value)?;
        write_row(writer, &row)?;
    }
    Ok(())
}

/// Writes a record. With rows of one length, csv refuses only for memory.
fn write_row<W: Write + Drop>(writer: &mut Writer<W>, row: &ByteRecord) -> Result<(), AllocError>
    requires { IsFresh writer.old }
    ensures bytes { OnOk result (Appends (text_written W.contents writer.old)
        (text_written W.contents writer.new) (row_text plain_writer (fields_of row.now))) }
    ensures fresh { OnOk result (IsFresh writer.new) }
{
    match writer.write_byte_record(row) {
        Ok(()) => Ok(()),
        Err(refused) => {
            drop(refused);
            Err(AllocError)
        }
    }
}

/// Fills a record with the names of columns.
fn put_names(row: &mut ByteRecord, columns: &[Column]) -> Result<(), AllocError>
    ensures fields { OnOk result (fields_of row.new ≡ map (λ column. column.name) columns.now) }
{
    row.clear();
    'names: for column in columns {
        row.push_field(column.name.as_bytes())?;
    }
    Ok(())
}

/// Puts the cells of a value last in a record.
fn put_row(row: &mut ByteRecord, value: &Value) -> Result<(), AllocError>
    requires { partial_of row.old ≡ [] }
    ensures fields { OnOk result
        (fields_of row.new ≡ fields_of row.old ++ map cell_text (cells_of value.now)) }
    ensures partial { OnOk result (partial_of row.new ≡ []) }
{
    match value {
        Value::Rec(parts) => {
            'parts: for part in parts.as_slice() {
                put_field(row, part)?;
            }
            Ok(())
        }
        cell => put_cell(row, cell),
    }
}

/// Puts the cells of a record's field last in a record.
fn put_field(row: &mut ByteRecord, part: &Value) -> Result<(), AllocError>
    requires { partial_of row.old ≡ [] }
    ensures fields { OnOk result (fields_of row.new ≡
        fields_of row.old ++ map cell_text (field_cells part.now (out-Value part.now))) }
    ensures partial { OnOk result (partial_of row.new ≡ []) }
{
    match part {
        Value::Rec(cells) => {
            'cells: for cell in cells.as_slice() {
                put_cell(row, cell)?;
            }
            Ok(())
        }
        cell => put_cell(row, cell),
    }
}

/// Puts what a cell shows last in a record.
fn put_cell(row: &mut ByteRecord, cell: &Value) -> Result<(), AllocError>
    requires { partial_of row.old ≡ [] }
    ensures fields { OnOk result
        (fields_of row.new ≡ fields_of row.old ++ cell_text cell.now ∷ []) }
    ensures partial { OnOk result (partial_of row.new ≡ []) }
{
    match cell {
        Value::Int(n) => {
            let mut buffer = Buffer::new();
            row.push_field(buffer.format(*n).as_bytes())
        }
        Value::Bool(true) => row.push_field(b"true"),
        Value::Bool(false) => row.push_field(b"false"),
        Value::Text(text) => row.push_field(text.as_bytes()),
        // no cell is any other value
        _ => row.push_field(b""),
    }
}
