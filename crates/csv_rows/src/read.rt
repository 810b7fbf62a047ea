// Reading rows.

ghost use Rattle.std.specs.Prelude.{◌≡◌, ◌≢◌, ◌<◌, ◌^◌, length, Ok, Err, None, Some, IfOk, IfErr, IfSome, IsSome, IsTrue};
ghost use Rattle.std.specs.List.{All};
ghost use Rattle.csv.specs.Reading.{expected_len};
ghost use Rattle.csv.specs.Records.{fields_of};
ghost use Rattle.flume_types.specs.Columns.{input_columns_of};
ghost use Rattle.flume_types.specs.Typing.{has_type};
ghost use Rattle.flume_types.specs.declared.types.Ty.{Ty};
ghost use Rattle.csv_rows.specs.Records.{records_of};
ghost use Rattle.csv_rows.specs.inner.Parts.{rows_behind};
ghost use Rattle.csv_rows.specs.inner.Readers.{IsPlain, left_of};
ghost use Rattle.csv_rows.specs.Rows.{cell_at, header_fault, row_at, rows_from, rows_of, rows_under};

use crate::fault::{RowFault, RowKind};
use crate::records::{Next, next_record};
use csv::{ByteRecord, Reader, ReaderBuilder};
use flume_types::{Column, ColumnFault, ColumnKind, Ty, input_columns};
use flume_value::{Items, Pile, Str, Value};
use int_text::int_of_text;
use std::alloc::Global;
use std::io::Read;
use std::str;

/// The rows of a file as values of a type, which is a record of int, bool and text, or the first
/// fault.
///
/// The first record must name the type's fields in order; each other record is a row, and its
/// value is a record of the values of its fields. The first fault in order of rows, then of
/// columns, is the answer.
#[tactic(auto, using(crate::proofs::TypeFacts::rows_typed))]
pub fn rows(alloc: Global, bytes: &[u8], ty: &Ty) -> Result<Items, RowFault>
    requires { IsSome (input_columns_of ty.now) }
    ensures rows { IfOk result (λ rows. rows_of bytes.now ty.now ≡ Some (Ok rows)) }
    ensures typed { IfOk result (λ rows. All (λ row. IsTrue (has_type row ty.now)) rows) }
    ensures fault { IfErr result (λ e. e ≢ RowFault.Memory →
        rows_of bytes.now ty.now ≡ Some (Err e)) }
{
    let columns = match input_columns(alloc, ty) {
        Ok(columns) => columns,
        Err(ColumnFault::Memory) => return Err(RowFault::Memory),
        Err(ColumnFault::NotFlat) => unreachable!(),
    };
    rows_under_columns(alloc, bytes, columns.as_slice())
}

/// The same for a type whose columns are these.
#[tactic(auto, using(crate::proofs::TypeFacts::under_typed))]
pub fn rows_under_columns(
    alloc: Global,
    bytes: &[u8],
    columns: &[Column],
) -> Result<Items, RowFault>
    ensures rows { IfOk result (λ rows.
        rows_under columns.now (records_of bytes.now) ≡ Ok rows) }
    ensures typed { IfOk result (λ rows. (ty : Ty) → input_columns_of ty ≡ Some columns.now →
        All (λ row. IsTrue (has_type row ty)) rows) }
    ensures fault { IfErr result (λ e. e ≢ RowFault.Memory →
        rows_under columns.now (records_of bytes.now) ≡ Err e) }
{
    read_rows(alloc, bytes, columns, Head::Names)
}

/// What the records of a part of a file begin with.
#[derive(Clone, Copy)]
pub(crate) enum Head {
    /// The header, which must name the columns.
    Names,
    /// The first row.
    NoNames,
}

/// The rows of all that a source gives, behind such a head. A source that fails has no rows, as
/// where memory runs out.
pub(crate) fn read_rows<R: Read + Drop>(
    alloc: Global,
    source: R,
    columns: &[Column],
    head: Head,
) -> Result<Items, RowFault>
    ensures rows { IfOk result (λ rows. IfSome (R.remaining source)
        (λ bytes. rows_behind head columns.now (records_of bytes) ≡ Ok rows)) }
    ensures fault { IfErr result (λ e. e ≢ RowFault.Memory → IfSome (R.remaining source)
        (λ bytes. rows_behind head columns.now (records_of bytes) ≡ Err e)) }
{
    // a fault's column is told in 32 bits
    if columns.len() > u32::MAX as usize {
        return Err(RowFault::Memory);
    }
    let mut reader = ReaderBuilder::new()
        .has_headers(false)
        .from_reader(alloc, source);
    match head {
        Head::Names => read_table(alloc, &mut reader, columns),
        Head::NoNames => {
            let mut fields = ByteRecord::new(alloc);
            read_rest(alloc, &mut reader, &mut fields, columns)
        }
    }
}

/// The rows of a reader, or the first fault.
fn read_table<R: Read>(
    alloc: Global,
    reader: &mut Reader<R>,
    columns: &[Column],
) -> Result<Items, RowFault>
    requires plain { IsPlain reader.old }
    requires fresh { expected_len reader.old ≡ None }
    requires few { length columns.now < 2 ^ 32 }
    ensures rows { IfOk result (λ rows. IfSome (left_of R.remaining reader.old)
        (λ records. rows_under columns.now records ≡ Ok rows)) }
    ensures fault { IfErr result (λ e. e ≢ RowFault.Memory →
        IfSome (left_of R.remaining reader.old)
        (λ records. rows_under columns.now records ≡ Err e)) }
{
    let mut fields = ByteRecord::new(alloc);
    match next_record(reader, &mut fields)? {
        Next::Record => {}
        // the first record sets the length
        Next::OtherLength => unreachable!(),
        Next::End => return Err(RowFault::bad(0, 0, RowKind::Header)),
    }
    if let Some(column) = read_header(columns, &fields) {
        return Err(RowFault::bad(0, column, RowKind::Header));
    }
    read_rest(alloc, reader, &mut fields, columns)
}

/// The rows of the records that a reader has left, or the first fault. Each is read into `fields`.
fn read_rest<R: Read>(
    alloc: Global,
    reader: &mut Reader<R>,
    fields: &mut ByteRecord,
    columns: &[Column],
) -> Result<Items, RowFault>
    requires plain { IsPlain reader.old }
    requires width { IfSome (expected_len reader.old) (λ width. width ≡ length columns.now) }
    requires few { length columns.now < 2 ^ 32 }
    ensures rows { IfOk result (λ rows. IfSome (left_of R.remaining reader.old)
        (λ records. rows_from 1 columns.now records ≡ Ok rows)) }
    ensures fault { IfErr result (λ e. e ≢ RowFault.Memory →
        IfSome (left_of R.remaining reader.old)
        (λ records. rows_from 1 columns.now records ≡ Err e)) }
{
    let mut rows = Pile::new(alloc);
    'rows: for row in 1..u64::MAX {
        match next_record(reader, fields)? {
            Next::Record => {
                let value = read_row(alloc, row, columns, fields)?;
                rows.push(value)?;
            }
            Next::OtherLength => return Err(RowFault::bad(row, 0, RowKind::Width)),
            Next::End => return Ok(rows),
        }
    }
    Err(RowFault::Memory)
}

/// The column at which a header is not that of the type.
fn read_header(columns: &[Column], names: &ByteRecord) -> Option<u32>
    requires { length columns.now < 2 ^ 32 }
    ensures { result ≡ header_fault columns.now (fields_of names.now) }
{
    if names.len() != columns.len() {
        return Some(0);
    }
    'names: for i in 0..columns.len() {
        let name = columns[i].name.as_bytes();
        let Some(other) = names.get(i) else {
            return None;
        };
        if name != other {
            return Some(i as u32 + 1);
        }
    }
    None
}

/// The value of a record.
fn read_row(
    alloc: Global,
    row: u64,
    columns: &[Column],
    fields: &ByteRecord,
) -> Result<Value, RowFault>
    requires { length columns.now < 2 ^ 32 }
    ensures value { IfOk result (λ value.
        row_at row columns.now (fields_of fields.now) ≡ Ok value) }
    ensures fault { IfErr result (λ e. e ≢ RowFault.Memory →
        row_at row columns.now (fields_of fields.now) ≡ Err e) }
{
    if fields.len() != columns.len() {
        return Err(RowFault::bad(row, 0, RowKind::Width));
    }
    let mut cells = Pile::from_vec(Vec::with_capacity(alloc, columns.len())?);
    'cells: for i in 0..columns.len() {
        let kind = columns[i].kind;
        let Some(field) = fields.get(i) else {
            return Err(RowFault::Memory);
        };
        let cell = read_cell(alloc, row, i as u32 + 1, kind, field)?;
        cells.push(cell)?;
    }
    Ok(Value::Rec(cells))
}

/// The value of a field.
#[tactic(auto, using(crate::proofs::RowFacts::text_tests))]
fn read_cell(
    alloc: Global,
    row: u64,
    column: u32,
    kind: ColumnKind,
    field: &[u8],
) -> Result<Value, RowFault>
    ensures value { IfOk result (λ value. cell_at row column kind field.now ≡ Ok value) }
    ensures fault { IfErr result (λ e. e ≢ RowFault.Memory →
        cell_at row column kind field.now ≡ Err e) }
{
    match kind {
        ColumnKind::Int => match int_of_text(field) {
            Some(n) => Ok(Value::Int(n)),
            None => Err(RowFault::bad(row, column, RowKind::NotInt)),
        },
        ColumnKind::Bool => {
            if field == b"true".as_slice() {
                Ok(Value::Bool(true))
            } else if field == b"false".as_slice() {
                Ok(Value::Bool(false))
            } else {
                Err(RowFault::bad(row, column, RowKind::NotBool))
            }
        }
        ColumnKind::Text => match str::from_utf8(field) {
            Err(_) => Err(RowFault::bad(row, column, RowKind::Utf8)),
            Ok(_) => Ok(Value::Text(Str::from_slice(alloc, field)?)),
        },
    }
}
