// The rows of a file, decoded by several threads: its parts are read side by side.
#![tactic(auto, using(crate::proofs::TypeFacts::under_typed))]

ghost use Rattle.std.specs.Prelude.{◌≡◌, ◌≢◌, ◌≤◌, ◌<◌, ◌+◌, ◌++◌, Ok, Err, Some, IfOk, IfErr, IfSome, IsOkAnd, OnSome, IsTrue, drop, false, get_or, length, take};
ghost use Rattle.std.specs.List.{All};
ghost use Rattle.std.specs.Thread.{IsSync};
ghost use Rattle.csv.specs.Reading.{strip_bom};
ghost use Rattle.flume_types.specs.Columns.{input_columns_of};
ghost use Rattle.flume_types.specs.Typing.{has_type};
ghost use Rattle.flume_types.specs.declared.types.Ty.{Ty};
ghost use Rattle.csv_rows.specs.Records.{records_of};
ghost use Rattle.csv_rows.specs.Rows.{rows_from, rows_under};
ghost use Rattle.csv_rows.specs.inner.Parts.{rows_behind};

use crate::fault::RowFault;
use crate::pieces::rows_of;
use crate::read::{Head, read_rows, rows_under_columns};
use flume_types::Column;
use flume_value::{Items, Pile};
use outside::Pieces;
use std::alloc::Global;
use std::thread::{Threads, join};

/// The fewest bytes of a part that is read by a thread of its own.
const PART: usize = 65_536;

/// The rows of a file under these columns, or its first fault, as `rows_of` gives them, decoded by
/// up to so many threads.
///
/// The bytes stand in one vector, of which parts of about one size are cut off behind line feeds,
/// as long as no such part has a quote. Where a part has a fault, one reader reads the whole file
/// once more.
pub fn rows_by_threads<R: Threads + Sync>(
    rt: &R,
    alloc: Global,
    threads: usize,
    file: Pieces,
    columns: &[Column],
) -> Result<Items, RowFault>
    ensures rows { IfOk result (λ rows. rows_under columns.now (records_of file) ≡ Ok rows) }
    ensures typed { IfOk result (λ rows. (ty : Ty) → input_columns_of ty ≡ Some columns.now →
        All (λ row. IsTrue (has_type row ty)) rows) }
    ensures fault { IfErr result (λ e. e ≢ RowFault.Memory →
        rows_under columns.now (records_of file) ≡ Err e) }
{
    if threads < 2 {
        return rows_of(alloc, file, columns);
    }
    let bytes = file.into_vec(alloc)?;
    // so few parts that none becomes too small
    let parts = threads.min(bytes.len() / (2 * PART));
    match rows_in_parts(rt, &alloc, parts, bytes.as_slice(), columns, Head::Names) {
        Ok(rows) => Ok(rows),
        // the first fault of all bytes is told by one reader
        Err(_) => rows_under_columns(alloc, bytes.as_slice(), columns),
    }
}

// The rows behind such a head, by up to so many threads. A fault says only that there is one, or
// that memory ran out.
#[cycle(parts)]
fn rows_in_parts<R: Threads + Sync>(
    rt: &R,
    alloc: &Global,
    parts: usize,
    bytes: &[u8],
    columns: &[Column],
    head: Head,
) -> Result<Items, RowFault>
    ensures { IfOk result (λ rows.
        rows_behind head columns.now (records_of bytes.now) ≡ Ok rows) }
{
    match place_to_cut(bytes, parts) {
        Some(at) => {
            let (front, back) = bytes.split_at(at);
            read_both(rt, alloc, parts - 1, front, back, columns, head)
        }
        None => read_rows(*alloc, bytes, columns, head),
    }
}

#[cycle(parts)]
fn read_both<R: Threads + Sync>(
    rt: &R,
    alloc: &Global,
    parts: usize,
    front: &[u8],
    back: &[u8],
    columns: &[Column],
    head: Head,
) -> Result<Items, RowFault>
    ensures { IfOk result (λ rows. rows_behind head columns.now
        (records_of front.now ++ records_of back.now) ≡ Ok rows) }
{
    let (first, rest) = join(
        rt,
        || -> Result<Items, RowFault>
            ensures { IfOk result (λ rows.
                rows_behind head columns.entry.now (records_of front.entry.now) ≡ Ok rows) }
        { read_rows(*alloc, front, columns, head) },
        || -> Result<Items, RowFault>
            requires { IsSync R.row }
            ensures { IfOk result (λ rows.
                rows_from 1 columns.entry.now (records_of back.entry.now) ≡ Ok rows) }
        { rows_in_parts(rt, alloc, parts, back, columns, Head::NoNames) },
    );
    appended(first, rest)
}

// The rows, and then the others, where both were read.
fn appended(
    first: Result<Items, RowFault>,
    rest: Result<Items, RowFault>,
) -> Result<Items, RowFault>
    ensures { IfOk result (λ all.
        IsOkAnd first (λ rows. IsOkAnd rest (λ others. all ≡ rows ++ others))) }
{
    match first {
        Ok(rows) => with_others(rows, rest),
        Err(fault) => {
            drop(rest);
            Err(fault)
        }
    }
}

fn with_others(rows: Items, rest: Result<Items, RowFault>) -> Result<Items, RowFault>
    ensures { IfOk result (λ all. IsOkAnd rest (λ others. all ≡ rows ++ others)) }
{
    let mut all = rows.into_vec();
    let mut others = rest?.into_vec();
    all.append(&mut others)?;
    Ok(Pile::from_vec(all))
}

// Where a text can be cut behind the first of so many parts: behind a line feed with no quote
// before it, which stands in no field.
fn place_to_cut(bytes: &[u8], parts: usize) -> Option<usize>
    ensures several { OnSome result (1 < parts) }
    ensures within { IfSome result (λ at. at ≤ length bytes.now) }
    ensures records { IfSome result (λ at. records_of bytes.now
        ≡ records_of (take at bytes.now) ++ records_of (drop at bytes.now)) }
{
    if parts < 2 || bytes.len() / parts < PART {
        return None;
    }
    let feed = line_feed(bytes, bytes.len() / parts)?;
    if bytes[..feed].contains(&b'"') || may_have_mark(&bytes[feed + 1..]) {
        return None;
    }
    Some(feed + 1)
}

// The place of the first line feed from a place on.
fn line_feed(bytes: &[u8], from: usize) -> Option<usize>
    ensures { IfSome result (λ at. (from ≤ at) × (at < length bytes.now)
        × (get_or bytes.now at 0 ≡ 10)) }
{
    'bytes: for at in from..bytes.len() {
        if bytes[at] == b'\n' {
            return Some(at);
        }
    }
    None
}

// Whether a text may begin with a byte order mark, which a reader would pass over.
fn may_have_mark(bytes: &[u8]) -> bool
    ensures { result ≡ false → strip_bom bytes.now ≡ bytes.now }
{
    match bytes.first() {
        Some(byte) => *byte == 0xef,
        None => false,
    }
}
