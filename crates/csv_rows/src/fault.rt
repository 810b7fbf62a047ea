// What can be wrong with a file of rows.

ghost use Rattle.std.specs.Prelude.{◌≡◌};

use std::alloc::AllocError;
use thiserror::Error;

/// What is wrong with a row.
#[derive(Clone, Copy, Debug, PartialEq, Eq)]
pub enum RowKind {
    /// The first record does not name the type's fields in order.
    Header,
    /// A record has another number of fields than the type.
    Width,
    /// A field of an int is not an optional `-` and decimal digits, or 64 bits do not hold it.
    NotInt,
    /// A field of a bool is neither `true` nor `false`.
    NotBool,
    /// A field of a text is not UTF-8.
    Utf8,
}

/// Why a file has no rows of its type.
#[derive(Clone, Copy, Debug, PartialEq, Eq, Error)]
pub enum RowFault {
    /// The first fault in order of rows, then of columns. The header is row 0, and data rows are
    /// numbered from 1. Columns are numbered from 1; column 0 is the row as a whole.
    #[error("row {row} column {column}: {kind:?}")]
    Bad {
        row: u64,
        column: u32,
        kind: RowKind,
    },
    /// Memory ran out.
    #[error("want of memory")]
    Memory,
}

impl RowFault {
    /// What is wrong at a row and a column.
    pub(crate) fn bad(row: u64, column: u32, kind: RowKind) -> RowFault
        ensures { result ≡ RowFault.Bad row column kind }
    {
        RowFault::Bad { row, column, kind }
    }
}

impl From<AllocError> for RowFault {
    ghost use Rattle.std.specs.Prelude.{◌≡◌};
    ghost use Rattle.csv_rows.specs.declared.fault.RowFault.TheVariants.{Memory};

    ghost from_gives = { λ _ e. e ≡ Memory };

    fn from(_e: AllocError) -> RowFault {
        RowFault::Memory
    }
}
