// The columns of rows, and why a type has none.
use flume_value::{Pile, Str};
use std::alloc::AllocError;
use thiserror::Error;

/// The columns of a flat type, in order.
pub type Columns = Pile<Column>;

/// A column of rows.
#[derive(PartialEq, Eq, Drop)]
pub struct Column {
    /// Its name in the header.
    pub name: Str,
    /// What its cells are.
    pub kind: ColumnKind,
}

/// What the cells of a column are.
#[derive(Clone, Copy, PartialEq, Eq, Hash)]
pub enum ColumnKind {
    /// Signed numbers of 64 bits.
    Int,
    /// Truth values.
    Bool,
    /// Texts.
    Text,
}

/// Why a type has no columns.
#[derive(PartialEq, Eq, Debug, Drop, Error)]
pub enum ColumnFault {
    /// The type is no cell, nor a record of cells and of records of cells.
    #[error("the type is not flat")]
    NotFlat,
    /// Want of memory.
    #[error("want of memory")]
    Memory,
}

impl From<AllocError> for ColumnFault {
    ghost use Rattle.std.specs.Prelude.{◌≡◌};
    ghost use Rattle.flume_types.specs.declared.column.ColumnFault.TheVariants.{Memory};

    ghost from_gives = { λ _ e. e ≡ Memory };

    fn from(_e: AllocError) -> ColumnFault {
        ColumnFault::Memory
    }
}
