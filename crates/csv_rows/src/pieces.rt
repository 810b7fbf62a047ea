// The rows of a file that was loaded in pieces.
#![tactic(auto, using(crate::proofs::TypeFacts::under_typed))]

ghost use Rattle.std.specs.Prelude.{◌≡◌, ◌≢◌, Ok, Err, Some, IfOk, IfErr, IsTrue};
ghost use Rattle.std.specs.List.{All};
ghost use Rattle.flume_types.specs.Columns.{input_columns_of};
ghost use Rattle.flume_types.specs.Typing.{has_type};
ghost use Rattle.flume_types.specs.declared.types.Ty.{Ty};
ghost use Rattle.csv_rows.specs.Records.{records_of};
ghost use Rattle.csv_rows.specs.Rows.{rows_under};

use crate::fault::RowFault;
use crate::read::{Head, read_rows};
use flume_types::Column;
use flume_value::Items;
use outside::Pieces;
use std::alloc::Global;

/// The rows of a file under these columns, or its first fault, as `rows_under_columns` gives them
/// of its bytes. Each piece goes once it is read, so that rows and bytes do not stand side by side.
pub fn rows_of(alloc: Global, file: Pieces, columns: &[Column]) -> Result<Items, RowFault>
    ensures rows { IfOk result (λ rows. rows_under columns.now (records_of file) ≡ Ok rows) }
    ensures typed { IfOk result (λ rows. (ty : Ty) → input_columns_of ty ≡ Some columns.now →
        All (λ row. IsTrue (has_type row ty)) rows) }
    ensures fault { IfErr result (λ e. e ≢ RowFault.Memory →
        rows_under columns.now (records_of file) ≡ Err e) }
{
    read_rows(alloc, file.into_reader(alloc), columns, Head::Names)
}
