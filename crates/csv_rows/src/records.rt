// The records of a reader, one at a time.

ghost use Rattle.std.specs.Prelude.{IfOk, IsOkUnless};
ghost use Rattle.csv.specs.Records.{fields_of};
ghost use Rattle.csv_rows.specs.inner.Readers.{IsPlain, TakesNext};

use crate::fault::RowFault;
use csv::{ByteRecord, ErrorKind, Reader};
use std::io::Read;

/// What the next record is.
#[derive(Clone, Copy)]
pub enum Next {
    /// A record of as many fields as the first.
    Record,
    /// A record of another number of fields.
    OtherLength,
    /// There is none.
    End,
}

/// The next record of a reader, into `row`.
pub fn next_record<R: Read>(reader: &mut Reader<R>, row: &mut ByteRecord) -> Result<Next, RowFault>
    requires { IsPlain reader.old }
    ensures took { IfOk result (λ next.
        TakesNext R.remaining reader.old reader.new (fields_of row.new) next) }
    ensures memory { IsOkUnless result RowFault.Memory }
{
    match reader.read_byte_record(row) {
        Ok(true) => Ok(Next::Record),
        Ok(false) => Ok(Next::End),
        Err(e) => match e.kind() {
            ErrorKind::UnequalLengths { .. } => Ok(Next::OtherLength),
            _ => Err(RowFault::Memory),
        },
    }
}
