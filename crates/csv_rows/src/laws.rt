// Laws of rows and texts.

ghost use Rattle.std.specs.Prelude.{◌≡◌, ◌+◌, ◌∷◌, [], List, Ok, Some, codes, length, ℕ};
ghost use Rattle.csv.specs.Writing.{row_text};
ghost use Rattle.flume_types.specs.Columns.{input_columns_of};
ghost use Rattle.flume_types.specs.Typing.{AllHave};
ghost use Rattle.flume_types.specs.declared.column.Column.{Column};
ghost use Rattle.flume_types.specs.declared.types.Ty.{Ty};
ghost use Rattle.flume_value.specs.declared.value.Value.{Value};
ghost use Rattle.csv_rows.specs.Records.{records_of};
ghost use Rattle.csv_rows.specs.Rows.{rows_of, rows_under};
ghost use Rattle.csv_rows.specs.Text.{plain_writer};

/// A file has one row for each record after its header, and each row has the type that is read; so
/// has each row under the columns of a type.
pub fn rows_law()
    ensures count { (bytes : List ℕ) (ty : Ty) (rows : List Value) →
        rows_of bytes ty ≡ Some (Ok rows) → length (records_of bytes) ≡ length rows + 1 }
    ensures typed { (bytes : List ℕ) (ty : Ty) (rows : List Value) →
        rows_of bytes ty ≡ Some (Ok rows) → AllHave ty rows }
    ensures under { (columns : List Column) (ty : Ty) (records : List (List (List ℕ)))
        (rows : List Value) → input_columns_of ty ≡ Some columns →
        rows_under columns records ≡ Ok rows → AllHave ty rows }
{}

/// What `csv` makes of texts of which the rule of rows says nothing itself.
pub fn csv_law()
    // an empty file has no record, not even a header
    ensures empty { records_of [] ≡ [] }
    // blank lines give no record, and the end of the file needs no line's end
    ensures blank { records_of (codes "\n\r\nk,v\n\n1,2") ≡
        (codes "k" ∷ codes "v" ∷ []) ∷ (codes "1" ∷ codes "2" ∷ []) ∷ [] }
    // a byte-order mark at the start is dropped
    ensures mark { records_of (0xef ∷ 0xbb ∷ 0xbf ∷ codes "k\n") ≡ (codes "k" ∷ []) ∷ [] }
    // quotes, doubled quotes, and line ends inside quotes
    ensures quotes { records_of (codes "\"a,\"\"b\"\"\n\",c\r\n") ≡
        (codes "a,\"b\"\n" ∷ codes "c" ∷ []) ∷ [] }
    // a CR by itself ends a record, as LF and CRLF do
    ensures lone_cr { records_of (codes "k\r1\r") ≡
        (codes "k" ∷ []) ∷ (codes "1" ∷ []) ∷ [] }
    // a quote inside an unquoted field is a byte like any other
    ensures inner_quote { records_of (codes "a\"b,c") ≡ (codes "a\"b" ∷ codes "c" ∷ []) ∷ [] }
    // what stands behind a closing quote belongs to the field as it is
    ensures behind_quote { records_of (codes "\"a\"b,c") ≡ (codes "ab" ∷ codes "c" ∷ []) ∷ [] }
    // a row that is one empty field
    ensures one_empty { row_text plain_writer ([] ∷ []) ≡ codes "\"\"\n" }
{}
