// What is kept of the collections that are made, while others are made of them.
ghost use Rattle.std.specs.Prelude.{◌≡◌, Some, slice_get};
ghost use Rattle.std.specs.Option.{option_copied};
ghost use Rattle.direct_meaning.specs.inner.Kept.{kept_in};
ghost use Rattle.direct_meaning.specs.declared.kept.Kept.{Kept as Kept_};

use flume_value::Items;

/// A collection: its members, ascending, and whether a trap is behind them.
#[derive(Drop)]
pub(crate) struct Kept {
    pub members: Items,
    pub trapped: bool,
}

/// What is kept of the collection of a number.
pub(crate) fn kept_at(table: &[Option<Kept>], number: usize) -> &Kept
    requires { (kept : Kept_) × (slice_get table.now number ≡ Some (Some kept)) }
    ensures { slice_get table.now number ≡ Some (Some result.now) }
{
    match table.get(number) {
        Some(Some(kept)) => kept,
        _ => unreachable!(),
    }
}

/// What is kept of the collection of a number, where it is made.
pub(crate) fn find(table: &[Option<Kept>], number: usize) -> Option<&Kept>
    ensures { option_copied result ≡ kept_in table.now number }
{
    match table.get(number) {
        Some(Some(kept)) => Some(kept),
        _ => None,
    }
}
