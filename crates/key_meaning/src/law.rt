// That a key tells what the collection is.
ghost use Rattle.std.specs.Prelude.{◌≡◌, []};
ghost use Rattle.key_meaning.specs.Keyed.{IsSameFor, Keyed, key};

use statement_law::statement_law;

/// Collections with one key are the same: in name, type and kind, in members and traps, and in the
/// names and sizes of what they rest on. Where the one has no traps the other has none.
pub fn key_meaning_law()
    ensures same { (one other : Keyed) → key one ≡ key other → IsSameFor one other }
    ensures clean { (one other : Keyed) (it : IsSameFor one other) → it.here.traps ≡ [] →
        it.there.traps ≡ [] }
{
    statement_law();
}
