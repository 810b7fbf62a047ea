// What is kept of a collection, read.
ghost use Rattle.std.specs.Prelude.{◌≡◌, IfOk, IfSome, IfNone, Some};
ghost use Rattle.saved_results.specs.Saved as spec;
ghost use Rattle.saved_results.specs.declared.saved.Saved.{Saved as Kept};
ghost use Rattle.value_reading.specs.Written.{IsCanonical};

use crate::parts::saved_in;
use crate::saved::Saved;
use std::alloc::{AllocError, Global};
use value_reading::{ReadFault, read_canonical};

/// What is kept in these bytes, where they are those of something that is kept, of at most 16
/// levels.
pub fn read_saved(alloc: Global, bytes: &[u8]) -> Result<Option<Saved>, AllocError>
    ensures some { IfOk result (λ found. IfSome found (λ saved.
        IsCanonical (spec.saved_value saved) bytes.now)) }
    ensures none { IfOk result (λ found. IfNone found ((saved : Kept) →
        spec.AreCounts saved → IsCanonical (spec.saved_value saved) bytes.now → ⊥)) }
{
    match read_canonical(alloc, bytes) {
        Ok(value) => saved_in(alloc, value),
        Err(ReadFault::NotOne) => Ok(None),
        Err(ReadFault::Memory) => Err(AllocError),
    }
}
