// An operation with its rank.
use plan_laws::Operation;

/// An operation with what its turn goes by: of two that are ready, the one of lower rank is first,
/// and of equal rank the one of the lower number.
#[derive(Drop)]
pub struct Ranked {
    /// Twice the level for an MSCR of Gbks and for what gives an object, and one more for all
    /// others.
    pub rank: u64,
    /// The least number of its Gbks, or its own.
    pub number: u32,
    pub does: Operation,
}
