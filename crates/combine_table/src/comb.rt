// The nine combiners.

/// How the values of a group are combined.
///
/// The values are a bag: their order does not count, and each counts as often as it occurs.
#[derive(Clone, Copy, PartialEq, Eq)]
pub enum Comb {
    /// The sum of ints, wrapped to 128 bits with a sign; it traps with Overflow where that is
    /// not int.
    Sum,
    /// How many values there are, by the same rule.
    Count,
    /// The least value; where there is none it traps, with BadIndex.
    Min,
    /// The greatest value; where there is none it traps, with BadIndex.
    Max,
    /// Whether all bools are true, as where there is none.
    All,
    /// Whether some bool is true, as it is not where there is none.
    Any,
    /// The list of so many of the greatest values, ascending; of all where there are fewer.
    Top(u32),
    /// The mean of ints, rounded down: what the sum's 128 bits come to, divided by the count's. It
    /// traps with Overflow where that is not an int, and with BadIndex where there is no value.
    Mean,
    /// The list of the values that occur, ascending, each once.
    Distinct,
}
