// How large a file may be.

/// The most bytes that a script may have.
pub const SCRIPT_LIMIT: u64 = 65_536;

/// The most bytes that an input file may have.
pub const INPUT_LIMIT: u64 = 67_108_864;

/// The most bytes that the file of a plan may have.
pub const PLAN_LIMIT: u64 = 67_108_864;
