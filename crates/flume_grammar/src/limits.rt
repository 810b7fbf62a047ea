//! What the language limits.

/// The greatest depth of a type as it is written, and of a function's tree.
pub const MAX_DEPTH: u32 = 32;

/// The greatest number of fields of a record.
pub const MAX_FIELDS: usize = 16;

/// The greatest number of members of a list literal.
pub const MAX_MEMBERS: usize = 64;

/// The greatest number of inputs of a flatten, and of objects of an operate.
pub const MAX_INPUTS: usize = 256;

/// The greatest number of outputs of a function.
pub const MAX_OUTPUTS: usize = 8;
