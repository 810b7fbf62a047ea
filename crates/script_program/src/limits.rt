// The limits of a script.

/// The most collections that a script may make, inputs among them.
pub const MOST_COLLECTIONS: usize = 1024;

/// The most functions that it may define.
pub const MOST_FUNCTIONS: usize = 128;

/// The most outputs of a function.
pub const MOST_OUTPUTS: usize = 8;

/// The most files that it may write.
pub const MOST_FILES: usize = 64;
