// How often files are tried by commands that say nothing of it.

/// How often a file is loaded before the source's failure is the answer.
pub const TRIES: u32 = 2;
