// The size of a board, which its rule is told once.

/// How many tasks and tries there are, and how many passes are made.
#[derive(Clone, Copy)]
pub(crate) struct Size {
    pub(crate) tasks: u32,
    pub(crate) tries: u32,
    pub(crate) crew: u32,
}
