// What is kept of a collection.
use flume_value::{Items, Pile, Str};

/// How many members the collection of a name has.
#[derive(Drop)]
pub struct Size {
    pub name: Str,
    pub members: u64,
}

/// What is kept of a collection.
#[derive(Drop)]
pub struct Saved {
    /// Its members, in their order.
    pub members: Items,
    /// The sizes of the collections that it rests on, its own included.
    pub sizes: Pile<Size>,
}
