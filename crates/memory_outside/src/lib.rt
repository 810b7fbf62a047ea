//! The outside in memory: a source, a shelf, a screen, hosts and a cache, for tests.
//!
//! Each of them tells all that it holds, and fails exactly where a list says so or its room ends.
//! `MemSource`, `MemShelf`, `MemScreen` and `MemHost` are forms of the traits of outside, and
//! `MemCache` is one of that of cache_store. The program has nothing of them.
#![tactic(auto)]

mod cache;
mod calls;
mod host;
mod put;
mod screen;
mod shelf;
mod slots;
mod source;

pub use cache::MemCache;
pub use calls::Fail;
pub use host::MemHost;
pub use screen::MemScreen;
pub use shelf::MemShelf;
pub use source::MemSource;
