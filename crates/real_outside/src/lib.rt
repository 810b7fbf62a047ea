//! The files of the system as a source and a shelf, those of a folder as a cache, and a writer, as
//! the standard output, as a screen.
//!
//! They tell nothing of what they hold, and count their failures. What they read and write is shown
//! by tests alone.
#![tactic(auto)]

mod cache;
mod faults;
mod screen;
mod shelf;
mod source;

pub use cache::{CACHE_FOLDER, FileCache};
pub use screen::OutputScreen;
pub use shelf::FileShelf;
pub use source::FileSource;
