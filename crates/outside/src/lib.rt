//! What a run touches of the world, as four traits: a `Source` of files to read, a `Shelf` of files
//! to write, a `Screen` to print on, and `Host`s on which the attempts of tasks run.
//!
//! A contract sees what each of them tells (its files, its text, its notes: optional, since a real
//! disk tells nothing) and a count of its failures, which never falls. A call answers `Failed` or
//! `Down` only where that count rose in the call, so whoever calls can name the cause of every
//! refusal, whatever is told. The forms in memory, for tests, stand in memory_outside, and those of
//! the system in real_outside; `CalmHost` is the real host.
//!
//! Above the traits stand whole transfers: `load` and `load_tried` read a file within a limit, as
//! `Pieces` that a reader lets go one by one; `save` and `save_all` write files and end each of
//! them; `say` and `say_all` print a text without taking memory.
#![tactic(auto)]

mod file;
mod fronts;
mod host;
mod loads;
mod names;
mod pieces;
mod saves;
mod says;
mod screen;
mod shelf;
mod source;

pub use file::File;
pub use host::{At, CalmHost, Down, Host, Phase};
pub use loads::{LoadFault, load, load_tried};
pub use names::FileName;
pub use pieces::{PieceReader, Pieces};
pub use saves::{Output, save, save_all};
pub use says::{say, say_all};
pub use screen::Screen;
pub use shelf::Shelf;
pub use source::{BeginFault, Failed, Source};
