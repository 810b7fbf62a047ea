//! What the words of a command line ask for.
//!
//! `asked_for` reads them with `clap`: behind the program's name stand a command and a script, for
//! `plan` maybe one of its flags, and for `run` maybe options, which say how the run is carried
//! out, and of which plan. What the words ask for is said by the matches that `clap` defines
//! (specs/Words.antt, and specs/Options.antt for the options); word_laws says it in plain words.
//! `make` has no script: `workload_for` reads its two numbers. A run that reuses what earlier ones
//! have kept has a flag: it is read by a command line of its own (`cached_for`, specs/Cached.antt),
//! and to `asked_for` its words ask for nothing.
#![tactic(auto)]

mod cached;
mod command_line;
mod matches;
mod options;
mod words;
mod workload;

pub use cached::{CachedRun, cached_for};
pub use words::{Asked, Command, PlanForm, asked_for};
pub use workload::{MOST_MADE, Workload, workload_for};
