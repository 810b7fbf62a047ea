//! The top call: `flume` runs the command that the words of a command line ask for.
//!
//! Words of `make` ask for a made input and its sums: its course is that of made_course. The course
//! of all others is that of run_course: the words are read, and the script is loaded, parsed and
//! checked, which is all that `check` does; `plan` shows the script's graph and plan. For `direct`
//! and `run` each input that the script needs is loaded and decoded; `direct` then works out the
//! script's direct meaning, node by node, and `run` has the tasks of the script's plan, or of that
//! of a file, made by workers on hosts. Only then the output files are written, and the screen's
//! text. Each command takes every accepted script.
//!
//! The contract of `flume` is `Promises` (specs/Promises.antt): for words of `make` it is `Makes`
//! of made_course, for the others `ScriptPromises` of run_course, with a field for each answer.
//! `done` of the latter is the headline: each output file holds the sorted text of the script's
//! direct meaning, and the screen has the text of its command; for `run` each task of the plan was
//! run. Each other field gives the cause of its answer, and what stands afterwards. Their words
//! stand in the specs/ of the crates below: Words of command_words, Asked, Asks, Hosts, Lent,
//! Plans, Written and Answers of run_course, Files, Runs and Answers of made_course, Rows, Sums and
//! Keyed of made_rows for the made input, Accepted and Loads of script_loading for the scripts and
//! their inputs, Plans of outer_plans for the files of plans, Direct of direct_meaning for the
//! meaning, Told of plan_phases for the tasks of a run, Texts and Lines of run_texts for what is
//! printed.
//!
//! `flume_cached` is the call over a cache, and `flume` the same over one that has nothing and
//! keeps nothing. The course of a cached run is that of cached_course, whose specs/ have what it
//! reuses (Looked, Reused) and keeps (Kept), and when a cache is sound (Sound). With all other
//! words the cache is untouched, and the contract is the one above (specs/Cached.antt).
#![tactic(auto)]

mod top;

pub use flume_grammar::ScriptKind;
pub use made_course::script_loading::{INPUT_LIMIT, PLAN_LIMIT, SCRIPT_LIMIT};
pub use plan_faults::PlanKind;
pub use run_texts::{Place, Status};
pub use top::{flume, flume_cached};
