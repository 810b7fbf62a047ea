//! The steps of a task that fits its types may be called on all its elements.
//!
//! What a step may be called on is said for any account of what functions take (`SafeOf`, of
//! `forest_steps`). Where the types of a task fit (`IsTaskTyped`, of `task_lists`) and functions
//! answer by their signatures, each step takes what it is given, by its signature (`safe_law`); and
//! so the steps may be called of any `Functions` that take no less (`taken_law`). Beside the value
//! of an object a step takes the record of an element and that value (`taking`, specs/Taking.antt).
//!
//! In a typed run of a well-formed plan each stage can be run over the lists so far (`CanRunStage`,
//! specs/Stages.antt; `stage_law`), and a function of objects may be called on them (`act_law`).
#![tactic(auto)]

mod laws;

pub use forest_courses::task_lists;
pub use laws::{act_law, safe_law, stage_law, taken_law};
