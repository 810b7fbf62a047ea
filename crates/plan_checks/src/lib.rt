//! Whether a plan is well-formed, decided by a call that takes no memory: `plan_ok` says whether a
//! plan is `IsPlanOk` of exec_plan. The program makes no such call: what forms a plan is proved to
//! give a well-formed one.
#![tactic(auto)]

mod channels;
mod checks;
mod counts;
mod numbers;
mod objects;
mod stages;

pub use checks::plan_ok;
