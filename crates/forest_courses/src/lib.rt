//! What the elements of a task come to.
//!
//! `forest_steps` says step by step what the steps of a forest give of elements, one after another.
//! `course_law` says that it is what `task_lists` says of the task: what each output is given, how
//! many elements each output of each step emits, or the first trap (`IsCourse`).
//!
//! What a world's functions answer is all that matters of it to steps (`worlds_law`).
#![tactic(auto)]

mod laws;

pub use forest_steps;
pub use laws::{course_law, worlds_law};
pub use task_lists;
