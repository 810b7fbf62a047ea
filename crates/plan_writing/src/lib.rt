//! Plans written out as lines of text.
//!
//! A plan names inputs, functions and script nodes by number. What they are called is handed in, as
//! `Names` (specs/Naming.antt). `plan_text` writes a line for each stage, for each channel of a
//! stage, and for each output of the script (specs/PlanText.antt). How collections and steps are
//! printed, and what objects are made by (specs/Places.antt, specs/Forests.antt, specs/Acts.antt),
//! is for plan_json too.
#![tactic(auto)]

mod acts;
mod channels;
mod forests;
mod names;
mod outs;
mod places;
mod text;

pub use acts::push_act;
pub use forests::push_forest;
pub use names::Names;
pub use outs::outs_of;
pub use places::{push_dotted, push_place, push_take};
pub use text::plan_text;
