//! The file of a plan and of rewrites is read back.
//!
//! What `plan_files` writes of rewrites and of the JSON of a plan is one line of UTF-8 (`text_of`,
//! specs/Files.antt). Read as JSON it tells the rewrites and the plan's own text, with a line feed
//! behind it or without one (`file_law`). Names that are no UTF-8 stand in it with U+FFFD, as in
//! the plan's own text.
//!
//! Nothing here runs: the function states what holds of files.
#![tactic(auto)]

mod laws;

pub use laws::file_law;
pub use plan_files;
pub use plan_json;
