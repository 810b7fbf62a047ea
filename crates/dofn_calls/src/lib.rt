//! Calls of typed functions.
//!
//! `call` gives exactly the emissions of `slots_mean` as `Lists`, one list an output, in order, or
//! its trap: what dofn_eval defines of the function's body, form by form. Operands are borrowed
//! where they stand in scope or in the code, and a loop that passes on a whole list moves it.
#![tactic(auto)]

mod arithmetic;
mod calls;
mod evaluate;
mod lists;
mod operand;
mod parts;
mod passing;
mod scope;
mod statements;
mod words;

pub use calls::call;
pub use lists::Lists;
