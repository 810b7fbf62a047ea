//! The grammar of the script language.
//!
//! `specs/Grammar.antt` has the grammar as relations between tokens and trees, one line for each
//! line of the language's grammar, within some limits (`specs/Limits.antt`) of depth and of
//! numbers of parts. `specs/Fault.antt` says where tokens have their first fault and of what kind,
//! and `specs/Answer.antt` which scripts are accepted, with which tree, and which are refused.
//! `script_law` proves that each script is one or the other, once.
//!
//! What the parser computes, on lists of tokens, stands in `specs/inner/`: parsers and how they
//! are joined (`Out`), one token (`Reading`), `Types`, `Expressions`, `Bodies`, `Statements`, and
//! how code is tied to them (`Reads`). The lemmas here prove that it reads exactly the grammar, and
//! stops exactly at the first fault.
#![tactic(auto)]

mod fault;
mod law;
pub mod limits;
pub mod parts;
pub mod start;
mod tree;

pub use fault::{ScriptFault, ScriptKind, Stop};
pub use law::{answer_law, file_law, script_law};
pub use tree::{
    Ast, Binary, Body, Combiner, Expr, Form, Function, Operation, Repeat, Side, Statement, TurnLet,
    Type, Unary,
};
