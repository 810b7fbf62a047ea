//! How the parts of a script begin, by their first tokens.

use crate::tree::{Combiner, Expr, Side, Type, Unary};

/// How a statement begins.
#[derive(Clone, Copy)]
pub enum StatementStart {
    Type,
    Input,
    Function,
    Let,
    Output,
}

/// How an operation begins.
#[derive(Clone, Copy)]
pub enum OperationStart {
    /// with an object or without one
    Do,
    Group,
    Combine,
    Flatten,
    Count,
    Join,
    Top,
    CombineAll,
    Operate,
}

/// How what stands behind the `=` of a let begins.
#[derive(Clone, Copy)]
pub enum LetStart {
    /// an operation
    Plain(OperationStart),
    /// a repeat, whose number of turns is yet to come
    Repeat,
}

/// How a combiner begins: `top` has a number yet to come.
#[derive(Drop)]
pub enum CombinerStart {
    Whole(Combiner),
    Top,
}

/// How a type begins.
#[derive(Drop)]
pub enum TypeStart {
    /// a whole type
    Leaf(Type),
    List,
    Either,
    Table,
    Record,
}

/// How a statement of a body begins.
#[derive(Clone, Copy)]
pub enum BodyStart {
    Let,
    Emit,
    If,
    For,
    Case,
}

/// How an operand begins.
#[derive(Drop)]
pub enum Start {
    /// a whole expression
    Leaf(Expr),
    Empty,
    Record,
    List,
    Side(Side),
    /// an operator before its operand
    Prefix(Unary),
    /// a call with one argument
    Call(Unary),
    Concat,
    Pick,
}
