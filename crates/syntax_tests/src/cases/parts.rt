//! Parts of the trees that are read.

use super::outcome::parsed;
use flume_syntax::{Ast, Expr, Form, ScriptFault, Type};
use flume_value::Str;
use std::alloc::Global;

/// A type without parts.
#[derive(Clone, Copy)]
pub enum Leaf {
    Int,
    Bool,
    Text,
}

pub fn is_leaf(ty: &Type, leaf: Leaf) -> bool {
    match leaf {
        Leaf::Int => matches!(ty, Type::Int),
        Leaf::Bool => matches!(ty, Type::Bool),
        Leaf::Text => matches!(ty, Type::Text),
    }
}

/// Whether these are the words.
pub fn are_words(words: &[Str], wanted: &[&[u8]]) -> bool {
    if words.len() != wanted.len() {
        return false;
    }
    for (word, text) in words.iter().zip(wanted.iter()) {
        if !word.is(*text) {
            return false;
        }
    }
    true
}

pub fn is_name(expr: &Expr, name: &[u8]) -> bool {
    matches!(expr, Expr::Name(word) if word.is(name))
}

/// The tree of a script of these parts.
pub fn read(alloc: Global, before: &[u8], text: &[u8], after: &[u8]) -> Result<Ast, ScriptFault> {
    parsed(alloc, (before, text, 1, after))
}

/// The only statement of a script, if it has just one, and that begins on line 1.
pub fn sole(ast: &Ast) -> Option<&Form> {
    match ast.statements.as_slice() {
        [statement] if statement.line == 1 => Some(&statement.form),
        _ => None,
    }
}
