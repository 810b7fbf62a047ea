//! What is read so far of a record and of an expression.

ghost use Rattle.std.specs.Prelude.{◌≡◌, [], length, OnOk};
ghost use Rattle.flume_grammar.specs.Parts.{none, with_named_part};

use crate::tree::{Binary, Expr};
use flume_tokens::flume_value::{Pile, Str};
use std::alloc::{AllocError, Global};

/// The fields of a record so far, with the depth of the deepest.
#[derive(Drop)]
pub struct Parts<T> {
    pub names: Pile<Str>,
    pub parts: Pile<T>,
    pub depth: u32,
}

impl<T: Drop> Parts<T> {
    pub fn new(alloc: Global) -> Parts<T>
        ensures { result ≡ none }
    {
        Parts {
            names: Pile::new(alloc),
            parts: Pile::new(alloc),
            depth: 0,
        }
    }

    pub fn len(&self) -> usize
        ensures { result ≡ length self.now.names }
    {
        self.names.len()
    }

    pub fn put(&mut self, name: Str, part: T, depth: u32) -> Result<(), AllocError>
        ensures { OnOk result (self.new ≡ with_named_part self.old name part depth) }
    {
        self.names.push(name)?;
        self.parts.push(part)?;
        self.depth = self.depth.max(depth);
        Ok(())
    }

    pub fn into_parts(self) -> (Pile<Str>, Pile<T>, u32)
        ensures { result ≡ (self.names, self.parts, self.depth) }
    {
        let Parts {
            names,
            parts,
            depth,
        } = self;
        (names, parts, depth)
    }
}

/// An expression so far, with its rank and its depth.
#[derive(Drop)]
pub struct SoFar {
    pub rank: u32,
    pub expr: Expr,
    pub depth: u32,
}

/// What goes on with an expression.
#[derive(Clone, Copy)]
pub enum Suffix {
    Field,
    Index,
    Operator(Binary),
}
