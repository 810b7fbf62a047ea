// A well-typed function: the number of its outputs, and its body.
ghost use Rattle.std.specs.Prelude.{◌≡◌, ◌≤◌};
ghost use Rattle.dofn_eval.specs.Function.{IsFun};

use crate::stmt::Block;
use std::marker::Model;

/// A well-typed function of 1 to 8 outputs. It holds no type, but keeps that there are types at
/// which it is well typed: those of its argument, the one value in scope of its body, and of its
/// outputs. Contracts see it as the number of its outputs and the body.
#[derive(Drop)]
pub struct Fun {
    outputs: usize,
    body: Block,
}

impl Model for Fun {
    ghost use Rattle.std.specs.Coded.{codes};
    ghost use Rattle.dofn_eval.specs.contracts.stmt.Stmt as statements;
    ghost use Rattle.dofn_eval.specs.Function.{SlotFunction, IsFun};

    ghost Value = { SlotFunction };

    ghost coded = { Prim.hlevel (codes, statements.the_row.coded) };

    ghost view = { λ f. record { outputs = f.outputs; body = f.body } };

    ghost invariant = { λ f. IsFun (record { outputs = f.outputs; body = f.body }) };
}

impl Fun {
    /// The function of so many outputs by this body. It takes no memory.
    pub fn new(outputs: usize, body: Block) -> Fun
        requires { IsFun (record { outputs = outputs; body = body }) }
        ensures { result ≡ record { outputs = outputs; body = body } }
    {
        Fun { outputs, body }
    }

    /// How many outputs it has.
    pub fn outputs(&self) -> usize
        ensures outputs { result ≡ self.now.outputs }
        ensures some { 1 ≤ result }
        ensures most { result ≤ 8 }
    {
        self.outputs
    }

    /// Its statements.
    pub fn body(&self) -> &Block
        ensures body { result.now ≡ self.now.body }
        ensures typed { IsFun self.now }
    {
        &self.body
    }
}
