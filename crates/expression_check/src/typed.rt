// Slots with their types: an expression, an operand, a pair and parts in order.
ghost use Rattle.std.specs.Prelude.{◌≡◌, IfOk};

use dofn_eval::Expr as Slots;
use flume_value::{Held, Pile};
use std::alloc::{AllocError, Global};
use type_table::TypeId;

/// An expression's slots, and its type.
#[derive(Drop)]
pub struct Typed {
    pub expr: Slots,
    pub ty: TypeId,
}

/// The slots of an operand, in a box as what is made of them wants it, and their type.
#[derive(Drop)]
pub struct Operand {
    pub expr: Held<Slots>,
    pub ty: TypeId,
}

impl Operand {
    /// The same slots and type.
    pub fn new(alloc: Global, x: Typed) -> Result<Operand, AllocError>
        ensures slots { IfOk result (λ made. made.expr ≡ x.expr) }
        ensures ty { IfOk result (λ made. made.ty ≡ x.ty) }
    {
        let ty = x.ty;
        let expr = Held::new(alloc, x.expr)?;
        Ok(Operand { expr, ty })
    }
}

/// Two operands.
#[derive(Drop)]
pub struct Pair {
    pub first: Operand,
    pub second: Operand,
}

/// The slots and the types of parts, in order.
#[derive(Drop)]
pub struct AllTyped {
    pub exprs: Pile<Slots>,
    pub types: Pile<TypeId>,
}
