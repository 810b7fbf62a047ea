// Copies of types.
ghost use Rattle.std.specs.Prelude.{◌≡◌, IfOk};

use crate::types::{Field, Fields, Ty};
use flume_value::{Held, Pile};
use std::alloc::{AllocError, Global};

/// A type that equals this one.
#[cycle(copy)]
pub fn copy(alloc: Global, ty: &Ty) -> Result<Ty, AllocError>
    ensures { IfOk result (λ t. t ≡ ty.now) }
{
    match ty {
        Ty::Int => Ok(Ty::Int),
        Ty::Bool => Ok(Ty::Bool),
        Ty::Text => Ok(Ty::Text),
        Ty::List(part) => Ok(Ty::List(Held::new(alloc, copy(alloc, part.get())?)?)),
        Ty::Rec(fields) => Ok(Ty::Rec(copy_fields(alloc, fields.as_slice())?)),
        Ty::Either(left, right) => {
            let left = Held::new(alloc, copy(alloc, left.get())?)?;
            let right = Held::new(alloc, copy(alloc, right.get())?)?;
            Ok(Ty::Either(left, right))
        }
    }
}

/// Fields that equal these, in their order.
#[cycle(copy)]
pub(crate) fn copy_fields(alloc: Global, fields: &[Field<Ty>]) -> Result<Fields, AllocError>
    ensures { IfOk result (λ all. all ≡ fields.now) }
{
    let mut copied = Vec::with_capacity(alloc, fields.len())?;
    for field in fields {
        let name = field.name.copy(alloc)?;
        let ty = copy(alloc, &field.ty)?;
        copied.push(Field { name, ty })?;
    }
    Ok(Pile::from_vec(copied))
}

impl Ty {
    /// A type that equals this one.
    pub fn copy(&self, alloc: Global) -> Result<Ty, AllocError>
        ensures { IfOk result (λ t. t ≡ self.now) }
    {
        copy(alloc, self)
    }
}
