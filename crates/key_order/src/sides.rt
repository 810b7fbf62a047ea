// Values on a side of an either, which stand without a box.
ghost use Rattle.std.specs.Prelude.{◌≡◌, IfOk};
ghost use Rattle.key_order.specs.inner.Sides.{boxed, held_in, side_in, sided};

use flume_value::{Held, Items, Str, Value, copy_all};
use std::alloc::{AllocError, Global};

/// On which side of an either a value stands, or on none.
#[derive(Clone, Copy)]
pub(crate) enum Side {
    /// It is no side.
    Plain,
    /// The left side.
    Left,
    /// The right side.
    Right,
}

/// A value that stands without the box of its side. The side stands behind the number of the
/// variant, where a value has room to spare, so this takes no more than a value does.
#[derive(Drop)]
pub(crate) enum Sided {
    Int(Side, i64),
    Bool(Side, bool),
    Text(Side, Str),
    List(Side, Items),
    Rec(Side, Items),
    Left(Side, Held<Value>),
    Right(Side, Held<Value>),
    Wide(Side, i128),
}

const _: () = prove!(size_of::<Sided>() == size_of::<Value>());

/// The value without the box of its side. It takes no memory.
#[inline(always)]
pub(crate) fn unboxed(value: Value) -> Sided
    ensures { boxed result ≡ value }
{
    match value {
        Value::Left(inner) => on_side(Side::Left, inner.into_inner()),
        Value::Right(inner) => on_side(Side::Right, inner.into_inner()),
        other => on_side(Side::Plain, other),
    }
}

/// The value on its side. It takes no memory.
#[inline(always)]
pub(crate) fn on_side(side: Side, value: Value) -> Sided
    ensures { boxed result ≡ sided side value }
{
    match value {
        Value::Int(n) => Sided::Int(side, n),
        Value::Bool(b) => Sided::Bool(side, b),
        Value::Text(text) => Sided::Text(side, text),
        Value::List(items) => Sided::List(side, items),
        Value::Rec(fields) => Sided::Rec(side, fields),
        Value::Left(part) => Sided::Left(side, part),
        Value::Right(part) => Sided::Right(side, part),
        Value::Wide(n) => Sided::Wide(side, n),
    }
}

impl Sided {
    /// A copy of the value, in the box of its side.
    pub(crate) fn copy(&self, alloc: Global) -> Result<Value, AllocError>
        ensures { IfOk result (λ value. value ≡ boxed self.now) }
    {
        let side = self.side();
        let value = self.copy_held(alloc)?;
        put_on(alloc, side, value)
    }

    /// The value, in the box of its side.
    #[inline(always)]
    pub(crate) fn into_value(self, alloc: Global) -> Result<Value, AllocError>
        ensures { IfOk result (λ value. value ≡ boxed self) }
    {
        match self {
            Sided::Int(Side::Plain, n) => Ok(Value::Int(n)),
            Sided::Int(side, n) => put_on(alloc, side, Value::Int(n)),
            Sided::Bool(side, b) => put_on(alloc, side, Value::Bool(b)),
            Sided::Text(side, text) => put_on(alloc, side, Value::Text(text)),
            Sided::List(side, items) => put_on(alloc, side, Value::List(items)),
            Sided::Rec(side, fields) => put_on(alloc, side, Value::Rec(fields)),
            Sided::Left(side, part) => put_on(alloc, side, Value::Left(part)),
            Sided::Right(side, part) => put_on(alloc, side, Value::Right(part)),
            Sided::Wide(side, n) => put_on(alloc, side, Value::Wide(n)),
        }
    }

    /// Its side.
    fn side(&self) -> Side
        ensures { result ≡ side_in self.now }
    {
        match self {
            Sided::Int(side, _) => *side,
            Sided::Bool(side, _) => *side,
            Sided::Text(side, _) => *side,
            Sided::List(side, _) => *side,
            Sided::Rec(side, _) => *side,
            Sided::Left(side, _) => *side,
            Sided::Right(side, _) => *side,
            Sided::Wide(side, _) => *side,
        }
    }

    /// A copy of what stands on the side.
    fn copy_held(&self, alloc: Global) -> Result<Value, AllocError>
        ensures { IfOk result (λ value. value ≡ held_in self.now) }
    {
        match self {
            Sided::Int(_, n) => Ok(Value::Int(*n)),
            Sided::Bool(_, b) => Ok(Value::Bool(*b)),
            Sided::Text(_, text) => Ok(Value::Text(text.copy(alloc)?)),
            Sided::List(_, items) => Ok(Value::List(copy_all(alloc, items.as_slice())?)),
            Sided::Rec(_, fields) => Ok(Value::Rec(copy_all(alloc, fields.as_slice())?)),
            Sided::Left(_, part) => Ok(Value::Left(Held::new(alloc, part.get().copy(alloc)?)?)),
            Sided::Right(_, part) => Ok(Value::Right(Held::new(alloc, part.get().copy(alloc)?)?)),
            Sided::Wide(_, n) => Ok(Value::Wide(*n)),
        }
    }
}

/// The value, put on its side.
#[inline(always)]
fn put_on(alloc: Global, side: Side, value: Value) -> Result<Value, AllocError>
    ensures { IfOk result (λ v. v ≡ sided side value) }
{
    match side {
        Side::Plain => Ok(value),
        Side::Left => Ok(Value::Left(Held::new(alloc, value)?)),
        Side::Right => Ok(Value::Right(Held::new(alloc, value)?)),
    }
}
