// A pair whose key and value stand in it, and not in a record of their own.
ghost use Rattle.std.specs.Prelude.{◌≡◌, Some, IfOk};
ghost use Rattle.bag_groups.specs.Pairs.{IsPair, key_of, pair as pair_of, value_of};
ghost use Rattle.flume_value.specs.Order.{value_cmp};
ghost use Rattle.flume_value.specs.declared.value.Value.TheVariants as values;
ghost use Rattle.key_order.specs.inner.Numbered.{key_in};
ghost use Rattle.key_order.specs.inner.Sides.{boxed};

use crate::sides::{Side, Sided, on_side, unboxed};
use bag_groups::{into_parts, pair};
use flume_value::{Value, compare};
use std::alloc::{AllocError, Global};
use std::cmp::Ordering;
use std::marker::Model;

/// A pair that is kept for a while, which contracts see as the value that it is.
///
/// A record takes an allocation, and so does a side of an either. Here the key and what the value
/// holds stand side by side: most pairs take no memory but their place in a list, which is that of
/// two values.
#[derive(Drop)]
pub struct Couple {
    key: Value,
    value: Sided,
}

const _: () = prove!(size_of::<Couple>() == 2 * size_of::<Value>());

impl Model for Couple {
    ghost use Rattle.bag_groups.specs.Pairs.{pair};
    ghost use Rattle.flume_value.specs.contracts.value.Value as coded_values;
    ghost use Rattle.flume_value.specs.declared.value.Value.{Value as Plain};
    ghost use Rattle.key_order.specs.inner.Sides.{boxed};

    ghost Value = { Plain };

    ghost coded = { coded_values.the_row.coded };

    ghost view = { λ c. pair c.key (boxed c.value) };
}

impl Couple {
    /// The pair, of which nothing is copied. It takes no memory.
    pub fn new(pair: Value) -> Couple
        requires { IsPair pair }
        ensures { result ≡ pair }
    {
        match into_parts(pair) {
            Some((key, value)) => Couple::of(key, value),
            None => unreachable!(),
        }
    }

    /// The pair of these, of which a side of an either is taken out of its box. It takes no memory.
    #[inline(always)]
    pub fn of(key: Value, value: Value) -> Couple
        ensures { result ≡ pair_of key value }
    {
        Couple::with(key, unboxed(value))
    }

    /// The pair of the key and an int. It takes no memory.
    #[inline(always)]
    pub fn of_int(key: Value, value: i64) -> Couple
        ensures { result ≡ pair_of key (values.Int value) }
    {
        Couple::with(key, Sided::Int(Side::Plain, value))
    }

    /// The pair of the key and the left of the value. It takes no memory.
    #[inline(always)]
    pub fn of_left(key: Value, value: Value) -> Couple
        ensures { result ≡ pair_of key (values.Left value) }
    {
        Couple::with(key, on_side(Side::Left, value))
    }

    /// The pair of the key and the right of the value. It takes no memory.
    #[inline(always)]
    pub fn of_right(key: Value, value: Value) -> Couple
        ensures { result ≡ pair_of key (values.Right value) }
    {
        Couple::with(key, on_side(Side::Right, value))
    }

    #[inline(always)]
    fn with(key: Value, value: Sided) -> Couple
        ensures { result ≡ pair_of key (boxed value) }
    {
        Couple { key, value }
    }

    /// The key.
    #[inline(always)]
    pub fn key(&self) -> &Value
        ensures { key_of self.now ≡ Some result.now }
    {
        &self.key
    }

    /// A copy of the value.
    pub fn copy_value(&self, alloc: Global) -> Result<Value, AllocError>
        ensures { IfOk result (λ value. value_of self.now ≡ Some value) }
    {
        self.value.copy(alloc)
    }

    /// A copy of the pair.
    pub fn copy(&self, alloc: Global) -> Result<Couple, AllocError>
        ensures { IfOk result (λ copy. copy ≡ self.now) }
    {
        let key = self.key.copy(alloc)?;
        let value = self.value.copy(alloc)?;
        Ok(Couple::of(key, value))
    }

    /// Its key and its value.
    #[inline(always)]
    pub fn into_parts(self, alloc: Global) -> Result<(Value, Value), AllocError>
        ensures { IfOk result (λ parts. pair_of parts.0 parts.1 ≡ self) }
    {
        let Couple { key, value } = self;
        let value = value.into_value(alloc)?;
        Ok((key, value))
    }

    /// The pair as a record.
    pub fn into_value(self, alloc: Global) -> Result<Value, AllocError>
        ensures { IfOk result (λ value. value ≡ self) }
    {
        let (key, value) = self.into_parts(alloc)?;
        pair(alloc, key, value)
    }

    /// How its key stands to that of the other.
    pub(crate) fn compare_keys(&self, other: &Couple) -> Ordering
        ensures { result ≡ value_cmp (key_in self.now) (key_in other.now) }
    {
        compare(&self.key, &other.key)
    }
}
