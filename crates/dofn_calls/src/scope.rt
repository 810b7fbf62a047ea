// The values in scope, and the value of a slot.
#![tactic(auto, using(crate::proofs::ScopeLemmas::slot_rules))]

ghost use Rattle.std.specs.Prelude.{◌≡◌, ◌<◌, length, slice_get, Some};
ghost use Rattle.dofn_calls.specs.inner.Operands.{named, values};

use flume_value::Value;

/// The values in scope, the newest first.
#[derive(Clone, Copy)]
pub enum Scope<'a> {
    Empty,
    /// One value more.
    Bound(&'a Value, &'a Scope<'a>),
    /// The values that a block has named so far, in order.
    Block(&'a [Value], &'a Scope<'a>),
}

/// The value of a slot in scope.
#[cycle(look_up)]
pub fn look_up<'a>(scope: &'a Scope<'a>, slot: usize) -> &'a Value
    requires { slot < length (values scope.now) }
    ensures { slice_get (values scope.now) slot ≡ Some result.now }
{
    match scope {
        Scope::Empty => unreachable!(),
        Scope::Bound(value, rest) => {
            if slot == 0 {
                value
            } else {
                look_up(rest, slot - 1)
            }
        }
        Scope::Block(newer, rest) => look_up_named(newer, rest, slot),
    }
}

#[cycle(look_up)]
fn look_up_named<'a>(newer: &'a [Value], rest: &'a Scope<'a>, slot: usize) -> &'a Value
    requires { slot < length (named newer.now (values rest.now)) }
    ensures { slice_get (named newer.now (values rest.now)) slot ≡ Some result.now }
{
    let count = newer.len();
    if slot < count {
        &newer[count - 1 - slot]
    } else {
        look_up(rest, slot - count)
    }
}
