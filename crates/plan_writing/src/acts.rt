// What an object is made by: the call of a function, or the value of one pair.
ghost use Rattle.std.specs.Prelude.{◌≡◌, ◌++◌, OnOk};
ghost use Rattle.plan_writing.specs.Acts as spec;

use crate::names::Names;
use exec_graph::{Act, Does};
use std::alloc::AllocError;

/// Adds what an object is made by for the script node `origin`.
pub fn push_act<N: Names>(
    text: &mut Vec<u8>,
    names: &N,
    origin: u32,
    act: Act,
) -> Result<(), AllocError>
    ensures { OnOk result (text.new.items
        ≡ text.old.items ++ spec.act_text (N.naming names.now) origin act) }
{
    match act {
        Act::SideInput(function) => names.push_step(text, origin, Does::Call(function)),
        Act::Operate(function) => names.push_step(text, origin, Does::Call(function)),
        Act::Singleton(_) => {
            names.push_node(text, origin)?;
            text.extend_from_slice(b":%one")
        }
    }
}
