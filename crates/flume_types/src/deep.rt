// How deep a type is.
ghost use Rattle.std.specs.Prelude.{◌≡◌, ◌+◌, ◌-◌, ◌^◌, min};
ghost use Rattle.flume_types.specs.Depth.{depth_of, layer_depth, deepest as deepest_of};
ghost use Rattle.flume_types.specs.declared.types.Ty.{Ty as Ty_, out-Ty};

use crate::types::{Field, Ty};

/// How deep the parts of the type lie: 1 for int, bool and text, and for any other type 1 more
/// than its deepest part; 2^32 - 1 where it is more. It takes no memory.
#[cycle(depth)]
pub fn depth(ty: &Ty) -> u32
    ensures { result ≡ min (depth_of ty.now) (2 ^ 32 - 1) }
{
    match ty {
        Ty::Int => 1,
        Ty::Bool => 1,
        Ty::Text => 1,
        Ty::List(part) => one_more(depth(part.get())),
        Ty::Rec(fields) => one_more(deepest(fields.as_slice())),
        Ty::Either(left, right) => one_more(depth(left.get()).max(depth(right.get()))),
    }
}

#[cycle(depth)]
fn deepest(fields: &[Field<Ty>]) -> u32
    ensures { result ≡ min (deepest_of depth_of fields.now) (2 ^ 32 - 1) }
{
    let mut most = 0;
    for field in fields {
        most = most.max(depth(&field.ty));
    }
    most
}

fn one_more(depth: u32) -> u32
    ensures { result ≡ min (depth + 1) (2 ^ 32 - 1) }
{
    depth.saturating_add(1)
}

/// The depth of a type, from that of its parts.
pub fn depth_law()
    ensures one_level { (t : Ty_) → depth_of t ≡ layer_depth depth_of (out-Ty t) }
{}
