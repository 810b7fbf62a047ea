// How deep a type is, from the depths of its parts.
ghost use Rattle.std.specs.Prelude.{◌≡◌, ◌+◌, ◌<◌, length, map};
ghost use Rattle.flume_types.specs.Depth.{depth_of, deepest as deepest_of};
ghost use Rattle.type_table.specs.Table as spec;

use crate::shape::{Part, Shape, TypeId};
use flume_types::depth_law;
use indexmap::IndexMap;

/// The depth that is kept beside a shape.
pub fn depth_at(shapes: &IndexMap<Shape, u32>, id: TypeId) -> u32
    requires { id < length shapes.now.entries }
    ensures { result ≡ (spec.entry_at shapes.now.entries id).1 }
{
    match shapes.get_index(id.number()) {
        Some((_, depth)) => *depth,
        None => unreachable!(),
    }
}

/// The depth of the type that a shape stands for.
pub fn shape_depth(shapes: &IndexMap<Shape, u32>, shape: &Shape) -> u32
    requires table { spec.IsTable shapes.now.entries }
    requires within { spec.IsWithin (length shapes.now.entries) shape.now }
    ensures { result ≡
        spec.depth_kept (depth_of (spec.tree_of (spec.kept_types shapes.now.entries) shape.now)) }
{
    depth_law();
    match shape {
        Shape::Int => 1,
        Shape::Bool => 1,
        Shape::Text => 1,
        Shape::List(part) => one_more(depth_at(shapes, *part)),
        Shape::Rec(parts) => one_more(deepest(shapes, parts.as_slice())),
        Shape::Either(left, right) => {
            one_more(depth_at(shapes, *left).max(depth_at(shapes, *right)))
        }
    }
}

/// The greatest depth among fields.
fn deepest(shapes: &IndexMap<Shape, u32>, parts: &[Part]) -> u32
    requires table { spec.IsTable shapes.now.entries }
    requires within { spec.AreWithin (length shapes.now.entries) parts.now }
    ensures { result ≡ spec.depth_kept
        (deepest_of depth_of (map (spec.field_at (spec.kept_types shapes.now.entries)) parts.now)) }
{
    let mut most = 0;
    for part in parts {
        most = most.max(depth_at(shapes, part.ty));
    }
    most
}

fn one_more(depth: u32) -> u32
    ensures { result ≡ spec.depth_kept (depth + 1) }
{
    depth.saturating_add(1)
}
