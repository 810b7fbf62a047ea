// The objects that Operate stages make.
ghost use Rattle.std.specs.Prelude.{◌≡◌, length, sum};
ghost use Rattle.exec_graph.specs.World.{World};
ghost use Rattle.flume_collection.specs.Collection.{Collection};
ghost use Rattle.task_lists.specs.Plans.{task_counts};
ghost use Rattle.step_counts.specs.Sizes.{HaveGrown};
ghost use Rattle.step_counts.specs.inner.Owned.{object_owner};

use crate::sizes::add_to;

/// Adds the members of an object of that script node, which are one or none, to the node's size,
/// where the object is its own bag.
pub fn add_object(origin: u32, last: bool, members: u64, sizes: &mut [u64])
    ensures { (w : World) (object : Collection) → members ≡ length object.bag →
        HaveGrown (λ i. sum ((task_counts w i).objects origin last object)) sizes.old sizes.new }
{
    add_to(owner_of(origin, last), members, sizes);
}

// The script node whose own bag the object is.
fn owner_of(origin: u32, last: bool) -> Option<u64>
    ensures { result ≡ object_owner origin last }
{
    if last { Some(u64::from(origin)) } else { None }
}
