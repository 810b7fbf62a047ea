// The groups of reduce tasks.
ghost use Rattle.std.specs.Prelude.{◌≡◌};
ghost use Rattle.task_lists.specs.Plans.{groups_count};
ghost use Rattle.task_lists.specs.Runs.{kept_count};
ghost use Rattle.task_lists.specs.Tasks.{Task, asks_of};
ghost use Rattle.step_counts.specs.Sizes.{HaveGrown};
ghost use Rattle.step_counts.specs.inner.Owned.{group_owner};

use crate::sizes::add_to;
use exec_plan::Grouping;

/// Adds the groups of a reduce task of the channel to the size of their script node, where they are
/// its own bag.
pub fn add_groups(grouping: &Grouping, groups: u64, sizes: &mut [u64])
    ensures { (task : Task) → groups ≡ kept_count (asks_of task) →
        HaveGrown (λ i. groups_count i grouping.now task) sizes.old sizes.new }
{
    add_to(owner_of(grouping), groups, sizes);
}

// The script node whose own bag the groups are.
fn owner_of(grouping: &Grouping) -> Option<u64>
    ensures { result ≡ group_owner grouping.now }
{
    if grouping.last {
        Some(u64::from(grouping.origin))
    } else {
        None
    }
}
