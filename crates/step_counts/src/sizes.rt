// Sizes of script nodes, as they grow.
ghost use Rattle.std.specs.Prelude.{◌<◌, ◌^◌, length, Some};
ghost use Rattle.step_counts.specs.Sizes.{HaveGrown};
ghost use Rattle.step_counts.specs.inner.Owned.{more_at, owned};

/// Adds a count to the size of its owner, where it has one that is asked for.
pub(crate) fn add_to(owner: Option<u64>, count: u64, sizes: &mut [u64])
    ensures { HaveGrown (λ i. more_at i owner count) sizes.old sizes.new }
{
    match owner {
        None => {}
        Some(node) => add_at(node as usize, count, sizes),
    }
}

fn add_at(node: usize, count: u64, sizes: &mut [u64])
    ensures { HaveGrown (λ i. more_at i (Some node) count) sizes.old sizes.new }
{
    if node < sizes.len() {
        sizes[node] = sizes[node].saturating_add(count);
    }
}

/// Adds each count to the size of its owner.
pub(crate) fn add_all(owners: &[Option<u64>], counts: &[u64], sizes: &mut [u64])
    ensures grown { HaveGrown (λ i. owned i owners.now counts.now) sizes.old sizes.new }
    ensures few { length sizes.old < 2 ^ 64 }
{
    let _count = sizes.len();
    for (owner, count) in owners.iter().zip(counts) {
        add_to(*owner, *count, sizes);
    }
}
