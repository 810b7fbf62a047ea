// The classes of Gbks, by their labels.
ghost use Rattle.std.specs.Prelude.{◌≡◌, ◌<◌, ℕ, [], filter, length, IfOk};
ghost use Rattle.exec_graph.specs.Meaning.{IsSound};
ghost use Rattle.exec_graph.specs.Wellformed.{Ascends};
ghost use Rattle.exec_graph.specs.declared.graph.Blocked.{Blocked};
ghost use Rattle.form_laws.specs.Classes.{AreClasses};
ghost use Rattle.plan_roles.specs.Roles.{roles as roles_of};
ghost use Rattle.mscr_form.specs.inner.Buckets.{AreBuckets, bucket_at, is_group, is_some, members_to};
ghost use Rattle.mscr_form.specs.inner.Labels.{AreLabels};

use crate::labels::labels_of;
use flume_value::Pile;
use plan_roles::{Part, Role};
use std::alloc::{AllocError, Global};

/// The classes of the Gbks, each with its least number first.
pub(crate) fn classes_of(alloc: Global, roles: &[Role]) -> Result<Vec<Pile<u32>>, AllocError>
    ensures { IfOk result (λ v. (b : Blocked) → IsSound b.graph → Ascends b.graph.nodes →
        roles.now ≡ roles_of b → AreClasses b v.items) }
{
    let labels = labels_of(alloc, roles)?;
    let buckets = buckets_of(alloc, roles, labels.as_slice())?;
    let classes = some_buckets(alloc, buckets)?;
    Ok(classes)
}

/// The Gbks of each label, in order.
fn buckets_of(alloc: Global, roles: &[Role], labels: &[usize]) -> Result<Vec<Pile<u32>>, AllocError>
    requires { AreLabels roles.now labels.now }
    ensures { IfOk result (λ v. AreBuckets roles.now labels.now v.items) }
{
    let mut buckets = empty_buckets(alloc, roles.len())?;
    for i in 0..roles.len() {
        if is_group(&roles[i]) {
            buckets[labels[i]].push(roles[i].number)?;
        }
    }
    Ok(buckets)
}

fn empty_buckets(alloc: Global, count: usize) -> Result<Vec<Pile<u32>>, AllocError>
    ensures all { IfOk result (λ v. length v.items ≡ count) }
    ensures empty { IfOk result (λ v. (x : ℕ) → bucket_at v.items x ≡ []) }
{
    let mut buckets = Vec::new(alloc);
    for _i in 0..count {
        buckets.push(Pile::new(alloc))?;
    }
    Ok(buckets)
}

fn is_group(role: &Role) -> bool
    ensures { result ≡ is_group role.now.part }
{
    matches!(role.part, Part::Group(_, _))
}

/// Those that have members.
fn some_buckets(alloc: Global, buckets: Vec<Pile<u32>>) -> Result<Vec<Pile<u32>>, AllocError>
    ensures { IfOk result (λ v. v.items ≡ filter is_some buckets.items) }
{
    let mut classes = Vec::new(alloc);
    for bucket in buckets {
        if bucket.as_slice().len() != 0 {
            classes.push(bucket)?;
        }
    }
    Ok(classes)
}
