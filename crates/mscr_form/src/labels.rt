// Labels of Gbks: one label where a chain of shared keys joins them.
ghost use Rattle.std.specs.Prelude.{◌≡◌, ◌==◌, ◌<◌, ◌∷◌, [], ◌++◌, ℕ, Bool, cond, length, map, nat_eq, true, IfOk, List, None, OnOk, Some};
ghost use Rattle.form_laws.specs.of_plan_rules.Fitting.{same_key};
ghost use Rattle.form_laws.specs.Classes.{has_same};
ghost use Rattle.mscr_form.specs.inner.Labels.{AreJoined, AreLabels, IsWithin, at_key, role_keys, level_at, relabelled, same_at, seen_at};
ghost use Rattle.plan_laws.specs.declared.operations.Key.{Key as GhostKey};

use crate::indexed::keys_of;
use plan_laws::Key;
use plan_roles::Role;
use std::alloc::{AllocError, Global};
use std::collections::HashMap;

/// The first Gbk that takes by each key, where keys of different levels differ.
#[derive(Drop)]
pub(crate) struct Seen {
    pub(crate) mappers: HashMap<(u32, u32), usize>,
    pub(crate) wholes: HashMap<(u32, (u32, u32)), usize>,
}

/// The Gbk that was noted under the key.
pub(crate) fn find(seen: &Seen, level: u32, key: Key) -> Option<usize>
    ensures { result ≡ seen_at seen.now level key }
{
    match key {
        Key::Mapper(number) => seen.mappers.get(&(level, number)).copied(),
        Key::Whole(c) => seen.wholes.get(&(level, (c.node, c.out))).copied(),
    }
}

/// Notes a Gbk under the key.
pub(crate) fn note(seen: &mut Seen, level: u32, key: Key, at: usize) -> Result<(), AllocError>
    ensures { OnOk result ((l : ℕ) (k : GhostKey) → seen_at seen.new l k
        ≡ cond (same_at level key l k) (Some at) (seen_at seen.old l k)) }
{
    match key {
        Key::Mapper(number) => {
            seen.mappers.insert((level, number), at)?;
        }
        Key::Whole(c) => {
            seen.wholes.insert((level, (c.node, c.out)), at)?;
        }
    }
    Ok(())
}

fn relabelled(label: usize, from: usize, to: usize) -> usize
    ensures { result ≡ relabelled from to label }
{
    if label == from { to } else { label }
}

/// Puts a label in place of another.
fn relabel(labels: &mut Vec<usize>, from: usize, to: usize)
    ensures all { length labels.new.items ≡ length labels.old.items }
    ensures each { (x : ℕ) → x < length labels.old.items →
        at_key labels.new.items x ≡ relabelled from to (at_key labels.old.items x) }
{
    for i in 0..labels.len() {
        labels[i] = relabelled(labels[i], from, to);
    }
}

/// Gives what has either label one label.
fn unite(labels: &mut Vec<usize>, i: usize, j: usize)
    requires first { i < length labels.old.items }
    requires second { j < length labels.old.items }
    ensures all { length labels.new.items ≡ length labels.old.items }
    ensures each { (x : ℕ) → x < length labels.old.items → at_key labels.new.items x
        ≡ relabelled (at_key labels.old.items i) (at_key labels.old.items j)
        (at_key labels.old.items x) }
{
    let from = labels[i];
    let to = labels[j];
    if from != to {
        relabel(labels, from, to);
    }
}

/// Joins a Gbk with those that take by the key on its level.
fn join_key(
    roles: &[Role],
    labels: &mut Vec<usize>,
    seen: &mut Seen,
    i: usize,
    key: Key,
) -> Result<(), AllocError>
    requires here { i < length roles.now }
    requires all { length labels.old.items ≡ length roles.now }
    requires key { has_same (role_keys roles.now i) key ≡ true }
    requires within { IsWithin roles.now seen.old }
    ensures all { length labels.new.items ≡ length roles.now }
    ensures within { OnOk result (IsWithin roles.now seen.new) }
    ensures joined { OnOk result ((ps : List (ℕ × GhostKey)) →
        AreJoined roles.now labels.old.items seen.old ps →
        AreJoined roles.now labels.new.items seen.new (ps ++ ((i, key) ∷ []))) }
{
    let level = roles[i].level;
    match find(seen, level, key) {
        None => {
            note(seen, level, key, i)?;
            Ok(())
        }
        Some(j) => {
            unite(labels, i, j);
            Ok(())
        }
    }
}

/// Joins a Gbk with those that it shares a key with.
fn join_role(
    roles: &[Role],
    labels: &mut Vec<usize>,
    seen: &mut Seen,
    i: usize,
) -> Result<(), AllocError>
    requires here { i < length roles.now }
    requires all { length labels.old.items ≡ length roles.now }
    requires within { IsWithin roles.now seen.old }
    ensures all { length labels.new.items ≡ length roles.now }
    ensures within { OnOk result (IsWithin roles.now seen.new) }
    ensures joined { OnOk result ((ps : List (ℕ × GhostKey)) →
        AreJoined roles.now labels.old.items seen.old ps →
        AreJoined roles.now labels.new.items seen.new
        (ps ++ map (λ k. (i, k)) (role_keys roles.now i))) }
{
    let keys = keys_at(roles, i);
    for key in keys {
        join_key(roles, labels, seen, i, *key)?;
    }
    Ok(())
}

/// The keys of the Gbk at that place.
fn keys_at(roles: &[Role], i: usize) -> &[Key]
    requires { i < length roles.now }
    ensures { result.now ≡ role_keys roles.now i }
{
    keys_of(&roles[i])
}

/// Each place as its own label.
fn own_labels(alloc: Global, count: usize) -> Result<Vec<usize>, AllocError>
    ensures all { IfOk result (λ v. length v.items ≡ count) }
    ensures own { IfOk result (λ v. (x : ℕ) → x < count → at_key v.items x ≡ x) }
{
    let mut labels = Vec::new(alloc);
    for i in 0..count {
        labels.push(i)?;
    }
    Ok(labels)
}

/// Labels of the roles: two have one label exactly where they are linked.
pub(crate) fn labels_of(alloc: Global, roles: &[Role]) -> Result<Vec<usize>, AllocError>
    ensures { IfOk result (λ v. AreLabels roles.now v.items) }
{
    let mut labels = own_labels(alloc, roles.len())?;
    let mut seen = Seen {
        mappers: HashMap::new(alloc),
        wholes: HashMap::new(alloc),
    };
    for i in 0..roles.len() {
        join_role(roles, &mut labels, &mut seen, i)?;
    }
    Ok(labels)
}
