// The operations of a graph with their ranks.
ghost use Rattle.std.specs.Prelude.{◌≡◌, [], ◌∷◌, ◌++◌, map, IfOk, OnOk};
ghost use Rattle.std.specs.List.{flat_map};
ghost use Rattle.form_laws.specs.Operations.{first_uses, number_of_first as first_number};
ghost use Rattle.plan_laws.specs.declared.operations.Key.TheVariants.{Mapper};
ghost use Rattle.plan_laws.specs.declared.operations.Operation.TheVariants.{Class};
ghost use Rattle.mscr_form.specs.inner.Ranking as spec;
ghost use Rattle.mscr_form.specs.inner.Ranking.{AreUsed};

use crate::indexed::Roles;
use crate::labels::{Seen, find, note};
use exec_graph::Place;
use flume_value::Pile;
use form_laws::Ranked;
use plan_laws::{Grouped, Key, Operation};
use plan_roles::{Part, Role};
use std::alloc::{AllocError, Global};
use std::collections::HashMap;

/// All operations: those of the classes, and those of Pdos and Flattens by themselves.
pub(crate) fn operations_with(
    alloc: Global,
    roles: &[Role],
    classes: &[Pile<u32>],
) -> Result<Vec<Ranked>, AllocError>
    ensures { IfOk result (λ v. v.items ≡ spec.operations_with roles.now classes.now) }
{
    let indexed = Roles::new(alloc, roles)?;
    let mut all = all_ranked(alloc, &indexed, classes)?;
    for role in roles {
        push_alone(alloc, role, &mut all)?;
    }
    Ok(all)
}

/// The MSCRs of the classes.
fn all_ranked(
    alloc: Global,
    roles: &Roles<'_>,
    classes: &[Pile<u32>],
) -> Result<Vec<Ranked>, AllocError>
    ensures { IfOk result (λ v. v.items ≡ map (spec.class_with roles.now) classes.now) }
{
    let mut all = Vec::new(alloc);
    for class in classes {
        let ranked = class_ranked(alloc, roles, class.as_slice())?;
        all.push(ranked)?;
    }
    Ok(all)
}

/// The MSCR of a class.
fn class_ranked(alloc: Global, roles: &Roles<'_>, class: &[u32]) -> Result<Ranked, AllocError>
    ensures { IfOk result (λ x. x ≡ spec.class_with roles.now class.now) }
{
    let all = all_keys(alloc, roles, class)?;
    let keys = first_uses(alloc, all.as_slice())?;
    let groups = groups_of(alloc, roles, class)?;
    let passes = passes_of(alloc, roles, keys.as_slice())?;
    let number = least_of(class);
    Ok(Ranked {
        rank: u64::from(roles.level(number)) * 2,
        number,
        does: Operation::Class(keys, groups, passes),
    })
}

/// The keys of the Gbks of a class, repeats included.
fn all_keys(alloc: Global, roles: &Roles<'_>, class: &[u32]) -> Result<Vec<Key>, AllocError>
    ensures { IfOk result (λ v. v.items ≡ spec.all_keys roles.now class.now) }
{
    let mut keys = Vec::new(alloc);
    for number in class {
        keys.extend_from_slice(roles.keys(*number))?;
    }
    Ok(keys)
}

/// Each key where it stands first.
fn first_uses(alloc: Global, all: &[Key]) -> Result<Pile<Key>, AllocError>
    ensures { IfOk result (λ ks. ks ≡ first_uses all.now) }
{
    let mut seen = Seen {
        mappers: HashMap::new(alloc),
        wholes: HashMap::new(alloc),
    };
    let mut keys = Pile::new(alloc);
    for key in all {
        use_key(&mut seen, &mut keys, *key)?;
    }
    Ok(keys)
}

/// Adds a key, where it is not among these.
fn use_key(seen: &mut Seen, keys: &mut Pile<Key>, key: Key) -> Result<(), AllocError>
    requires { AreUsed seen.old keys.old }
    ensures keys { OnOk result (keys.new ≡ spec.used keys.old key) }
    ensures used { OnOk result (AreUsed seen.new keys.new) }
{
    match find(seen, 0, key) {
        Some(_) => Ok(()),
        None => {
            note(seen, 0, key, 0)?;
            keys.push(key)?;
            Ok(())
        }
    }
}

/// The Gbks of a class with their reducers.
fn groups_of(alloc: Global, roles: &Roles<'_>, class: &[u32]) -> Result<Pile<Grouped>, AllocError>
    ensures { IfOk result (λ gs. gs ≡ map (spec.grouped_with roles.now) class.now) }
{
    let mut all = Pile::new(alloc);
    for number in class {
        all.push(Grouped {
            gbk: *number,
            reducer: roles.reducer(*number),
        })?;
    }
    Ok(all)
}

/// What passes through of the keys.
fn passes_of(alloc: Global, roles: &Roles<'_>, keys: &[Key]) -> Result<Pile<Place>, AllocError>
    ensures { IfOk result (λ cs. cs ≡ flat_map (spec.key_passes_with roles.now) keys.now) }
{
    let mut passes = Vec::new(alloc);
    for key in keys {
        passes.extend_from_slice(key_passes(roles, *key))?;
    }
    Ok(Pile::from_vec(passes))
}

fn key_passes<'a>(roles: &Roles<'a>, key: Key) -> &'a [Place]
    ensures { result.now ≡ spec.key_passes_with roles.now key }
{
    match key {
        Key::Mapper(number) => roles.passes(number),
        Key::Whole(_) => &[],
    }
}

fn least_of(class: &[u32]) -> u32
    ensures { result ≡ first_number class.now }
{
    if class.is_empty() { 0 } else { class[0] }
}

/// Adds the operation that a Pdo or a Flatten is by itself.
fn push_alone(alloc: Global, role: &Role, all: &mut Vec<Ranked>) -> Result<(), AllocError>
    ensures { OnOk result (all.new.items ≡ all.old.items ++ spec.alone_role role.now) }
{
    match &role.part {
        Part::Stage => {
            all.push(alone(role, Operation::Flat(role.number)))?;
            Ok(())
        }
        Part::Trivial(outs) => {
            let does = trivial(alloc, role.number, outs.as_slice())?;
            all.push(alone(role, does))?;
            Ok(())
        }
        Part::Operate => {
            all.push(object(role))?;
            Ok(())
        }
        Part::Source | Part::Inlined | Part::Mapper(_) | Part::Reducer | Part::Group(_, _) => Ok(
            (),
        ),
    }
}

fn alone(role: &Role, does: Operation) -> Ranked
    ensures { result ≡ spec.alone_at role.now does }
{
    Ranked {
        rank: u64::from(role.level) * 2 + 1,
        number: role.number,
        does,
    }
}

/// Each output of a Pdo passes through.
fn trivial(alloc: Global, number: u32, outs: &[Place]) -> Result<Operation, AllocError>
    ensures { IfOk result (λ x. x ≡ Class (Mapper number ∷ []) [] outs.now) }
{
    let mut keys = Pile::new(alloc);
    keys.push(Key::Mapper(number))?;
    let passes = Vec::from_slice(alloc, outs)?;
    Ok(Operation::Class(keys, Pile::new(alloc), Pile::from_vec(passes)))
}

fn object(role: &Role) -> Ranked
    ensures { result ≡ spec.object_at role.now }
{
    Ranked {
        rank: u64::from(role.level) * 2,
        number: role.number,
        does: Operation::Flat(role.number),
    }
}
