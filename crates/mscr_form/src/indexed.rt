// The roles of the nodes of a graph, each found by its number in one look-up.
ghost use Rattle.std.specs.Prelude.{◌≡◌, ◌==◌, ℕ, ◌<◌, cond, length, nat_eq, IfOk, IfSome, MatchOption, None, OnOk, Some};
ghost use Rattle.std.specs.HashMap.{get};
ghost use Rattle.mscr_form.specs.inner.Labels.{part_keys};
ghost use Rattle.mscr_form.specs.inner.Ranking as spec;
ghost use Rattle.mscr_form.specs.inner.Ranking.{IsIndexOf, role_in};

use exec_graph::Place;
use plan_laws::Key;
use plan_roles::{Part, Role};
use std::alloc::{AllocError, Global};
use std::collections::HashMap;
use std::marker::Model;

/// Roles, each found by its number in one look-up. Contracts see the roles.
#[derive(Drop)]
pub(crate) struct Roles<'a> {
    roles: &'a [Role],
    index: HashMap<u32, usize>,
}

impl<'a> Model for Roles<'a> {
    ghost use Rattle.std.specs.Prelude.{List};
    ghost use Rattle.std.specs.Coded.{coded_list};
    ghost use Rattle.plan_roles.specs.declared.roles.Role.{Role as Plain};
    ghost use Rattle.plan_roles.specs.contracts.roles.Role as plain;
    ghost use Rattle.mscr_form.specs.inner.Ranking.{IsIndexOf};

    ghost Value = { List Plain };

    ghost coded = { coded_list plain.the_row.coded };

    ghost view = { λ r. r.roles.now };

    ghost invariant = { λ r. IsIndexOf r.index r.roles.now };
}

impl<'a> Roles<'a> {
    pub(crate) fn new(alloc: Global, roles: &'a [Role]) -> Result<Roles<'a>, AllocError>
        ensures { IfOk result (λ all. all ≡ roles.now) }
    {
        let index = index_of(alloc, roles)?;
        Ok(Roles { roles, index })
    }

    /// The role of that number.
    fn find(&self, number: u32) -> Option<&'a Role>
        ensures { MatchOption result (role_in self.now number ≡ None)
            (λ role. role_in self.now number ≡ Some role.now) }
    {
        find_role(self.roles, &self.index, number)
    }

    /// The level of that role.
    pub(crate) fn level(&self, number: u32) -> u32
        ensures { result ≡ spec.level_in_role (role_in self.now number) }
    {
        match self.find(number) {
            Some(role) => role.level,
            None => 0,
        }
    }

    /// The keys of that role.
    pub(crate) fn keys(&self, number: u32) -> &'a [Key]
        ensures { result.now ≡ spec.keys_in_role (role_in self.now number) }
    {
        match self.find(number) {
            Some(role) => keys_of(role),
            None => &[],
        }
    }

    /// The reducer of that role.
    pub(crate) fn reducer(&self, number: u32) -> Option<u32>
        ensures { result ≡ spec.reducer_in_role (role_in self.now number) }
    {
        match self.find(number) {
            Some(role) => reducer_of(role),
            None => None,
        }
    }

    /// What passes through of that role.
    pub(crate) fn passes(&self, number: u32) -> &'a [Place]
        ensures { result.now ≡ spec.passes_in_role (role_in self.now number) }
    {
        match self.find(number) {
            Some(role) => passes_of(role),
            None => &[],
        }
    }
}

/// The keys that a role takes by.
pub(crate) fn keys_of(role: &Role) -> &[Key]
    ensures { result.now ≡ part_keys role.now.part }
{
    match &role.part {
        Part::Group(keys, _) => keys.as_slice(),
        _ => &[],
    }
}

fn reducer_of(role: &Role) -> Option<u32>
    ensures { result ≡ spec.part_reducer role.now.part }
{
    match &role.part {
        Part::Group(_, reducer) => *reducer,
        _ => None,
    }
}

fn passes_of(role: &Role) -> &[Place]
    ensures { result.now ≡ spec.part_passes role.now.part }
{
    match &role.part {
        Part::Mapper(passes) => passes.as_slice(),
        _ => &[],
    }
}

/// Where each role stands, by its number.
fn index_of(alloc: Global, roles: &[Role]) -> Result<HashMap<u32, usize>, AllocError>
    ensures { IfOk result (λ m. IsIndexOf m roles.now) }
{
    let mut index = HashMap::new(alloc);
    for (i, role) in roles.iter().enumerate() {
        put_first(role.number, i, &mut index)?;
    }
    Ok(index)
}

/// Puts a role where none of that number was put before.
fn put_first(number: u32, at: usize, index: &mut HashMap<u32, usize>) -> Result<(), AllocError>
    ensures { OnOk result ((n : ℕ) → get nat_eq index.new n
        ≡ spec.first_of (get nat_eq index.old n) (cond (number == n) (Some at) None)) }
{
    if !index.contains_key(&number) {
        index.insert(number, at)?;
    }
    Ok(())
}

/// The role of that number.
#[tactic(auto, using(crate::proofs::Indexing::index_none))]
fn find_role<'a>(roles: &'a [Role], index: &HashMap<u32, usize>, number: u32) -> Option<&'a Role>
    requires { IsIndexOf index.now roles.now }
    ensures { MatchOption result (role_in roles.now number ≡ None)
        (λ role. role_in roles.now number ≡ Some role.now) }
{
    match spot_of(roles, index, number) {
        Some(i) => Some(&roles[i]),
        None => None,
    }
}

/// Where the role of that number stands.
#[tactic(auto, using(crate::proofs::Indexing::index_within))]
fn spot_of(roles: &[Role], index: &HashMap<u32, usize>, number: u32) -> Option<usize>
    requires { IsIndexOf index.now roles.now }
    ensures is { result ≡ spec.place_from 0 roles.now number }
    ensures within { IfSome result (λ i. i < length roles.now) }
{
    index.get(&number).copied()
}
