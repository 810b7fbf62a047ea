// The names that Pdos keep, as far as they are told.
ghost use Rattle.std.specs.Prelude.{◌≡◌, ◌≢◌, ◌++◌, ◌<◌, ◌==◌, ℕ, cond, IfOk, None, nat_eq, OnOk, Some};
ghost use Rattle.std.specs.HashMap.{get};
ghost use Rattle.exec_graph.specs.Forests.{grown};
ghost use Rattle.exec_graph.specs.Twigs.{twig};
ghost use Rattle.graph_walks.specs.Outs.{out_list, outs};
ghost use Rattle.graph_walks.specs.inner.Numbering.{branch_outs, twig_outs};
ghost use Rattle.graph_joins.specs.Lists.{HasLists};
ghost use Rattle.graph_joins.specs.inner.Seeks.{is_kth};
ghost use Rattle.graph_joins.specs.inner.Splices as spec;

use crate::graphs::NamedGraph;
use crate::names::Names;
use exec_graph::{Output, Step};
use graph_joining::Kid;
use std::alloc::{AllocError, Global};
use std::collections::HashMap;

/// Whether the name stands there, counted from 0 on.
pub(crate) fn is_listed(names: &Names, number: u32, name: u32) -> bool
    ensures { result ≡ is_kth names.now number name }
{
    match names.get(number as usize) {
        Some(other) => other == name,
        None => false,
    }
}

/// Tells of these Pdos too.
pub(crate) fn list_both(
    alloc: Global,
    graph: &NamedGraph,
    one: u32,
    other: u32,
    lists: &mut HashMap<u32, Names>,
) -> Result<(), AllocError>
    requires { HasLists lists.old graph.now.nodes }
    ensures { OnOk result (HasLists lists.new graph.now.nodes) }
{
    list_node(alloc, graph, one, lists)?;
    list_node(alloc, graph, other, lists)?;
    Ok(())
}

/// Tells of the Pdo too.
fn list_node(
    alloc: Global,
    graph: &NamedGraph,
    number: u32,
    lists: &mut HashMap<u32, Names>,
) -> Result<(), AllocError>
    requires { HasLists lists.old graph.now.nodes }
    ensures { OnOk result (HasLists lists.new graph.now.nodes) }
{
    if lists.contains_key(&number) {
        return Ok(());
    }
    let names = names_of(alloc, graph.steps(number))?;
    put_list(alloc, number, names, lists)?;
    Ok(())
}

fn put_list(
    alloc: Global,
    number: u32,
    names: Vec<u32>,
    lists: &mut HashMap<u32, Names>,
) -> Result<(), AllocError>
    ensures { OnOk result ((n : ℕ) → get nat_eq lists.new n
        ≡ cond (n == number) (Some names.items) (get nat_eq lists.old n)) }
{
    let told = Names::new(alloc, names)?;
    lists.insert(number, told)?;
    Ok(())
}

/// Tells of neither Pdo any more.
pub(crate) fn unlist(keeper: u32, other: u32, lists: &mut HashMap<u32, Names>)
    ensures { (n : ℕ) → get nat_eq lists.new n
        ≡ cond (n == keeper) None (cond (n == other) None (get nat_eq lists.old n)) }
{
    let _ = lists.remove(&other);
    let _ = lists.remove(&keeper);
}

/// Tells of the keeper what it keeps with the reader on that output, if both were told of and no
/// steps were on it, and of the reader no more.
pub(crate) fn relist(
    kid: Kid,
    keep: bool,
    is_bare: bool,
    lists: &mut HashMap<u32, Names>,
) -> Result<(), AllocError>
    requires { kid.keeper ≢ kid.reader }
    ensures { OnOk result ((n : ℕ) → get nat_eq lists.new n ≡ cond (n == kid.keeper)
        (spec.known is_bare (spec.joined kid.output keep (get nat_eq lists.old kid.keeper)
        (get nat_eq lists.old kid.reader)))
        (cond (n == kid.reader) None (get nat_eq lists.old n))) }
{
    let more = lists.remove(&kid.reader);
    let own = lists.remove(&kid.keeper);
    if !is_bare {
        drop(own);
        drop(more);
        return Ok(());
    }
    if let Some(names) = joined(own, kid.output, keep, more)? {
        lists.insert(kid.keeper, names)?;
    }
    Ok(())
}

fn joined(
    own: Option<Names>,
    output: u32,
    keep: bool,
    more: Option<Names>,
) -> Result<Option<Names>, AllocError>
    ensures { IfOk result (λ o. o ≡ spec.joined output keep own more) }
{
    match (own, more) {
        (Some(own), Some(more)) => {
            let names = own.spliced(output as usize, keep, &more);
            drop(more);
            names
        }
        (own, more) => {
            drop(own);
            drop(more);
            Ok(None)
        }
    }
}

// ---- the names of a forest

/// The names that the steps keep, in preorder.
fn names_of(alloc: Global, steps: &[Step]) -> Result<Vec<u32>, AllocError>
    ensures { IfOk result (λ names. names.items ≡ outs (grown steps.now)) }
{
    let mut names = Vec::new(alloc);
    for step in steps {
        push_step(step, &mut names)?;
    }
    Ok(names)
}

#[cycle(names)]
fn push_step(step: &Step, names: &mut Vec<u32>) -> Result<(), AllocError>
    ensures { OnOk result (names.new.items ≡ names.old.items ++ branch_outs step.now) }
{
    push_output(&step.first, names)?;
    for output in &step.more {
        push_output(output, names)?;
    }
    Ok(())
}

#[cycle(names)]
fn push_output(output: &Output, names: &mut Vec<u32>) -> Result<(), AllocError>
    ensures { OnOk result (names.new.items ≡ names.old.items ++ twig_outs (twig output.now)) }
{
    push_name(output.number, names)?;
    for kid in &output.kids {
        push_step(kid, names)?;
    }
    Ok(())
}

fn push_name(name: Option<u32>, names: &mut Vec<u32>) -> Result<(), AllocError>
    ensures { OnOk result (names.new.items ≡ names.old.items ++ out_list name) }
{
    if let Some(name) = name {
        names.push(name)?;
    }
    Ok(())
}
