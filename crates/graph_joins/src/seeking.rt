// The output of a number among those that steps keep.
ghost use Rattle.std.specs.Prelude.{◌≡◌, map, Some};
ghost use Rattle.exec_graph.specs.Forests.{grown};
ghost use Rattle.exec_graph.specs.Twigs.{twig};
ghost use Rattle.graph_walks.specs.Outs.{out_list, outs};
ghost use Rattle.graph_walks.specs.inner.Numbering.{branch_outs, branches_outs, twig_outs, twigs_outs};
ghost use Rattle.graph_joins.specs.inner.Seeks as spec;

use exec_graph::{Output, Step};

/// What a walk over outputs in preorder comes to.
#[derive(Clone, Copy, Drop)]
pub(crate) enum Sought {
    /// The output of that number.
    Found(u32),
    /// It is behind all of these: so many are to be passed still.
    Behind(u32),
}

/// Whether the output of that number, of those that the steps keep, is the one of that name.
pub(crate) fn is_output(steps: &[Step], number: u32, name: u32) -> bool
    ensures { result ≡ spec.is_kth (outs (grown steps.now)) number name }
{
    match seek_steps(steps, number) {
        Sought::Found(found) => found == name,
        Sought::Behind(_) => false,
    }
}

#[cycle(seek)]
fn seek_steps(steps: &[Step], number: u32) -> Sought
    ensures { result ≡ spec.seek (branches_outs steps.now) number }
{
    let mut rest = number;
    for step in steps {
        match seek_step(step, rest) {
            Sought::Found(name) => return Sought::Found(name),
            Sought::Behind(left) => rest = left,
        }
    }
    Sought::Behind(rest)
}

#[cycle(seek)]
fn seek_step(step: &Step, number: u32) -> Sought
    ensures { result ≡ spec.seek (branch_outs step.now) number }
{
    match seek_output(&step.first, number) {
        Sought::Found(name) => Sought::Found(name),
        Sought::Behind(left) => seek_outputs(step.more.as_slice(), left),
    }
}

#[cycle(seek)]
fn seek_outputs(outputs: &[Output], number: u32) -> Sought
    ensures { result ≡ spec.seek (twigs_outs (map twig outputs.now)) number }
{
    let mut rest = number;
    for output in outputs {
        match seek_output(output, rest) {
            Sought::Found(name) => return Sought::Found(name),
            Sought::Behind(left) => rest = left,
        }
    }
    Sought::Behind(rest)
}

#[cycle(seek)]
fn seek_output(output: &Output, number: u32) -> Sought
    ensures { result ≡ spec.seek (twig_outs (twig output.now)) number }
{
    match seek_out(output.number, number) {
        Sought::Found(name) => Sought::Found(name),
        Sought::Behind(left) => seek_steps(output.kids.as_slice(), left),
    }
}

fn seek_out(out: Option<u32>, number: u32) -> Sought
    ensures { result ≡ spec.seek (out_list out) number }
{
    match out {
        Some(name) => seek_name(name, number),
        None => Sought::Behind(number),
    }
}

fn seek_name(name: u32, number: u32) -> Sought
    ensures { result ≡ spec.seek (out_list (Some name)) number }
{
    if number == 0 {
        Sought::Found(name)
    } else {
        Sought::Behind(number - 1)
    }
}
