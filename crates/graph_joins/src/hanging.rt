// Steps on an output on which there are none, by the way to it.
ghost use Rattle.std.specs.Prelude.{◌≡◌, ℕ, false, IfOk, map, true};
ghost use Rattle.exec_graph.specs.Forests.{Branch, Forest, Grow, grown, label_at, limb, twigs};
ghost use Rattle.exec_graph.specs.Twigs.{twig};
ghost use Rattle.graph_joins.specs.inner.Hangs.{Hangs};

use crate::ways::Turn;
use exec_graph::{Output, Step};
use graph_walks::{is_out, kept_out};
use std::alloc::AllocError;

/// An output, and whether it is kept once steps are on it.
#[derive(Clone, Copy, Drop)]
pub(crate) struct Peg {
    pub(crate) output: u32,
    pub(crate) keep: bool,
}

/// Puts the others on the output, if the last turns of the way that are left lead to it and nothing
/// is on it. Tells whether it did.
#[cycle(hang)]
pub(crate) fn hang(
    steps: &mut Vec<Step>,
    way: &[Turn],
    rest: usize,
    peg: Peg,
    others: &mut Vec<Step>,
) -> Result<bool, AllocError>
    ensures hangs { IfOk result (λ b. b ≡ true →
        Hangs peg.output peg.keep (grown others.old.items) (grown steps.old.items)
        (grown steps.new.items)) }
    ensures steps { IfOk result (λ b. b ≡ false → steps.new.items ≡ steps.old.items) }
    ensures others { IfOk result (λ b. b ≡ false → others.new.items ≡ others.old.items) }
{
    if rest == 0 || rest > way.len() {
        return Ok(false);
    }
    let next = rest - 1;
    let turn = way[next];
    if turn.step >= steps.len() {
        return Ok(false);
    }
    let hung = hang_step(&mut steps[turn.step], turn.output, way, next, peg, others)?;
    Ok(hung)
}

#[cycle(hang)]
fn hang_step(
    step: &mut Step,
    index: usize,
    way: &[Turn],
    rest: usize,
    peg: Peg,
    others: &mut Vec<Step>,
) -> Result<bool, AllocError>
    ensures hangs { IfOk result (λ b. b ≡ true → (f : Forest) →
        Hangs peg.output peg.keep (grown others.old.items) (limb step.old f) (limb step.new f)) }
    ensures step { IfOk result (λ b. b ≡ false → step.new ≡ step.old) }
    ensures others { IfOk result (λ b. b ≡ false → others.new.items ≡ others.old.items) }
{
    if index == 0 {
        let hung = hang_output(&mut step.first, way, rest, peg, others)?;
        return Ok(hung);
    }
    let hung = hang_outputs(&mut step.more, index - 1, way, rest, peg, others)?;
    Ok(hung)
}

#[cycle(hang)]
fn hang_outputs(
    outputs: &mut Vec<Output>,
    index: usize,
    way: &[Turn],
    rest: usize,
    peg: Peg,
    others: &mut Vec<Step>,
) -> Result<bool, AllocError>
    ensures hangs { IfOk result (λ b. b ≡ true → (s : Branch) (n : ℕ) (f : Forest) →
        Hangs peg.output peg.keep (grown others.old.items)
        (twigs s n (map twig outputs.old.items) f) (twigs s n (map twig outputs.new.items) f)) }
    ensures outputs { IfOk result (λ b. b ≡ false →
        map twig outputs.new.items ≡ map twig outputs.old.items) }
    ensures others { IfOk result (λ b. b ≡ false → others.new.items ≡ others.old.items) }
{
    if index >= outputs.len() {
        return Ok(false);
    }
    let hung = hang_output(&mut outputs[index], way, rest, peg, others)?;
    Ok(hung)
}

#[cycle(hang)]
fn hang_output(
    one: &mut Output,
    way: &[Turn],
    rest: usize,
    peg: Peg,
    others: &mut Vec<Step>,
) -> Result<bool, AllocError>
    ensures hangs { IfOk result (λ b. b ≡ true → (s : Branch) (n : ℕ) (f : Forest) →
        Hangs peg.output peg.keep (grown others.old.items)
        (Grow (label_at s n (twig one.old)) (twig one.old).kids f)
        (Grow (label_at s n (twig one.new)) (twig one.new).kids f)) }
    ensures one { IfOk result (λ b. b ≡ false → twig one.new ≡ twig one.old) }
    ensures others { IfOk result (λ b. b ≡ false → others.new.items ≡ others.old.items) }
{
    if rest == 0 {
        if !is_out(one.number, peg.output) {
            return Ok(false);
        }
        if !one.kids.is_empty() {
            return Ok(false);
        }
        one.number = kept_out(one.number, peg.keep);
        one.kids.append(others)?;
        return Ok(true);
    }
    let hung = hang(&mut one.kids, way, rest, peg, others)?;
    Ok(hung)
}
