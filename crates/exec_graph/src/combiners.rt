// The combiner of a forest's only root.
ghost use Rattle.std.specs.Prelude.{◌≡◌};
ghost use Rattle.exec_graph.specs.Wellformed.{comb_of, root_comb};
ghost use Rattle.exec_graph.specs.Forests.{Bare, limb};

use crate::step::{Does, Roots, Step};
use combine_table::Comb;

/// The combiner of a forest whose one root combines.
#[tactic(auto, using(crate::proofs::Rooted::not_one))]
pub fn root_comb(roots: &Roots) -> Option<Comb>
    ensures { result ≡ root_comb roots.now }
{
    let steps = roots.steps();
    if steps.len() != 1 {
        return None;
    }
    only_comb(&steps[0])
}

/// The combiner of a step that combines and has one output.
fn only_comb(step: &Step) -> Option<Comb>
    ensures { result ≡ root_comb (limb step.now Bare) }
{
    if !step.more.is_empty() {
        return None;
    }
    comb_of(step.does)
}

fn comb_of(does: Does) -> Option<Comb>
    ensures { result ≡ comb_of does }
{
    match does {
        Does::Combine(comb) => Some(comb),
        _ => None,
    }
}
