// The attempts that a text names.
ghost use Rattle.std.specs.Prelude.{◌≡◌};
ghost use Rattle.drill_text.specs.Drills as spec;

use crate::number::{MOST_NUMBER, number_in, number_up_to};
use crew::Entry;
use outside::Phase;
use run_settings::MOST_TRIES;

/// The attempt that a text names, of a map task or of a reduce task.
pub(crate) fn entry_in(text: &str) -> Option<Entry>
    ensures { result ≡ spec.entry_in text.now }
{
    entry_of(Phase::Map, text).or_else(|| entry_of(Phase::Reduce, text))
}

// The attempt of a task of this phase that a text names.
fn entry_of(phase: Phase, text: &str) -> Option<Entry>
    ensures { result ≡ spec.entry_of phase text.now }
{
    let (stage, behind) = text.split_once(letter_of(phase))?;
    let (task, attempt) = behind.split_once('.')?;
    let stage = number_up_to(MOST_NUMBER, stage)?;
    let task = number_in(task)?;
    let attempt = number_up_to(MOST_TRIES, attempt)?;
    Some(Entry::new(stage, phase, task, attempt))
}

fn letter_of(phase: Phase) -> char
    ensures { result ≡ spec.letter_of phase }
{
    match phase {
        Phase::Map => 'm',
        Phase::Reduce => 'r',
    }
}
