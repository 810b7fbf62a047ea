// The attempts that are to be lost.
ghost use Rattle.std.specs.Prelude.{◌≡◌};
ghost use Rattle.crew.specs.Drills.{is_drilled, names, same_phase};

use flume_value::Pile;
use outside::Phase;
use std::marker::Model;

/// An attempt of a task of a phase of a stage.
#[derive(Clone, Copy)]
pub struct Entry {
    /// The stage, counted from 1 in the order of the plan.
    pub stage: u32,
    /// The phase of the stage.
    pub phase: Phase,
    /// The task of the phase, counted from 0.
    pub task: u32,
    /// The attempt of the task, counted from 1.
    pub attempt: u32,
}

impl Entry {
    /// The attempt `attempt` (counted from 1) of the task `task` (from 0) of that phase of the
    /// stage `stage` (from 1).
    pub fn new(stage: u32, phase: Phase, task: u32, attempt: u32) -> Entry
        ensures { result
            ≡ record { stage = stage; phase = phase; task = task; attempt = attempt } }
    {
        Entry {
            stage,
            phase,
            task,
            attempt,
        }
    }
}

/// A list of attempts that are lost on purpose: after their last element, before their commit.
/// One that names no attempt of the run has no effect. Contracts see the list.
#[derive(Drop)]
pub struct Drill {
    entries: Pile<Entry>,
}

impl Model for Drill {
    ghost use Rattle.std.specs.Prelude.{List};
    ghost use Rattle.crew.specs.declared.drill.Entry.{Entry};

    ghost Value = { List Entry };

    ghost view = { λ d. d.entries };
}

impl Drill {
    /// The drill of these attempts. It takes no memory.
    pub fn new(entries: Pile<Entry>) -> Drill
        ensures { result ≡ entries }
    {
        Drill { entries }
    }

    /// The attempts, in order.
    pub fn entries(&self) -> &[Entry]
        ensures { result.now ≡ self.now }
    {
        self.entries.as_slice()
    }

    /// Whether the drill names this attempt.
    pub fn names(&self, attempt: Entry) -> bool
        ensures { result ≡ is_drilled self.now attempt }
    {
        self.entries
            .as_slice()
            .iter()
            .any(|entry| is_same(entry, &attempt))
    }
}

// Whether the entry names the attempt.
fn is_same(entry: &Entry, attempt: &Entry) -> bool
    ensures { result ≡ names attempt.now entry.now }
{
    (entry.stage == attempt.stage && is_same_phase(entry.phase, attempt.phase))
        && (entry.task == attempt.task && entry.attempt == attempt.attempt)
}

fn is_same_phase(one: Phase, other: Phase) -> bool
    ensures { result ≡ same_phase one other }
{
    match (one, other) {
        (Phase::Map, Phase::Map) | (Phase::Reduce, Phase::Reduce) => true,
        (Phase::Map, Phase::Reduce) | (Phase::Reduce, Phase::Map) => false,
    }
}
