// How a phase is run.
ghost use Rattle.std.specs.Prelude.{◌≡◌, ℕ};
ghost use Rattle.crew.specs.Drills.{attempt_at, attempt_in, is_drilled};

use crate::attempts::Spot;
use crate::drill::{Drill, Entry};
use outside::Phase;
use std::marker::Model;

/// Which phase of which stage is run, how often each task is tried, and which attempts are lost on
/// purpose. Contracts see all of it.
#[derive(Drop)]
pub struct PhaseSettings<'a> {
    stage: u32,
    phase: Phase,
    tries: u32,
    drill: &'a Drill,
}

impl<'a> Model for PhaseSettings<'a> {
    ghost use Rattle.crew.specs.Drills.{Settings};

    ghost Value = { Settings };

    ghost view = { λ s. record {
      stage = s.stage;
      phase = s.phase;
      tries = s.tries;
      drill = s.drill.now;
    } };
}

impl<'a> PhaseSettings<'a> {
    /// A phase of the stage `stage`, with so many tries for each task.
    pub fn new(stage: u32, phase: Phase, tries: u32, drill: &'a Drill) -> PhaseSettings<'a>
        ensures { result
            ≡ record { stage = stage; phase = phase; tries = tries; drill = drill.now } }
    {
        PhaseSettings {
            stage,
            phase,
            tries,
            drill,
        }
    }

    /// The stage, counted from 1 in the order of the plan.
    pub fn stage(&self) -> u32
        ensures { result ≡ self.now.stage }
    {
        self.stage
    }

    /// The phase of the stage.
    pub fn phase(&self) -> Phase
        ensures { result ≡ self.now.phase }
    {
        self.phase
    }

    /// How often a task is tried at most.
    pub fn tries(&self) -> u32
        ensures { result ≡ self.now.tries }
    {
        self.tries
    }

    // The spot of an attempt.
    pub(crate) fn spot(&self, attempt: u32) -> Spot
        ensures { (task : ℕ) → attempt_at result task ≡ attempt_in self.now task attempt }
    {
        Spot {
            stage: self.stage,
            phase: self.phase,
            attempt,
        }
    }

    // Whether the drill names an attempt.
    pub(crate) fn is_drilled(&self, task: u32, attempt: u32) -> bool
        ensures { result ≡ is_drilled self.now.drill (attempt_in self.now task attempt) }
    {
        self.drill
            .names(Entry::new(self.stage, self.phase, task, attempt))
    }
}
