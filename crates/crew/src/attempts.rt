// An attempt, and how its host is asked.
ghost use Rattle.std.specs.Prelude.{◌≡◌, ◌+◌, [], ◌∷◌, OnOk, OnErr};
ghost use Rattle.outside.specs.Cause.{RoseBy};
ghost use Rattle.outside.specs.Accounts.{Gains};
ghost use Rattle.crew.specs.Hosts.{at_place};
ghost use Rattle.crew.specs.Drills.{attempt_at};

use outside::{At, Down, Host, Phase};

/// What came of an attempt.
#[derive(Drop)]
pub enum Attempt<O> {
    /// It came to its end, with this out.
    Made(O),
    /// Its host was down.
    Down,
}

/// Which attempt it is, and in which phase of which stage.
#[derive(Clone, Copy)]
pub struct Spot {
    /// The stage, counted from 1 in the order of the plan.
    pub stage: u32,
    /// The phase of the stage.
    pub phase: Phase,
    /// The attempt, counted from 1.
    pub attempt: u32,
}

impl Spot {
    /// Asks the host whether this attempt of the task may go on from the place `place`.
    pub fn ask<H: Host>(&self, host: &mut H, task: u32, place: u64) -> Result<(), Down>
        ensures through { OnOk result (Gains (H.account host.old) (H.account host.new)
            (at_place (attempt_at self.now task) place ∷ []) []) }
        ensures down { OnErr result (Gains (H.account host.old) (H.account host.new) []
            (at_place (attempt_at self.now task) place ∷ []) × RoseBy 1 (H.account host.old).losses
            (H.account host.new).losses) }
    {
        host.pass(At {
            stage: self.stage,
            phase: self.phase,
            task,
            attempt: self.attempt,
            place,
        })
    }
}
