// What is asked of a worker's machine, and the real one, which is never down.
ghost use Rattle.std.specs.Prelude.{◌≡◌, [], ◌∷◌, OnOk, OnErr};
ghost use Rattle.outside.specs.Accounts.{Account, Gains, calm};
ghost use Rattle.outside.specs.Cause.{HasCause};

/// The half of a stage: first all map tasks, then all reduce tasks.
#[derive(Clone, Copy, PartialEq, Eq)]
pub enum Phase {
    /// The tasks that read the stage's inputs, one a shard.
    Map,
    /// The tasks that take the groups, one a partition.
    Reduce,
}

/// A place in an attempt of a task, at which a host lets it go on or is down.
#[derive(Clone, Copy, PartialEq, Eq)]
pub struct At {
    /// The stage, counted from 1 in the order of the plan.
    pub stage: u32,
    /// The phase of the stage.
    pub phase: Phase,
    /// The task of the phase, counted from 0.
    pub task: u32,
    /// The attempt of the task, counted from 1.
    pub attempt: u32,
    /// 0 at the attempt's start, k before its k-th element: a map task's are those of its shard, a
    /// reduce task's the groups of its partition.
    pub place: u64,
}

/// The host is down, it has counted the loss, and the attempt is lost.
#[derive(Clone, Copy)]
pub struct Down;

/// A worker's machine, which lets each attempt go on from place to place, or is down. Whoever lends
/// hosts to workers in threads of their own asks for `Host + Send`.
pub trait Host {
    /// How often the host has been down, and while it tells more, what it let through and what it
    /// refused.
    ghost account: { Self → Account };

    /// Asks whether the attempt may go on.
    ///
    /// A host that tells after the call told before it, and has noted this place: as passed, or
    /// where it is down among its downs. Down comes only where the count rose.
    fn pass(&mut self, at: At) -> Result<(), Down>
        ensures through { OnOk result (Gains (account self.old) (account self.new) (at ∷ []) []) }
        ensures refused { OnErr result (Gains (account self.old) (account self.new) [] (at ∷ [])) }
        ensures cause { HasCause (account self.old).losses (account self.new).losses result };
}

/// The real host: it is never down, has no loss and tells nothing.
#[derive(Clone, Copy, Drop)]
pub struct CalmHost;

impl Host for CalmHost {
    ghost account = { λ _. calm };

    fn pass(&mut self, _at: At) -> Result<(), Down> {
        Ok(())
    }
}
