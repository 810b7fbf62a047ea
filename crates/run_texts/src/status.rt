// How a call ended, and the exit status of that.
ghost use Rattle.std.specs.Prelude.{◌≡◌};
ghost use Rattle.run_texts.specs.Codes.{code_of};

use csv_rows::RowKind;
use flume_grammar::ScriptKind;
use flume_value::{Kind, Str, Value};
use outside::Phase;
use plan_faults::PlanKind;
use std::alloc::AllocError;

/// Where a write failed.
#[derive(Drop)]
pub enum Place {
    /// The output file of this name.
    File(Str),
    Screen,
}

/// How a call of `flume` ended. `Done` alone says that all was written.
#[derive(Drop)]
pub enum Status {
    /// Every output file and the screen's text are written.
    Done,
    /// The words are no command.
    Usage,
    /// The script is not of the language, by the first fault in it.
    ScriptRefused {
        line: u32,
        kind: ScriptKind,
    },
    /// An input file has no rows of its type, by the first fault in it.
    InputRefused {
        name: Str,
        row: u64,
        column: u32,
        kind: RowKind,
    },
    /// A call, a combination or a count has no value, and nothing is written: the number of the
    /// collection that it was to make a part of, in order of the script, and the element: what was
    /// called with, or the key.
    Trap {
        origin: u32,
        kind: Kind,
        element: Value,
    },
    /// The source failed in each load of this file, as often as the command tries one.
    ReadFault {
        name: Str,
    },
    /// The shelf or the screen failed.
    WriteFault {
        place: Place,
    },
    /// No attempt of this task has won, and nothing is written: the task of that phase, counted
    /// from 0, of that stage, counted from 1 in the order of the plan.
    GaveUp {
        stage: u32,
        phase: Phase,
        task: u32,
    },
    /// A growth found no memory.
    WantOfMemory,
    /// The file has more bytes than its limit.
    TooLong {
        name: Str,
        limit: u64,
    },
    /// The source has no file of this name.
    NoFile {
        name: Str,
    },
    /// The file of a plan is not taken, and nothing is written: 0 is the step before its rewrites,
    /// from 1 on there is a step for each of them, and one more is behind them.
    PlanRefused {
        step: u32,
        kind: PlanKind,
    },
}

impl Status {
    /// The exit status of the program.
    pub fn code(&self) -> u8
        ensures { result ≡ code_of self.now }
    {
        match self {
            Status::Done => 0,
            Status::Usage => 2,
            Status::ScriptRefused { .. } => 3,
            Status::InputRefused { .. } => 4,
            Status::Trap { .. } => 5,
            Status::ReadFault { .. } => 6,
            Status::WriteFault { .. } => 7,
            Status::GaveUp { .. } => 8,
            Status::WantOfMemory => 9,
            Status::TooLong { .. } => 10,
            Status::NoFile { .. } => 11,
            Status::PlanRefused { .. } => 12,
        }
    }
}

impl From<AllocError> for Status {
    ghost use Rattle.std.specs.Prelude.{◌≡◌};
    ghost use Rattle.run_texts.specs.declared.status.Status.TheVariants.{WantOfMemory};

    ghost from_gives = { λ _ status. status ≡ WantOfMemory };

    fn from(_e: AllocError) -> Status {
        Status::WantOfMemory
    }
}
