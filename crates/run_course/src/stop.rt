// Why a call stops before it writes.
use flume_collection::Trap;
use flume_value::Str;
use run_texts::Status;
use std::alloc::AllocError;

/// A trap, and the name of the collection that its call was to make a part of.
#[derive(Drop)]
pub struct Trapped {
    pub trap: Trap,
    pub name: Str,
}

/// Why a call writes nothing.
#[derive(Drop)]
pub enum Stop {
    Refused(Status),
    Trapped(Trapped),
}

impl From<Status> for Stop {
    ghost use Rattle.std.specs.Prelude.{◌≡◌};
    ghost use Rattle.run_course.specs.declared.stop.Stop.TheVariants.{Refused};

    ghost from_gives = { λ status stop. stop ≡ Refused status };

    fn from(status: Status) -> Stop {
        Stop::Refused(status)
    }
}

impl From<AllocError> for Stop {
    ghost use Rattle.std.specs.Prelude.{◌≡◌};
    ghost use Rattle.run_texts.specs.declared.status.Status.TheVariants.{WantOfMemory};
    ghost use Rattle.run_course.specs.declared.stop.Stop.TheVariants.{Refused};

    ghost from_gives = { λ _ stop. stop ≡ Refused WantOfMemory };

    fn from(_e: AllocError) -> Stop {
        Stop::Refused(Status::WantOfMemory)
    }
}
