// What a file of a plan has.
use flume_value::Pile;
use graph_rewrites::Rewrite;
use std::alloc::AllocError;

/// What a file of a plan has.
#[derive(Drop)]
pub struct PlanFile {
    pub rewrites: Pile<Rewrite>,
    /// The compact text of its plan, if no number stands in that: in the JSON of a plan none does.
    pub plan: Option<Pile<u8>>,
}

/// Why bytes are no file of a plan.
#[derive(Clone, Copy, PartialEq, Eq, Drop)]
pub enum FileFault {
    /// They are no JSON.
    NotJson,
    /// They are JSON of another form.
    Shape,
    /// Want of memory.
    Memory,
}

impl From<AllocError> for FileFault {
    ghost use Rattle.std.specs.Prelude.{◌≡◌};
    ghost use Rattle.plan_files.specs.declared.file.FileFault.TheVariants.{Memory};

    ghost from_gives = { λ _ e. e ≡ Memory };

    fn from(_e: AllocError) -> FileFault {
        FileFault::Memory
    }
}
