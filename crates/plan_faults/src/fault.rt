// What is wrong with a file of a plan, and where.
use std::alloc::AllocError;

/// What is wrong with a file of a plan. The earlier kind here comes first.
#[derive(Clone, Copy, PartialEq, Eq, Drop)]
pub enum PlanKind {
    /// Its bytes are no JSON.
    NotJson,
    /// It is JSON of another form.
    Shape,
    /// A rewrite may not be made where those before it lead.
    BadStep,
    /// The rewrites lead to another plan.
    Differs,
}

/// Why a plan from outside is not taken.
#[derive(Clone, Copy, PartialEq, Eq, Drop)]
pub enum PlanFault {
    /// It is refused at a step: 0 before the rewrites, the number of a rewrite from 1 on, and one
    /// more than their number behind them.
    Refused { step: u32, kind: PlanKind },
    /// Want of memory.
    Memory,
}

impl From<AllocError> for PlanFault {
    ghost use Rattle.std.specs.Prelude.{◌≡◌};
    ghost use Rattle.plan_faults.specs.declared.fault.PlanFault.TheVariants.{Memory};

    ghost from_gives = { λ _ e. e ≡ Memory };

    fn from(_e: AllocError) -> PlanFault {
        PlanFault::Memory
    }
}
