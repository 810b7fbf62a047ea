// Why a part refuses, as why a plan from outside is not taken.
ghost use Rattle.std.specs.Prelude.{◌≡◌};
ghost use Rattle.plan_check.specs.Faults.{of_file, of_replay};

use graph_rewriting::ReplayFault;
use plan_faults::{PlanFault, PlanKind};
use plan_files::FileFault;

/// What is wrong with the file.
pub(crate) fn of_file(fault: FileFault) -> PlanFault
    ensures { result ≡ of_file fault }
{
    match fault {
        FileFault::NotJson => PlanFault::Refused {
            step: 0,
            kind: PlanKind::NotJson,
        },
        FileFault::Shape => PlanFault::Refused {
            step: 0,
            kind: PlanKind::Shape,
        },
        FileFault::Memory => PlanFault::Memory,
    }
}

/// Which of its rewrites may not be made.
pub(crate) fn of_replay(fault: ReplayFault) -> PlanFault
    ensures { result ≡ of_replay fault }
{
    match fault {
        ReplayFault::Step(step) => PlanFault::Refused {
            step,
            kind: PlanKind::BadStep,
        },
        ReplayFault::Memory => PlanFault::Memory,
    }
}
