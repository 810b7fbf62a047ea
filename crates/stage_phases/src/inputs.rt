// What a run reads.
ghost use Rattle.std.specs.Prelude.{◌≡◌, ◌<◌, ◌≤◌};

use crew::PhaseSettings;
use forest_steps::Functions;
use outside::Phase;
use run_settings::Settings;

/// What all phases of a run read.
#[derive(Drop)]
pub struct Inputs<'a, F: Functions> {
    /// The functions of the script.
    pub functions: &'a F,
    /// Into how much a stage is cut, and how often a task is tried.
    pub settings: &'a Settings,
}

impl<'a, F: Functions> Inputs<'a, F> {
    ghost use Rattle.stage_phases.specs.inner.Tasks.{phase_settings};

    /// How a phase of stage `stage` is run.
    pub(crate) fn phase(&self, stage: u32, phase: Phase) -> PhaseSettings<'a>
        ensures settings { result ≡ phase_settings stage phase self.now.settings.now }
        ensures tries { (0 < result.tries) × (result.tries ≤ 8) }
    {
        PhaseSettings::new(stage, phase, self.settings.tries(), self.settings.drill())
    }
}
