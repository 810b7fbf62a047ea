// A program that is ready to be run.
ghost use Rattle.std.specs.Prelude.{◌≡◌};
ghost use Rattle.build_law.specs.of_graph_build.Graphs.{graph_of};
ghost use Rattle.build_law.specs.of_script_laws.WellFormed.{IsWellFormed};
ghost use Rattle.exec_graph.specs.Wellformed.{IsGraphOk};
ghost use Rattle.script_program.specs.Saved.{with_saved};
ghost use Rattle.script_loading.specs.Ready.{IsReady};

use build_law::graph_law;
use script_program::Program;
use std::marker::Model;

/// A program that is ready to be run, as that of each accepted script is: its script is
/// well-formed, and ready for what is done with it. Contracts see it as the program.
#[derive(Drop)]
pub struct ReadyProgram {
    program: Program,
}

impl Model for ReadyProgram {
    ghost use Rattle.build_law.specs.of_script_laws.WellFormed.{IsWellFormed};
    ghost use Rattle.script_loading.specs.Ready.{IsReady};
    ghost use Rattle.script_program.specs.Program.{Numbered};
    ghost use Rattle.script_program.specs.contracts.program.Program as coded_program;

    ghost Value = { Numbered };

    ghost coded = { coded_program.the_row.coded };

    ghost view = { λ it. it.program };

    ghost invariant = { λ it. IsWellFormed it.program.script × IsReady it.program.script };
}

impl ReadyProgram {
    /// A program whose script is well-formed and ready.
    pub fn new(program: Program) -> ReadyProgram
        requires well_formed { IsWellFormed program.script }
        requires ready { IsReady program.script }
        ensures { result ≡ program }
    {
        ReadyProgram { program }
    }

    /// The program, whose script is well-formed and ready, and its execution graph well-formed.
    pub fn as_program(&self) -> &Program
        ensures is { result.now ≡ self.now }
        ensures well_formed { IsWellFormed result.now.script }
        ensures ready { IsReady result.now.script }
        ensures graph { IsGraphOk (graph_of result.now.script) }
    {
        graph_law();
        &self.program
    }

    /// The same program, in which the collections of these numbers are those that an earlier run
    /// has kept. It takes no memory.
    pub fn with_saved(self, found: &[u32]) -> ReadyProgram
        ensures script { result.script ≡ with_saved found.now self.script }
        ensures known { result.known ≡ self.known }
    {
        let ReadyProgram { program } = self;
        let later = program.with_saved(found);
        ReadyProgram { program: later }
    }

    /// Lets the program go, all of its functions and collections.
    pub fn let_go(self) {
        drop(self);
    }
}
