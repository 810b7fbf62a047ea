// What a program calls the numbers of its plans.
ghost use Rattle.plan_texts.specs.Texts.{naming_of};

use combine_table::Comb;
use exec_graph::Does;
use graph_print::script_program::Program;
use graph_print::{node_name, push_combiner, push_step};
use plan_writing::Names;
use std::alloc::AllocError;

/// What a program calls the numbers of its plans.
#[derive(Drop)]
pub struct ProgramNames<'a> {
    pub program: &'a Program,
}

impl Names for ProgramNames<'_> {
    ghost naming = { λ names. naming_of names.program.now.script };

    fn push_step(&self, text: &mut Vec<u8>, origin: u32, does: Does) -> Result<(), AllocError> {
        push_step(text, self.program, origin, does)
    }

    fn push_node(&self, text: &mut Vec<u8>, origin: u32) -> Result<(), AllocError> {
        text.extend_from_slice(node_name(self.program, origin as usize))
    }

    fn push_combiner(&self, text: &mut Vec<u8>, combiner: Comb) -> Result<(), AllocError> {
        push_combiner(text, combiner)
    }

    fn output_count(&self) -> usize {
        self.program.output_count()
    }

    fn output_name(&self, number: usize) -> &[u8] {
        self.program.output(number).name.as_bytes()
    }

    fn output_file(&self, number: usize) -> &[u8] {
        self.program.output_file(number).as_bytes()
    }
}
