// Names that are told one by one.
ghost use Rattle.std.specs.Prelude.{◌≡◌, [], slice_get, unwrap_or};
ghost use Rattle.std.specs.Option.{option_map};

use combine_table::Comb;
use exec_graph::Does;
use plan_writing::Names;
use std::alloc::AllocError;

/// An output, by the name of its collection and its file.
#[derive(Clone, Copy, Drop)]
pub struct Written {
    pub name: &'static [u8],
    pub file: &'static [u8],
}

/// The names that a plan prints.
#[derive(Drop)]
pub struct Called {
    /// The steps, by the numbers of their script nodes.
    pub steps: &'static [&'static [u8]],
    /// The script nodes.
    pub nodes: &'static [&'static [u8]],
    /// The combiner of the channels that are lifted.
    pub combiner: &'static [u8],
    pub outputs: &'static [Written],
}

/// The text of a number, or no byte.
fn text_at(texts: &'static [&'static [u8]], number: u32) -> &'static [u8]
    ensures { result.now
        ≡ unwrap_or (option_map (λ text. text.now) (slice_get texts.now number)) [] }
{
    match texts.get(number as usize) {
        Some(text) => text,
        None => b"",
    }
}

impl Names for Called {
    ghost use Rattle.std.specs.Prelude.{[], map, slice_get, unwrap_or};
    ghost use Rattle.std.specs.Option.{option_map};

    ghost naming = { λ called. record {
      step = λ origin does.
          unwrap_or (option_map (λ text. text.now) (slice_get called.steps.now origin)) [];
      node = λ origin.
          unwrap_or (option_map (λ text. text.now) (slice_get called.nodes.now origin)) [];
      combiner = λ combiner. called.combiner.now;
      outputs = map (λ output. record { name = output.name.now; file = output.file.now })
          called.outputs.now;
    } };

    fn push_step(&self, text: &mut Vec<u8>, origin: u32, _does: Does) -> Result<(), AllocError> {
        text.extend_from_slice(text_at(self.steps, origin))
    }

    fn push_node(&self, text: &mut Vec<u8>, origin: u32) -> Result<(), AllocError> {
        text.extend_from_slice(text_at(self.nodes, origin))
    }

    fn push_combiner(&self, text: &mut Vec<u8>, _combiner: Comb) -> Result<(), AllocError> {
        text.extend_from_slice(self.combiner)
    }

    fn output_count(&self) -> usize {
        self.outputs.len()
    }

    fn output_name(&self, number: usize) -> &[u8] {
        self.outputs[number].name
    }

    fn output_file(&self, number: usize) -> &[u8] {
        self.outputs[number].file
    }
}
