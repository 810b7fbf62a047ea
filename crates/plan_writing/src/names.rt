// What the numbers of a plan are called, as whoever writes it tells.
ghost use Rattle.std.specs.Prelude.{◌≡◌, ◌++◌, ◌<◌, OnOk, Some, length, slice_get};
ghost use Rattle.std.specs.Option.{option_map};
ghost use Rattle.plan_writing.specs.Naming.{Naming};

use combine_table::Comb;
use exec_graph::Does;
use std::alloc::AllocError;

/// What the numbers of a plan are called.
pub trait Names {
    /// All that they are called.
    ghost naming: { Self → Naming };

    /// Adds what a step does for the script node `origin`.
    fn push_step(&self, text: &mut Vec<u8>, origin: u32, does: Does) -> Result<(), AllocError>
        ensures { OnOk result (text.new.items
            ≡ text.old.items ++ (naming self.now).step origin does) };

    /// Adds the name of a script node.
    fn push_node(&self, text: &mut Vec<u8>, origin: u32) -> Result<(), AllocError>
        ensures { OnOk result (text.new.items
            ≡ text.old.items ++ (naming self.now).node origin) };

    /// Adds the name of a combiner.
    fn push_combiner(&self, text: &mut Vec<u8>, combiner: Comb) -> Result<(), AllocError>
        ensures { OnOk result (text.new.items
            ≡ text.old.items ++ (naming self.now).combiner combiner) };

    /// How many outputs the script has.
    fn output_count(&self) -> usize
        ensures { result ≡ length (naming self.now).outputs };

    /// The name of the collection that the output of a number writes.
    fn output_name(&self, number: usize) -> &[u8]
        requires { number < length (naming self.now).outputs }
        ensures { option_map (λ output. output.name) (slice_get (naming self.now).outputs number)
            ≡ Some result.now };

    /// The file of the output of a number.
    fn output_file(&self, number: usize) -> &[u8]
        requires { number < length (naming self.now).outputs }
        ensures { option_map (λ output. output.file) (slice_get (naming self.now).outputs number)
            ≡ Some result.now };
}
