// A screen over a writer of the system.
ghost use Rattle.std.specs.Prelude.{◌≡◌, None};

use crate::faults::{FaultCount, write_some};
use outside::{Failed, Screen};
use std::io::Write;
use std::marker::Model;

/// A text that is written to the system, as the standard output. It tells nothing of what it holds.
#[derive(Drop)]
pub struct OutputScreen<W: Write + Drop> {
    out: W,
    faults: FaultCount,
}

// What is seen of it is how often it has failed.
impl<W: Write + Drop> Model for OutputScreen<W> {
    ghost use Rattle.std.specs.Prelude.{ℕ};

    ghost Value = { ℕ };

    ghost view = { λ screen. screen.faults.count };
}

impl<W: Write + Drop> OutputScreen<W> {
    /// A screen over a writer, which has not failed.
    pub fn new(out: W) -> Self
        ensures { result ≡ 0 }
    {
        OutputScreen {
            out,
            faults: FaultCount::new(),
        }
    }
}

impl<W: Write + Drop> Screen for OutputScreen<W> {
    ghost seen = { λ faults. record { text = None; faults = faults } };

    /// Writes a piece and flushes it, so that nothing is kept back when the program ends.
    fn write(&mut self, piece: &[u8]) -> Result<usize, Failed> {
        if let Some(count) = write_some(&mut self.out, piece) {
            self.faults.told(self.out.flush())?;
            return Ok(count);
        }
        Err(self.faults.raise())
    }
}
