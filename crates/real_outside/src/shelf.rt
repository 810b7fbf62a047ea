// A shelf over the files of the system, to write.
ghost use Rattle.std.specs.Prelude.{◌≡◌, None, [], false};

use crate::faults::{FaultCount, write_some};
use outside::{Failed, Shelf};
use std::fs;
use std::io::Write;
use std::marker::Model;
use std::mem::replace;
use std::rt::Files;

/// The files of the system, to write. It tells nothing of what they hold.
#[derive(Drop)]
pub struct FileShelf<'a, R: Files> {
    system: &'a R,
    begun: Option<R::File>,
    left: u64,
    faults: FaultCount,
}

impl<'a, R: Files> Model for FileShelf<'a, R> {
    ghost use Rattle.std.specs.Prelude.{is_some};
    ghost use Rattle.real_outside.specs.Standing.{StandingShelf};

    ghost Value = { StandingShelf };

    ghost view = { λ shelf.
        record { begun = is_some shelf.begun; left = shelf.left; faults = shelf.faults.count } };
}

impl<'a, R: Files> FileShelf<'a, R> {
    /// A shelf with no file begun and none left begun, which has not failed.
    pub fn new(system: &'a R) -> Self
        ensures { result ≡ record { begun = false; left = 0; faults = 0 } }
    {
        FileShelf {
            system,
            begun: None,
            left: 0,
            faults: FaultCount::new(),
        }
    }
}

impl<R: Files> Shelf for FileShelf<'_, R> {
    ghost seen = { λ shelf. record {
      files = None;
      begun = shelf.begun;
      left = shelf.left;
      faults = shelf.faults;
    } };

    ghost begun_name = { λ _. [] };

    /// Makes an empty file, or empties the one that is there.
    fn begin(&mut self, name: &str) -> Result<(), Failed> {
        let former = self.begun.take();
        if former.is_some() {
            self.left = self.left.saturating_add(1);
        }
        drop(former);
        let file = self.faults.told(fs::create(self.system, name))?;
        drop(replace(&mut self.begun, Some(file)));
        Ok(())
    }

    fn write(&mut self, piece: &[u8]) -> Result<usize, Failed> {
        if let Some(file) = &mut self.begun {
            if let Some(count) = write_some(file, piece) {
                return Ok(count);
            }
        }
        Err(self.faults.raise())
    }

    /// Closes the file. The system keeps no part of it back in this program, so what a close itself
    /// would tell is not asked for.
    fn end(&mut self) -> Result<(), Failed> {
        match self.begun.take() {
            Some(mut file) => self.faults.told(file.flush()),
            None => Err(self.faults.raise()),
        }
    }
}
