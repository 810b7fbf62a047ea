// A source over the files of the system, to read.
ghost use Rattle.std.specs.Prelude.{◌≡◌, ◌↔◌, None, [], false, IfOk, IsErr, IsTrue};

use crate::faults::FaultCount;
use outside::{BeginFault, Failed, Source};
use std::fs::OpenFile;
use std::io::{ErrorKind, Read};
use std::marker::Model;
use std::mem::replace;
use std::rt::Files;
use std::{fs, io};

/// The files of the system, to read. It tells nothing of what they hold, nor for what it is asked.
#[derive(Drop)]
pub struct FileSource<'a, R: Files> {
    system: &'a R,
    begun: Option<R::File>,
    faults: FaultCount,
}

impl<'a, R: Files> Model for FileSource<'a, R> {
    ghost use Rattle.std.specs.Prelude.{is_some};
    ghost use Rattle.real_outside.specs.Standing.{StandingSource};

    ghost Value = { StandingSource };

    ghost view = { λ source.
        record { begun = is_some source.begun; faults = source.faults.count } };
}

impl<'a, R: Files> FileSource<'a, R> {
    /// A source with no file begun, which has not failed.
    pub fn new(system: &'a R) -> Self
        ensures { result ≡ record { begun = false; faults = 0 } }
    {
        FileSource {
            system,
            begun: None,
            faults: FaultCount::new(),
        }
    }
}

/// Opens a file that has bytes. The system opens a folder too, and refuses only to read it.
pub fn open<R: Files>(system: &R, name: &str) -> io::Result<R::File> {
    let file = fs::open(system, name)?;
    let is_folder = file.metadata()?.is_dir();
    unless_folder(file, is_folder)
}

// What was opened, where it is no folder.
fn unless_folder<T: Drop>(opened: T, is_folder: bool) -> io::Result<T>
    ensures same { IfOk result (λ file. file ≡ opened) }
    ensures folder { IsErr result ↔ IsTrue is_folder }
{
    if is_folder {
        return Err(io::Error::from(ErrorKind::IsADirectory));
    }
    Ok(opened)
}

impl<R: Files> Source for FileSource<'_, R> {
    ghost seen = { λ source. record { files = None; asked = None; faults = source.faults } };

    ghost begun = { λ source. source.begun };

    ghost rest = { λ _. [] };

    /// Opens a file. Missing is a name that isn't there; a folder, and a file that may not be read,
    /// is Failed.
    fn begin(&mut self, name: &str) -> Result<(), BeginFault> {
        drop(self.begun.take());
        let file = self.faults.opened(open(self.system, name))?;
        drop(replace(&mut self.begun, Some(file)));
        Ok(())
    }

    fn read(&mut self, buf: &mut [u8]) -> Result<usize, Failed> {
        match &mut self.begun {
            Some(file) => self.faults.told(file.read(buf)),
            None => Err(self.faults.raise()),
        }
    }
}
