// How often the outside has failed, and which answer of the system is a failure.
ghost use Rattle.std.specs.Prelude.{◌≡◌, ◌≤◌, ◌<◌, ◌↔◌, length, take, is_ok, Ok, IfOk, IfErr, IfSome, IsErrOf, IsOk, OnOk, OnErr, if◌then◌else◌};
ghost use Rattle.std.specs.Io.KnownBytes.{Appends};
ghost use Rattle.std.specs.IoError.{error_kind};
ghost use Rattle.outside.specs.Cause.{HasBeginCause, HasStrictCause, raised};
ghost use Rattle.real_outside.specs.Errors as spec;

use outside::{BeginFault, Failed};
use std::io;
use std::io::{ErrorKind, Write};

/// How often something has failed. It stands still at the last number of 64 bits.
#[derive(Clone, Copy)]
pub struct FaultCount {
    pub count: u64,
}

impl FaultCount {
    /// No failure yet.
    pub fn new() -> Self
        ensures { result.count ≡ 0 }
    {
        FaultCount { count: 0 }
    }

    /// Counts a failure, and names it.
    pub fn raise(&mut self) -> Failed
        ensures later { self.old.count ≤ self.new.count }
        ensures counted { self.new.count ≡ raised self.old.count }
    {
        self.count = self.count.saturating_add(1);
        Failed
    }

    /// What the system has answered; an error is counted as a failure.
    pub fn told<T: Drop>(&mut self, answer: io::Result<T>) -> Result<T, Failed>
        ensures same { IfOk result (λ x. answer ≡ Ok x) }
        ensures ok { IsOk result ↔ IsOk answer }
        ensures counted { self.new.count
            ≡ (if is_ok result then self.old.count else raised self.old.count) }
        ensures cause { HasStrictCause self.old.count self.new.count result }
    {
        match answer {
            Ok(x) => Ok(x),
            Err(_) => Err(self.raise()),
        }
    }

    /// What the system has answered to the opening of a file. That no file is there is no failure,
    /// and any other error is.
    pub fn opened<T: Drop>(&mut self, answer: io::Result<T>) -> Result<T, BeginFault>
        ensures same { IfOk result (λ x. answer ≡ Ok x) }
        ensures ok { IsOk result ↔ IsOk answer }
        ensures fault { IfErr result (λ fault.
            IfErr answer (λ e. fault ≡ spec.begin_fault (error_kind e))) }
        ensures failed { IsErrOf result BeginFault.Failed →
            self.new.count ≡ raised self.old.count }
        ensures kept { (IsErrOf result BeginFault.Failed → ⊥) → self.new.count ≡ self.old.count }
        ensures cause { HasBeginCause self.old.count self.new.count result }
    {
        match answer {
            Ok(x) => Ok(x),
            Err(error) => match fault_of(error.kind()) {
                BeginFault::Missing => Err(BeginFault::Missing),
                BeginFault::Failed => {
                    self.raise();
                    Err(BeginFault::Failed)
                }
            },
        }
    }
}

/// Writes the first bytes of a piece, at least one where there is one, and says how many; None
/// where that fails, as where nothing is taken.
pub fn write_some<W: Write>(out: &mut W, piece: &[u8]) -> Option<usize>
    ensures bound { IfSome result (λ n. n ≤ length piece.now) }
    ensures some { IfSome result (λ n. 0 < length piece.now → 0 < n) }
    ensures bytes { IfSome result (λ n.
        Appends (W.contents out.old) (W.contents out.new) (take n piece.now)) }
{
    match out.write(piece) {
        Ok(count) if count > 0 || piece.is_empty() => Some(count),
        _ => None,
    }
}

/// Which answer an error is: no file is there where the last part of the path, or a folder on the
/// way to it, is missing or no folder; any other error is a failure.
fn fault_of(kind: ErrorKind) -> BeginFault
    ensures { result ≡ spec.begin_fault kind }
{
    match kind {
        ErrorKind::NotFound | ErrorKind::NotADirectory => BeginFault::Missing,
        _ => BeginFault::Failed,
    }
}
