// What is asked of files to read, one at a time, and how it fails.
ghost use Rattle.std.specs.Prelude.{◌≡◌, ◌≤◌, ◌<◌, ◌↔◌, ◌++◌, List, [], ◌∷◌, None, Some, ℕ, Bool, length, take, is_ok, IsTrue, IfOk, OnOk, IfSome, IsErrOf};
ghost use Rattle.outside.specs.Cause.{HasCause, HasBeginCause};
ghost use Rattle.outside.specs.Files.{bytes_of};
ghost use Rattle.outside.specs.Seen.{SeenSource};
ghost use Rattle.outside.specs.Told.{WhileTold};

/// Why a source did not begin a file.
#[derive(Clone, Copy)]
pub enum BeginFault {
    /// The source has no file of that name.
    Missing,
    /// The source failed, and counted the failure.
    Failed,
}

/// A call of a source, a shelf or a screen failed, and the failure was counted.
#[derive(Clone, Copy, Debug, PartialEq, Eq)]
pub struct Failed;

/// Files to read, one at a time, each from its first byte.
///
/// A source gives the same bytes for a name at every time: where it tells its files, no call
/// changes them.
pub trait Source {
    /// The files and the names of all begins so far, in their order, each where the source tells
    /// them, and how often it has failed. The count never falls.
    ghost seen: { Self → SeenSource };

    /// Whether a file is begun: exactly where the last `begin` went through.
    ghost begun: { Self → Bool };

    /// What is left to read of the begun file. It has a meaning where files are told.
    ghost rest: { Self → List ℕ };

    /// Begins a file at its first byte. It may be called at any time, and ends the file that was
    /// begun before.
    ///
    /// Missing comes exactly where told files lack the name, and Failed only where the count rose.
    /// A source that tells its begins after the call told them before, and has this one behind
    /// them.
    fn begin(&mut self, name: &str) -> Result<(), BeginFault>
        ensures files { (seen self.new).files ≡ (seen self.old).files }
        ensures asked { WhileTold (seen self.old).asked (seen self.new).asked
            (λ old new. new ≡ old ++ name.now ∷ []) }
        ensures begun { begun self.new ≡ is_ok result }
        ensures missing { IfSome (seen self.old).files (λ files.
            IsErrOf result BeginFault.Missing ↔ (bytes_of files name.now ≡ None)) }
        ensures rest { IfSome (seen self.old).files (λ files.
            OnOk result (bytes_of files name.now ≡ Some (rest self.new))) }
        ensures cause { HasBeginCause (seen self.old).faults (seen self.new).faults result };

    /// Reads the next bytes of the begun file into the front of the buffer, and says how many: 0
    /// exactly at the end.
    ///
    /// Failed comes only where the count rose; of what is left to read nothing is said then.
    fn read(&mut self, buf: &mut [u8]) -> Result<usize, Failed>
        requires begun { IsTrue (begun self.old) }
        requires room { 0 < length buf.old }
        ensures files { (seen self.new).files ≡ (seen self.old).files }
        ensures asked { (seen self.new).asked ≡ (seen self.old).asked }
        ensures begun { IsTrue (begun self.new) }
        ensures bound { IfOk result (λ n. n ≤ length buf.new) }
        ensures end { IfSome (seen self.old).files (λ _.
            IfOk result (λ n. (n ≡ 0) ↔ (rest self.old ≡ []))) }
        ensures bytes { IfSome (seen self.old).files (λ _.
            IfOk result (λ n. rest self.old ≡ take n buf.new ++ rest self.new)) }
        ensures cause { HasCause (seen self.old).faults (seen self.new).faults result };
}
