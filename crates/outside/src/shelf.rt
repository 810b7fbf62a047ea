// What is asked of files to write, one at a time.
ghost use Rattle.std.specs.Prelude.{◌≡◌, ◌≤◌, ◌<◌, List, [], ℕ, false, length, take, is_ok, if◌then◌else◌, IsTrue, IfSome, OnOk, OnErr, IfOk};
ghost use Rattle.std.specs.Option.{option_map};
ghost use Rattle.outside.specs.Begun.{left_at_begin};
ghost use Rattle.outside.specs.Cause.{HasStrictCause};
ghost use Rattle.outside.specs.Files.{with_file, with_piece};
ghost use Rattle.outside.specs.Seen.{SeenShelf};

use crate::Failed;

/// Files to write, one at a time.
///
/// A call that fails changes no file that is told.
pub trait Shelf {
    /// The files, where the shelf tells them, whether one is begun, how many were left begun, since
    /// another `begin` came before their end, and how often the shelf has failed. No count falls.
    ghost seen: { Self → SeenShelf };

    /// The name of the begun file. It has a meaning where files are told.
    ghost begun_name: { Self → List ℕ };

    /// Begins a file: an empty one takes the place of the file of that name, or stands behind the
    /// others.
    ///
    /// Failed comes only where the count rose; then no file is begun.
    fn begin(&mut self, name: &str) -> Result<(), Failed>
        ensures files { (seen self.new).files ≡
            (if is_ok result
            then option_map (λ files. with_file files name.now []) (seen self.old).files
            else (seen self.old).files) }
        ensures begun { (seen self.new).begun ≡ is_ok result }
        ensures name { IfSome (seen self.old).files
            (λ _. OnOk result (begun_name self.new ≡ name.now)) }
        ensures left { (seen self.new).left ≡ left_at_begin (seen self.old).begun
            (seen self.old).left }
        ensures cause { HasStrictCause (seen self.old).faults (seen self.new).faults result };

    /// Adds the first bytes of a piece to the begun file, and says how many: at least one, where
    /// there is one.
    ///
    /// Failed comes only where the count rose; the file stays begun.
    fn write(&mut self, piece: &[u8]) -> Result<usize, Failed>
        requires { IsTrue (seen self.old).begun }
        ensures ok { IfOk result (λ n. (seen self.new).files ≡
            option_map (λ files. with_piece files (begun_name self.old) (take n piece.now))
            (seen self.old).files) }
        ensures err { OnErr result ((seen self.new).files ≡ (seen self.old).files) }
        ensures begun { IsTrue (seen self.new).begun }
        ensures name { begun_name self.new ≡ begun_name self.old }
        ensures left { (seen self.new).left ≡ (seen self.old).left }
        ensures bound { IfOk result (λ n. n ≤ length piece.now) }
        ensures some { IfOk result (λ n. 0 < length piece.now → 0 < n) }
        ensures cause { HasStrictCause (seen self.old).faults (seen self.new).faults result };

    /// Ends the begun file, also where it fails.
    ///
    /// Failed comes only where the count rose.
    fn end(&mut self) -> Result<(), Failed>
        requires { IsTrue (seen self.old).begun }
        ensures files { (seen self.new).files ≡ (seen self.old).files }
        ensures begun { (seen self.new).begun ≡ false }
        ensures left { (seen self.new).left ≡ (seen self.old).left }
        ensures cause { HasStrictCause (seen self.old).faults (seen self.new).faults result };
}
