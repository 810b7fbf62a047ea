// What is asked of a text to write to, as a terminal.
ghost use Rattle.std.specs.Prelude.{◌≡◌, ◌≤◌, ◌<◌, ◌++◌, length, take, IfOk, OnErr};
ghost use Rattle.std.specs.Option.{option_map};
ghost use Rattle.outside.specs.Cause.{HasStrictCause};
ghost use Rattle.outside.specs.Seen.{SeenScreen};

use crate::Failed;

/// A text to write to, as a terminal.
pub trait Screen {
    /// The bytes written so far, where the screen tells them, and how often it has failed. The
    /// count never falls.
    ghost seen: { Self → SeenScreen };

    /// Adds the first bytes of a piece to the text, and says how many: at least one, where there is
    /// one.
    ///
    /// Failed comes only where the count rose; the text is as before then.
    fn write(&mut self, piece: &[u8]) -> Result<usize, Failed>
        ensures ok { IfOk result (λ n. (seen self.new).text ≡
            option_map (λ text. text ++ take n piece.now) (seen self.old).text) }
        ensures err { OnErr result ((seen self.new).text ≡ (seen self.old).text) }
        ensures bound { IfOk result (λ n. n ≤ length piece.now) }
        ensures some { IfOk result (λ n. 0 < length piece.now → 0 < n) }
        ensures cause { HasStrictCause (seen self.old).faults (seen self.new).faults result };
}
