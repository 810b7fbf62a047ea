// Why a script has no tokens, and on which line.
use std::alloc::AllocError;
use thiserror::Error;

/// Why a script has no tokens.
#[derive(Clone, Copy, PartialEq, Eq, Debug)]
pub enum Refusal {
    /// the script is longer than 65,536 bytes, or a word longer than 32
    TooLong,
    /// a byte is not part of UTF-8
    Utf8,
    /// no token begins there, or a text is not closed on its line
    Token,
}

/// The first fault of a script, with its line; or memory ran out.
#[derive(Debug, Drop, Error)]
pub enum TokenFault {
    #[error("line {line}: {kind:?}")]
    Refused { line: u32, kind: Refusal },
    #[error("out of memory")]
    Memory,
}

impl From<AllocError> for TokenFault {
    ghost use Rattle.std.specs.Prelude.{◌≡◌};
    ghost use Rattle.flume_tokens.specs.declared.fault.TokenFault.TheVariants.{Memory};

    ghost from_gives = { λ _ e. e ≡ Memory };

    fn from(_: AllocError) -> TokenFault {
        TokenFault::Memory
    }
}
