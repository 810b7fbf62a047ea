// Why a script is refused, and where the parser stops.
ghost use Rattle.std.specs.Prelude.{◌≡◌};

use flume_tokens::{Refusal, TokenFault};
use std::alloc::AllocError;
use thiserror::Error;

/// Why a script is refused, by the parser or by the checker.
#[derive(Clone, Copy, PartialEq, Eq, Debug)]
pub enum ScriptKind {
    Utf8,
    Token,
    Syntax,
    TooDeep,
    TooLong,
    TooMany,
    Unknown,
    Twice,
    Mistyped,
    NotTable,
    NotFlat,
    NoOutput,
    BadNumber,
}

/// The first fault of a script, with its line; or memory ran out.
#[derive(Debug, Drop, Error)]
pub enum ScriptFault {
    #[error("line {line}: {kind:?}")]
    Refused { line: u32, kind: ScriptKind },
    #[error("out of memory")]
    Memory,
}

impl From<AllocError> for ScriptFault {
    ghost use Rattle.std.specs.Prelude.{◌≡◌};
    ghost use Rattle.flume_grammar.specs.declared.fault.ScriptFault.TheVariants.{Memory};

    ghost from_gives = { λ _ e. e ≡ Memory };

    fn from(_: AllocError) -> ScriptFault {
        ScriptFault::Memory
    }
}

/// Where the parser stops: at the token on this line, or at the end of the tokens.
#[derive(Drop)]
pub enum Stop {
    Fault { line: Option<u32>, kind: ScriptKind },
    Memory,
}

impl From<AllocError> for Stop {
    ghost use Rattle.std.specs.Prelude.{◌≡◌};
    ghost use Rattle.flume_grammar.specs.declared.fault.Stop.TheVariants.{Memory};

    ghost from_gives = { λ _ e. e ≡ Memory };

    fn from(_: AllocError) -> Stop {
        Stop::Memory
    }
}
