// Names on a screen, said piece by piece. It takes no memory.
ghost use Rattle.std.specs.Prelude.{◌++◌};
ghost use Rattle.std.specs.List.{flat_map};
ghost use Rattle.outside.specs.Says.{Says};
ghost use Rattle.printing.specs.Printed.{printed_byte, quoted};

use crate::escape::escape_of;
use outside::{Failed, Screen, say, say_all};
use std::slice;

/// Says a name in quotes, behind a text and before others.
pub fn say_named<P: Screen>(
    screen: &mut P,
    before: &[u8],
    name: &[u8],
    behind: &[&[u8]],
) -> Result<(), Failed>
    ensures { Says (before.now ++ (quoted name.now ++ flat_map (λ piece. piece.now) behind.now))
        (P.seen screen.old) (P.seen screen.new) result }
{
    say(screen, before)?;
    say_quoted(screen, name)?;
    say_all(screen, behind)
}

/// Says a name in quotes.
pub(crate) fn say_quoted<P: Screen>(screen: &mut P, name: &[u8]) -> Result<(), Failed>
    ensures { Says (quoted name.now) (P.seen screen.old) (P.seen screen.new) result }
{
    say(screen, b"\"")?;
    say_escaped(screen, name)?;
    say(screen, b"\"")
}

fn say_escaped<P: Screen>(screen: &mut P, name: &[u8]) -> Result<(), Failed>
    ensures { Says (flat_map printed_byte name.now) (P.seen screen.old) (P.seen screen.new) result }
{
    for byte in name {
        say_byte(screen, byte)?;
    }
    Ok(())
}

fn say_byte<P: Screen>(screen: &mut P, byte: &u8) -> Result<(), Failed>
    ensures { Says (printed_byte byte.now) (P.seen screen.old) (P.seen screen.new) result }
{
    match escape_of(*byte) {
        Some(escape) => say(screen, escape),
        None => say(screen, slice::from_ref(byte)),
    }
}
