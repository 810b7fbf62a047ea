// Saying whole texts on a screen, by as many writes as it takes.
ghost use Rattle.std.specs.List.{flat_map};
ghost use Rattle.outside.specs.Says.{Says};

use crate::{Failed, Screen};

/// Says pieces of a text, one after the other. It takes no memory.
///
/// Failed comes only where the screen's count rose; then a front of the text stands behind what was
/// there.
pub fn say_all<P: Screen>(screen: &mut P, pieces: &[&[u8]]) -> Result<(), Failed>
    ensures { Says (flat_map (λ piece. piece.now) pieces.now)
        (P.seen screen.old) (P.seen screen.new) result }
{
    for piece in pieces {
        say(screen, piece)?;
    }
    Ok(())
}

/// Says a text. It takes no memory.
///
/// Failed comes only where the screen's count rose; then a front of the text stands behind what was
/// there.
pub fn say<P: Screen>(screen: &mut P, text: &[u8]) -> Result<(), Failed>
    ensures { Says text.now (P.seen screen.old) (P.seen screen.new) result }
{
    let mut done = 0;
    while done < text.len() {
        done += screen.write(&text[done..])?;
    }
    Ok(())
}
