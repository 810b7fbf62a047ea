// The bytes of a file in pieces, and a reader that lets each of them go once it is read.
ghost use Rattle.std.specs.Prelude.{◌≡◌, ◌++◌, ◌≤◌, [], OnOk, IfOk, length};
ghost use Rattle.std.specs.List.{AllByRecursion};
ghost use Rattle.outside.specs.inner.Pieces.{IsPiece, together};

use crate::fronts::Front;
use flume_value::Pile;
use std::alloc::{AllocError, Global};
use std::io;
use std::io::Read;
use std::marker::Model;
use std::vec::IntoIter;

/// The most bytes of a piece.
pub(crate) const PIECE: usize = 65_536;

/// The bytes of a file, which contracts see as their list. They stand in pieces of 1 to 65,536
/// bytes, so that none of them is in one allocation with all others, and each can go once it is
/// read.
#[derive(Drop)]
pub struct Pieces {
    pieces: Vec<Pile<u8>>,
}

impl Model for Pieces {
    ghost use Rattle.std.specs.Prelude.{List, ℕ};
    ghost use Rattle.std.specs.Coded.{coded_list, coded_ℕ};
    ghost use Rattle.std.specs.List.{AllByRecursion};
    ghost use Rattle.outside.specs.inner.Pieces.{IsPiece, together};

    ghost Value = { List ℕ };

    ghost coded = { coded_list coded_ℕ };

    ghost view = { λ it. together it.pieces.items };

    ghost invariant = { λ it. AllByRecursion IsPiece it.pieces.items };
}

impl Pieces {
    /// No bytes. It takes no memory.
    pub fn new(alloc: Global) -> Pieces
        ensures { result ≡ [] }
    {
        Pieces {
            pieces: Vec::new(alloc),
        }
    }

    /// Adds bytes behind the others: to the last piece where that has room for all of them, else as
    /// a piece of their own.
    pub fn push(&mut self, alloc: Global, bytes: &[u8]) -> Result<(), AllocError>
        requires { length bytes.now ≤ 65536 }
        ensures { OnOk result (self.new ≡ self.old ++ bytes.now) }
    {
        if bytes.is_empty() {
            return Ok(());
        }
        match self.pieces.pop() {
            Some(last) if last.len() + bytes.len() <= PIECE => {
                self.pieces.push(extended(last, bytes)?)?;
            }
            Some(last) => {
                self.pieces.push(last)?;
                self.pieces.push(piece_of(alloc, bytes)?)?;
            }
            None => self.pieces.push(piece_of(alloc, bytes)?)?,
        }
        Ok(())
    }

    /// All bytes in one vector. A piece that stands alone is not copied.
    pub fn into_vec(self, alloc: Global) -> Result<Vec<u8>, AllocError>
        ensures { IfOk result (λ bytes. bytes.items ≡ self) }
    {
        let Pieces { pieces } = self;
        let mut rest = pieces.into_iter();
        match rest.next() {
            Some(first) => with_all(first, rest),
            None => Ok(Vec::new(alloc)),
        }
    }

    /// A reader of the bytes.
    pub fn into_reader(self, alloc: Global) -> PieceReader
        ensures { result ≡ self }
    {
        let Pieces { pieces } = self;
        PieceReader {
            front: Front::new(Pile::new(alloc)),
            rest: pieces.into_iter(),
        }
    }
}

/// What is left to read of the bytes of a file, which contracts see as their list. A piece goes
/// once all of it is read.
#[derive(Drop)]
pub struct PieceReader {
    front: Front,
    rest: IntoIter<Pile<u8>>,
}

impl Model for PieceReader {
    ghost use Rattle.std.specs.Prelude.{List, ℕ, ◌++◌};
    ghost use Rattle.std.specs.Coded.{coded_list, coded_ℕ};
    ghost use Rattle.std.specs.List.{AllByRecursion};
    ghost use Rattle.outside.specs.inner.Pieces.{IsPiece, together};

    ghost Value = { List ℕ };

    ghost coded = { coded_list coded_ℕ };

    ghost view = { λ it. it.front ++ together it.rest.rest.items };

    ghost invariant = { λ it. AllByRecursion IsPiece it.rest.rest.items };
}

impl Read for PieceReader {
    ghost use Rattle.std.specs.Prelude.{Some};

    ghost remaining = { λ it. Some it };

    fn read(&mut self, buf: &mut [u8]) -> io::Result<usize> {
        refill(&mut self.front, &mut self.rest);
        Ok(self.front.read(buf))
    }
}

// Goes on to the next piece, where all of the first is read and there is one.
fn refill(front: &mut Front, rest: &mut IntoIter<Pile<u8>>)
    requires pieces { AllByRecursion IsPiece rest.old.rest.items }
    ensures same { front.new ++ together rest.new.rest.items
        ≡ front.old ++ together rest.old.rest.items }
    ensures some { front.new ≡ [] → together rest.new.rest.items ≡ [] }
    ensures pieces { AllByRecursion IsPiece rest.new.rest.items }
{
    if !front.is_empty() {
        return;
    }
    if let Some(piece) = rest.next() {
        *front = Front::new(piece);
    }
}

// A piece of these bytes.
fn piece_of(alloc: Global, bytes: &[u8]) -> Result<Pile<u8>, AllocError>
    ensures { IfOk result (λ piece. piece ≡ bytes.now) }
{
    Ok(Pile::from_vec(Vec::from_slice(alloc, bytes)?))
}

// The piece with all others behind it.
fn with_all(first: Pile<u8>, rest: IntoIter<Pile<u8>>) -> Result<Vec<u8>, AllocError>
    ensures { IfOk result (λ bytes. bytes.items ≡ first ++ together rest.rest.items) }
{
    let mut all = first.into_vec();
    for piece in rest {
        all.extend_from_slice(piece.as_slice())?;
    }
    Ok(all)
}

// A piece with these bytes behind its own.
fn extended(piece: Pile<u8>, bytes: &[u8]) -> Result<Pile<u8>, AllocError>
    ensures { IfOk result (λ all. all ≡ piece ++ bytes.now) }
{
    let mut all = piece.into_vec();
    all.extend_from_slice(bytes)?;
    Ok(Pile::from_vec(all))
}
