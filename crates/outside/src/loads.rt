// Loading a whole file from a source, up to a limit, again where the source failed.
ghost use Rattle.std.specs.Prelude.{◌≡◌, ◌≤◌, ◌<◌, ◌+◌, ◌↔◌, ◌++◌, ◌∷◌, [], None, ℕ, Some, drop, length, IsTrue, IfOk, OnOk, OnErr, IfSome, IsErrOf, IsSomeAnd};
ghost use Rattle.outside.specs.Asked.{Asks};
ghost use Rattle.outside.specs.Cause.{Rose, RoseBy};
ghost use Rattle.outside.specs.Files.{bytes_of};
ghost use Rattle.outside.specs.Load.{fault_of};
ghost use Rattle.outside.specs.Told.{WhileTold};
ghost use Rattle.outside.specs.declared.loads.LoadFault.TheVariants.{Missing, Failed as LoadFailed, Memory};

use crate::pieces::{PIECE, Pieces};
use crate::{BeginFault, Failed, Source};
use std::alloc::{AllocError, Global};

/// Why a load gave no bytes.
#[derive(Clone, Copy, PartialEq, Eq)]
pub enum LoadFault {
    /// The source has no file of that name.
    Missing,
    /// The source failed, and counted the failure.
    Failed,
    /// The file has more bytes than the limit.
    TooLong,
    /// There was no memory for the bytes.
    Memory,
}

impl From<BeginFault> for LoadFault {
    ghost from_gives = { λ fault e. e ≡ fault_of fault };

    fn from(fault: BeginFault) -> Self {
        match fault {
            BeginFault::Missing => LoadFault::Missing,
            BeginFault::Failed => LoadFault::Failed,
        }
    }
}

impl From<Failed> for LoadFault {
    ghost from_gives = { λ _ e. e ≡ LoadFailed };

    fn from(_: Failed) -> Self {
        LoadFault::Failed
    }
}

impl From<AllocError> for LoadFault {
    ghost from_gives = { λ _ e. e ≡ Memory };

    fn from(_: AllocError) -> Self {
        LoadFault::Memory
    }
}

/// Loads a file, at most `tries` times: again where the source failed.
///
/// Missing and TooLong come as from `load`, and Failed only where the source's count rose by
/// `tries` at least. The source is asked for the file once, and again only where it failed.
pub fn load_tried<S: Source>(
    alloc: Global,
    source: &mut S,
    name: &str,
    limit: u64,
    tries: u32,
) -> Result<Pieces, LoadFault>
    requires tries { 0 < tries }
    ensures files { (S.seen source.new).files ≡ (S.seen source.old).files }
    ensures asked { Asks tries (name.now ∷ []) (S.seen source.old) (S.seen source.new) }
    ensures within { IfOk result (λ bytes. length bytes ≤ limit) }
    ensures bytes { IfSome (S.seen source.old).files (λ files.
        IfOk result (λ bytes. bytes_of files name.now ≡ Some bytes)) }
    ensures missing { IfSome (S.seen source.old).files (λ files.
        IsErrOf result LoadFault.Missing ↔ (bytes_of files name.now ≡ None)) }
    ensures too_long { IfSome (S.seen source.old).files (λ files. IsErrOf result LoadFault.TooLong →
        IsSomeAnd (bytes_of files name.now) (λ bytes. limit < length bytes)) }
    ensures left { IfSome (S.seen source.old).files (λ files. IsErrOf result LoadFault.TooLong →
        IfSome (bytes_of files name.now) (λ bytes. S.rest source.new ≡ drop (limit + 1) bytes)) }
    ensures later { (S.seen source.old).faults ≤ (S.seen source.new).faults }
    ensures failed { IsErrOf result LoadFault.Failed →
        RoseBy tries (S.seen source.old).faults (S.seen source.new).faults }
{
    for _turn in 0..tries {
        match load(alloc, source, name, limit) {
            Err(LoadFault::Failed) => {}
            answer => return answer,
        }
    }
    Err(LoadFault::Failed)
}

/// Loads a file: to its end, or to one byte more than the limit.
///
/// Where files are told, a load that goes through gives the bytes of the file of that name. Missing
/// comes exactly where there is none, and TooLong where it has more bytes than the limit, which no
/// load of it gives then; what is left to read begins behind these bytes and one more. Failed comes
/// only where the source's count rose. The source is asked for the file once.
pub fn load<S: Source>(
    alloc: Global,
    source: &mut S,
    name: &str,
    limit: u64,
) -> Result<Pieces, LoadFault>
    ensures files { (S.seen source.new).files ≡ (S.seen source.old).files }
    ensures asked { WhileTold (S.seen source.old).asked (S.seen source.new).asked
        (λ old new. new ≡ old ++ name.now ∷ []) }
    ensures within { IfOk result (λ bytes. length bytes ≤ limit) }
    ensures bytes { IfSome (S.seen source.old).files (λ files.
        IfOk result (λ bytes. bytes_of files name.now ≡ Some bytes)) }
    ensures missing { IfSome (S.seen source.old).files (λ files.
        IsErrOf result LoadFault.Missing ↔ (bytes_of files name.now ≡ None)) }
    ensures too_long { IfSome (S.seen source.old).files (λ files. IsErrOf result LoadFault.TooLong →
        IsSomeAnd (bytes_of files name.now) (λ bytes. limit < length bytes)) }
    ensures left { IfSome (S.seen source.old).files (λ files. IsErrOf result LoadFault.TooLong →
        IfSome (bytes_of files name.now) (λ bytes. S.rest source.new ≡ drop (limit + 1) bytes)) }
    ensures later { (S.seen source.old).faults ≤ (S.seen source.new).faults }
    ensures failed { IsErrOf result LoadFault.Failed →
        Rose (S.seen source.old).faults (S.seen source.new).faults }
{
    source.begin(name)?;
    let mut buf = [0u8; PIECE];
    let mut bytes = Pieces::new(alloc);
    let mut left = limit;
    'pieces: loop {
        let read = read_piece(alloc, source, &mut buf[..room(left)], &mut bytes)? as u64;
        if read == 0 {
            return Ok(bytes);
        }
        if read > left {
            return Err(LoadFault::TooLong);
        }
        left -= read;
    }
}

// How many bytes are asked for at once, where so many are left: one more than these, if a piece
// has room for them.
fn room(left: u64) -> usize
    ensures some { 0 < result }
    ensures piece { result ≤ 65536 }
    ensures most { result ≤ left + 1 }
{
    if left < PIECE as u64 {
        left as usize + 1
    } else {
        PIECE
    }
}

// Reads a piece into the buffer, and adds it to the bytes.
fn read_piece<S: Source>(
    alloc: Global,
    source: &mut S,
    buf: &mut [u8],
    bytes: &mut Pieces,
) -> Result<usize, LoadFault>
    requires begun { IsTrue (S.begun source.old) }
    requires room { 0 < length buf.old }
    requires piece { length buf.old ≤ 65536 }
    ensures files { (S.seen source.new).files ≡ (S.seen source.old).files }
    ensures asked { (S.seen source.new).asked ≡ (S.seen source.old).asked }
    ensures begun { IsTrue (S.begun source.new) }
    ensures bound { IfOk result (λ n. n ≤ length buf.old) }
    ensures more { IfOk result (λ n. length bytes.new ≡ length bytes.old + n) }
    ensures end { IfSome (S.seen source.old).files (λ _.
        IfOk result (λ n. n ≡ 0 → S.rest source.old ≡ [])) }
    ensures bytes { IfSome (S.seen source.old).files (λ _. OnOk result
        (bytes.old ++ S.rest source.old ≡ bytes.new ++ S.rest source.new)) }
    ensures later { (S.seen source.old).faults ≤ (S.seen source.new).faults }
    ensures failed { IsErrOf result LoadFault.Failed →
        Rose (S.seen source.old).faults (S.seen source.new).faults }
    ensures not_missing { IsErrOf result LoadFault.Missing → ⊥ }
    ensures not_long { IsErrOf result LoadFault.TooLong → ⊥ }
{
    let n = source.read(buf)?;
    bytes.push(alloc, &buf[..n])?;
    Ok(n)
}
