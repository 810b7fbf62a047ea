// A cache over a folder of the system: a file for each entry.
//
// A file is named by the hash of its key. It has how long the key and the value are, then the key,
// then the value. It is written under a name of its own, and renamed when it is whole: so no run
// takes a part of an entry for it, where two write at once or one dies.
ghost use Rattle.std.specs.Prelude.{◌≡◌, ◌<◌, None};
ghost use Rattle.cache_store.specs.Cause.{HasFindCause};

use crate::faults::FaultCount;
use crate::source::open;
use cache_store::{Cache, FindFault};
use outside::{BeginFault, Failed};
use std::alloc::Global;
use std::fs::{OpenFile, OpenOptions};
use std::io::{ErrorKind, Read, Write};
use std::marker::Model;
use std::rt::Files;
use std::{fs, io, str};

/// The folder of the entries, in the directory in which the program works.
pub const CACHE_FOLDER: &str = ".flume-cache";

// How many bytes of a file are held beside a key.
const PIECE: usize = 65_536;

// The names that a file may have that is not whole yet.
const NEW_NAMES: u8 = 8;

/// Entries in files of the system. It tells nothing of what they hold.
#[derive(Drop)]
pub struct FileCache<'a, R: Files> {
    system: &'a R,
    faults: FaultCount,
}

// What is seen of it is how often it has failed.
impl<'a, R: Files> Model for FileCache<'a, R> {
    ghost use Rattle.std.specs.Prelude.{ℕ};

    ghost Value = { ℕ };

    ghost view = { λ cache. cache.faults.count };
}

impl<'a, R: Files> FileCache<'a, R> {
    /// A cache that has not failed. Its folder is made when something is kept.
    pub fn new(system: &'a R) -> Self
        ensures { result ≡ 0 }
    {
        FileCache {
            system,
            faults: FaultCount::new(),
        }
    }
}

impl<R: Files> Cache for FileCache<'_, R> {
    ghost seen = { λ faults. record { entries = None; faults = faults } };

    /// Reads the file of the key. One that is not whole, and one of another key, is as absent.
    fn find(&mut self, alloc: Global, key: &[u8]) -> Result<Option<Vec<u8>>, FindFault> {
        let path = path_of(key);
        let Ok(name) = str::from_utf8(&path) else {
            return Ok(None);
        };
        match self.faults.opened(open(self.system, name)) {
            Ok(file) => entry_in(alloc, file, key, &mut self.faults),
            Err(BeginFault::Missing) => Ok(None),
            Err(BeginFault::Failed) => Err(FindFault::Failed),
        }
    }

    /// Writes the file of the key, in place of the one that is there.
    fn keep(&mut self, key: &[u8], value: &[u8]) -> Result<(), Failed> {
        self.faults.told(put(self.system, key, value))
    }
}

// ---- names

// The path of the file of a key.
fn path_of(key: &[u8]) -> [u8; 29] {
    let mut path = [b'0'; 29];
    path[..13].copy_from_slice(b".flume-cache/");
    let mut hash = hash_of(key);
    for place in 0..16 {
        path[28 - place] = digit_of((hash % 16) as u8);
        hash /= 16;
    }
    path
}

// The path that a file of a key may have before it is whole.
fn new_path_of(path: &[u8; 29], place: u8) -> [u8; 31]
    requires { place < 8 }
{
    let mut new = [b'.'; 31];
    new[..29].copy_from_slice(path);
    new[30] = b'0' + place;
    new
}

// A digit of base 16.
fn digit_of(n: u8) -> u8
    requires { n < 16 }
{
    if n < 10 { b'0' + n } else { b'a' + (n - 10) }
}

// FNV-1a with 64 bits.
fn hash_of(bytes: &[u8]) -> u64 {
    bytes.iter().fold(0xcbf29ce484222325, |hash: u64, byte| {
        (hash ^ u64::from(*byte)).wrapping_mul(0x100000001b3)
    })
}

// ---- files

// The value in the file of an entry, where it is one of this key and whole.
fn entry_in<F: Read + OpenFile + Drop>(
    alloc: Global,
    file: F,
    key: &[u8],
    faults: &mut FaultCount,
) -> Result<Option<Vec<u8>>, FindFault>
    ensures { HasFindCause faults.old.count faults.new.count result }
{
    let mut file = file;
    match faults.told(length_behind(&mut file, key)) {
        Ok(Some(length)) => value_in(alloc, file, length, faults),
        Ok(None) => Ok(None),
        Err(Failed) => Err(FindFault::Failed),
    }
}

// The next bytes of a file, so many.
fn value_in<F: Read + Drop>(
    alloc: Global,
    file: F,
    length: usize,
    faults: &mut FaultCount,
) -> Result<Option<Vec<u8>>, FindFault>
    ensures { HasFindCause faults.old.count faults.new.count result }
{
    let mut file = file;
    let mut value = Vec::new(alloc);
    value.resize(length, 0)?;
    match faults.told(file.read_exact(value.as_mut_slice())) {
        Ok(()) => Ok(Some(value)),
        Err(Failed) => Err(FindFault::Failed),
    }
}

// How long the value behind the key is, where the file has an entry of this key and is whole.
fn length_behind<F: Read + OpenFile>(file: &mut F, key: &[u8]) -> io::Result<Option<usize>> {
    let whole = file.metadata()?.len();
    let of_key = key.len() as u64;
    let Some(of_value) = whole
        .checked_sub(16)
        .and_then(|both| both.checked_sub(of_key))
    else {
        return Ok(None);
    };
    if begins_with(file, &of_key.to_be_bytes())?
        && begins_with(file, &of_value.to_be_bytes())?
        && begins_with(file, key)?
    {
        return Ok(usize::try_from(of_value).ok());
    }
    Ok(None)
}

// Whether the next bytes of a file are these. No more than a piece of them is held.
fn begins_with<F: Read>(file: &mut F, bytes: &[u8]) -> io::Result<bool> {
    let mut buf = [0u8; PIECE];
    for piece in bytes.chunks(PIECE) {
        let many = piece.len().min(PIECE);
        file.read_exact(&mut buf[..many])?;
        if &buf[..many] != piece {
            return Ok(false);
        }
    }
    Ok(true)
}

// Writes the file of an entry under a name that no other has, and renames it.
fn put<R: Files>(system: &R, key: &[u8], value: &[u8]) -> io::Result<()> {
    // the folder may be there
    let _ = fs::create_dir(system, CACHE_FOLDER);
    let path = path_of(key);
    for place in 0..NEW_NAMES {
        let new = new_path_of(&path, place);
        match made_at(system, &new) {
            Ok(file) => return put_in(system, file, &new, &path, key, value),
            Err(error) => {
                if !is_there(&error) {
                    return Err(error);
                }
            }
        }
    }
    Err(io::Error::from(ErrorKind::AlreadyExists))
}

// Whether a file was not made because one is there.
fn is_there(error: &io::Error) -> bool {
    matches!(error.kind(), ErrorKind::AlreadyExists)
}

// The name of a path.
fn name_of(path: &[u8]) -> io::Result<&str> {
    match str::from_utf8(path) {
        Ok(name) => Ok(name),
        Err(_) => Err(io::Error::from(ErrorKind::InvalidInput)),
    }
}

// A new file of that path; one that is there is left as it is.
fn made_at<R: Files>(system: &R, path: &[u8]) -> io::Result<R::File> {
    let name = name_of(path)?;
    OpenOptions::new()
        .write(true)
        .create_new(true)
        .open(system, name)
}

// Writes an entry into a new file, and gives the file its name. Where that fails the file goes.
fn put_in<R: Files>(
    system: &R,
    file: R::File,
    new: &[u8],
    path: &[u8],
    key: &[u8],
    value: &[u8],
) -> io::Result<()> {
    let new = name_of(new)?;
    let name = name_of(path)?;
    let put = match written(file, key, value) {
        Ok(()) => fs::rename(system, new, name),
        Err(error) => Err(error),
    };
    if put.is_err() {
        let _ = fs::remove_file(system, new);
    }
    put
}

// Writes an entry, and closes its file.
fn written<W: Write + Drop>(file: W, key: &[u8], value: &[u8]) -> io::Result<()> {
    let mut file = file;
    file.write_all(&(key.len() as u64).to_be_bytes())?;
    file.write_all(&(value.len() as u64).to_be_bytes())?;
    file.write_all(key)?;
    file.write_all(value)?;
    file.flush()
}
