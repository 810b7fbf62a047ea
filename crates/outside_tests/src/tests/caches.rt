// Steps of what the real cache finds and keeps in files. They stand in one test, since they share a
// folder.
use cache_store::{Cache, FindFault};
use real_outside::{CACHE_FOLDER, FileCache};
use std::alloc::{Alloc, Global};
use std::fs;
use std::rt::Files;
use std::test::Fail;

type Name = &'static str;

type Bytes = &'static [u8];

/// A step: what a new cache answers, or what is done to the files of the folder.
#[derive(Clone, Copy)]
enum Step {
    /// It finds just this under the key.
    Finds(Bytes, Option<Bytes>),
    /// It fails to find the key.
    FailsToFind(Bytes),
    /// It keeps a value under the key.
    Keeps(Bytes, Bytes),
    /// It fails to.
    FailsToKeep(Bytes, Bytes),
    /// There is no such file.
    Lacks(Name),
    /// This file has these bytes from now on.
    Has(Name, Bytes),
    /// The first file has those of the second, but for so many in front and so many at the end.
    HasPart(Name, Name, usize, usize),
    /// This file is a folder from now on.
    IsFolder(Name),
    /// The folder of the cache is a file without bytes from now on.
    NoFolder,
}

// The files of the keys `a` and `b`, by the hashes of these.
const FILE_OF_A: &str = ".flume-cache/af63dc4c8601ec8c";

const FILE_OF_B: &str = ".flume-cache/af63df4c8601f1a5";

// Files that are not whole yet, of either key.
const LEFT_OF_A: &str = ".flume-cache/af63dc4c8601ec8c.0";

const SECOND_LEFT_OF_A: &str = ".flume-cache/af63dc4c8601ec8c.1";

const LEFT_OF_B: &str = ".flume-cache/af63df4c8601f1a5.0";

// A file beside them, to put one aside.
const ASIDE: &str = ".flume-cache/aside";

static STEPS: [Step; 29] = [
    // absent: without a folder, and in one that lacks the key
    Step::Finds(b"a", None),
    Step::Keeps(b"a", b"value"),
    Step::Finds(b"b", None),
    // found, and in place of an older one
    Step::Finds(b"a", Some(b"value")),
    Step::Keeps(b"a", b""),
    Step::Finds(b"a", Some(b"")),
    Step::Keeps(b"a", b"other"),
    Step::Finds(b"a", Some(b"other")),
    // nothing else is left in the folder
    Step::Lacks(LEFT_OF_A),
    Step::Lacks(SECOND_LEFT_OF_A),
    // what a run left that did not end is not taken, and keeps no other from writing
    Step::Has(LEFT_OF_B, b"half"),
    Step::Finds(b"b", None),
    Step::Keeps(b"b", b"value"),
    Step::Finds(b"b", Some(b"value")),
    // damaged: a byte cut from the end, a byte cut from the front, and nothing at all
    Step::HasPart(ASIDE, FILE_OF_A, 0, 0),
    Step::HasPart(FILE_OF_A, ASIDE, 0, 1),
    Step::Finds(b"a", None),
    Step::HasPart(FILE_OF_A, ASIDE, 1, 0),
    Step::Finds(b"a", None),
    Step::Has(FILE_OF_A, b""),
    Step::Finds(b"a", None),
    // of another key under the same name
    Step::HasPart(FILE_OF_B, ASIDE, 0, 0),
    Step::Finds(b"b", None),
    // a file that can't be read is a failure, and so is one that can't be replaced
    Step::IsFolder(FILE_OF_B),
    Step::FailsToFind(b"b"),
    Step::FailsToKeep(b"b", b"value"),
    // a folder that can't be made
    Step::NoFolder,
    Step::Finds(b"a", None),
    Step::FailsToKeep(b"a", b"value"),
];

fn finds<R: Files>(system: &R, alloc: Global, key: &[u8], wanted: Option<&[u8]>) -> bool {
    let mut cache = FileCache::new(system);
    match cache.find(alloc, key) {
        Ok(Some(value)) => match wanted {
            Some(bytes) => value.as_slice() == bytes,
            None => false,
        },
        Ok(None) => wanted.is_none(),
        Err(_) => false,
    }
}

fn fails_to_find<R: Files>(system: &R, alloc: Global, key: &[u8]) -> bool {
    let mut cache = FileCache::new(system);
    matches!(cache.find(alloc, key), Err(FindFault::Failed))
}

fn keeps<R: Files>(system: &R, key: &[u8], value: &[u8]) -> bool {
    let mut cache = FileCache::new(system);
    cache.keep(key, value).is_ok()
}

// These bytes, but for so many in front and so many at the end.
fn part(bytes: &[u8], front: usize, end: usize) -> &[u8] {
    let end = bytes.len().saturating_sub(end);
    &bytes[front.min(end)..end]
}

fn has_part<R: Files + Alloc>(system: &R, to: &str, from: &str, front: usize, end: usize) -> bool {
    match fs::read(system, from) {
        Ok(bytes) => fs::write(system, to, part(&bytes, front, end)).is_ok(),
        Err(_) => false,
    }
}

fn is_folder<R: Files>(system: &R, name: &str) -> bool {
    fs::remove_file(system, name).is_ok() && fs::create_dir(system, name).is_ok()
}

fn has_no_folder<R: Files + Alloc>(system: &R) -> bool {
    fs::remove_dir_all(system, CACHE_FOLDER).is_ok()
        && fs::write(system, CACHE_FOLDER, b"".as_slice()).is_ok()
}

// Does what a step says to the files, and answers whether that went well.
fn is_changed<R: Files + Alloc>(system: &R, step: Step) -> bool {
    match step {
        Step::Lacks(name) => matches!(fs::exists(system, name), Ok(false)),
        Step::Has(name, bytes) => fs::write(system, name, bytes).is_ok(),
        Step::HasPart(to, from, front, end) => has_part(system, to, from, front, end),
        Step::IsFolder(name) => is_folder(system, name),
        Step::NoFolder => has_no_folder(system),
        _ => false,
    }
}

// Whether a step goes as it says.
fn is_done<R: Files + Alloc>(system: &R, alloc: Global, step: Step) -> bool {
    match step {
        Step::Finds(key, wanted) => finds(system, alloc, key, wanted),
        Step::FailsToFind(key) => fails_to_find(system, alloc, key),
        Step::Keeps(key, value) => keeps(system, key, value),
        Step::FailsToKeep(key, value) => !keeps(system, key, value),
        other => is_changed(system, other),
    }
}

/// The place of the first step that goes otherwise.
fn first_other<R: Files + Alloc>(system: &R, alloc: Global) -> Option<usize> {
    for place in 0..STEPS.len() {
        if !is_done(system, alloc, STEPS[place]) {
            return Some(place);
        }
    }
    None
}

#[test]
fn what_is_kept_is_found(rt: HostRuntime) -> Result<(), Fail> {
    let _ = fs::remove_dir_all(&rt, CACHE_FOLDER);
    let _ = fs::remove_file(&rt, CACHE_FOLDER);
    assert_eq!(&rt; first_other(&rt, rt.alloc()), None);
    fs::remove_file(&rt, CACHE_FOLDER)?;
    Ok(())
}
