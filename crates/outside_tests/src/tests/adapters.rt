// Rows of what the real source, shelf and screen read and write, and where they fail.
use super::unflushed::{Unflushed, Unflushing};
use outside::{Failed, LoadFault, Pieces, load, save, say};
use real_outside::{FileShelf, FileSource, OutputScreen};
use std::alloc::{Alloc, Global};
use std::fs;
use std::rt::Files;
use std::test::Fail;

#[test]
fn a_piece_that_is_not_flushed_has_failed(rt: HostRuntime) -> Result<(), Fail> {
    let mut screen = OutputScreen::new(Unflushed);
    assert_eq!(&rt; say(&mut screen, b"done\n"), Err(Failed));
    Ok(())
}

#[test]
fn a_file_that_is_not_flushed_has_failed(rt: HostRuntime) -> Result<(), Fail> {
    let mut shelf = FileShelf::new(&Unflushing);
    assert_eq!(&rt; save(&mut shelf, "a.csv", b"value\n"), Err(Failed));
    assert_eq!(&rt; save(&mut shelf, "b.csv", b""), Err(Failed));
    Ok(())
}

/// What is loaded of a file.
#[derive(Clone, Copy)]
enum Wanted {
    Bytes(&'static [u8]),
    Fault(LoadFault),
}

/// Names, limits, and what is loaded.
static LOADED: [(&str, u64, Wanted); 7] = [
    ("source_test/a.csv", 9, Wanted::Bytes(b"line\na b\n")),
    ("source_test/a.csv", 8, Wanted::Fault(LoadFault::TooLong)),
    ("source_test/b.csv", 9, Wanted::Fault(LoadFault::Missing)),
    ("source_test/c/a.csv", 9, Wanted::Fault(LoadFault::Missing)),
    (
        "source_test/a.csv/a.csv",
        9,
        Wanted::Fault(LoadFault::Missing),
    ),
    ("", 9, Wanted::Fault(LoadFault::Missing)),
    ("source_test", 9, Wanted::Fault(LoadFault::Failed)),
];

fn has_bytes(alloc: Global, file: Pieces, wanted: Wanted) -> bool {
    match file.into_vec(alloc) {
        Ok(found) => matches!(wanted, Wanted::Bytes(bytes) if found.as_slice() == bytes),
        Err(_) => false,
    }
}

fn is_loaded<R: Files>(system: &R, alloc: Global, name: &str, limit: u64, wanted: Wanted) -> bool {
    let mut source = FileSource::new(system);
    match load(alloc, &mut source, name, limit) {
        Ok(file) => has_bytes(alloc, file, wanted),
        Err(fault) => matches!(wanted, Wanted::Fault(it) if it == fault),
    }
}

fn first_other_load<R: Files>(system: &R, alloc: Global) -> Option<usize> {
    for place in 0..LOADED.len() {
        let (name, limit, wanted) = LOADED[place];
        if !is_loaded(system, alloc, name, limit, wanted) {
            return Some(place);
        }
    }
    None
}

#[test]
fn source_reads_what_is_there(rt: HostRuntime) -> Result<(), Fail> {
    let _ = fs::remove_dir_all(&rt, "source_test");
    fs::create_dir(&rt, "source_test")?;
    fs::write(&rt, "source_test/a.csv", b"line\na b\n".as_slice())?;
    assert_eq!(&rt; first_other_load(&rt, rt.alloc()), None);
    fs::remove_dir_all(&rt, "source_test")?;
    Ok(())
}

/// Names, texts, and whether they are written.
static SAVED: [(&str, &[u8], bool); 4] = [
    ("shelf_test/a.csv", b"an older and longer text", true),
    ("shelf_test/a.csv", b"value\na\n", true),
    ("shelf_test/b/a.csv", b"value\n", false),
    ("shelf_test", b"value\n", false),
];

fn is_saved<R: Files>(system: &R, name: &str, text: &[u8]) -> bool {
    let mut shelf = FileShelf::new(system);
    save(&mut shelf, name, text).is_ok()
}

fn first_other_save<R: Files>(system: &R) -> Option<usize> {
    for place in 0..SAVED.len() {
        let (name, text, wanted) = SAVED[place];
        if is_saved(system, name, text) != wanted {
            return Some(place);
        }
    }
    None
}

fn has_text<R: Files + Alloc>(system: &R, name: &str, wanted: &str) -> bool {
    match fs::read_to_string(system, name) {
        Ok(text) => text.as_str() == wanted,
        Err(_) => false,
    }
}

#[test]
fn shelf_writes_what_is_read_back(rt: HostRuntime) -> Result<(), Fail> {
    let _ = fs::remove_dir_all(&rt, "shelf_test");
    fs::create_dir(&rt, "shelf_test")?;
    assert_eq!(&rt; first_other_save(&rt), None);
    assert!(&rt; has_text(&rt, "shelf_test/a.csv", "value\na\n"));
    fs::remove_dir_all(&rt, "shelf_test")?;
    Ok(())
}

// Whether two lines are written to a new file of this name.
fn are_said<R: Files>(system: &R, name: &str) -> bool {
    match fs::create(system, name) {
        Ok(file) => {
            let mut screen = OutputScreen::new(file);
            say(&mut screen, b"size ws 3\n").is_ok() && say(&mut screen, b"done\n").is_ok()
        }
        Err(_) => false,
    }
}

// Whether a line is written to this file, which is opened to be read.
fn is_said_to_read_only<R: Files>(system: &R, name: &str) -> bool {
    match fs::open(system, name) {
        Ok(file) => {
            let mut screen = OutputScreen::new(file);
            say(&mut screen, b"done\n").is_ok()
        }
        Err(_) => true,
    }
}

#[test]
fn screen_writes_what_is_read_back(rt: HostRuntime) -> Result<(), Fail> {
    let name = "screen_test.txt";
    assert!(&rt; are_said(&rt, name));
    assert!(&rt; has_text(&rt, name, "size ws 3\ndone\n"));
    assert!(&rt; !is_said_to_read_only(&rt, name));
    fs::remove_file(&rt, name)?;
    Ok(())
}
