// Files and texts that pass between memory and a call, as tables.
use flume_value::{Pile, Str};
use memory_outside::{Fail, MemHost, MemScreen, MemShelf, MemSource};
use outside::{
    At, CalmHost, File, FileName, Host, LoadFault, Output, Phase, Pieces, load_tried, save_all,
    say_all,
};
use std::alloc::{AllocError, Global};
use std::test::Fail as TestFail;

fn file(alloc: Global, name: &[u8], bytes: &[u8]) -> Result<File, AllocError> {
    let name = Str::from_slice(alloc, name)?;
    let bytes = Str::from_slice(alloc, bytes)?;
    Ok(File { name, bytes })
}

fn output(alloc: Global, name: &str, text: &[u8]) -> Result<Output, AllocError> {
    let name = FileName::new(alloc, name)?;
    let text = Vec::from_slice(alloc, text)?;
    Ok(Output { name, text })
}

// The calls that are to fail: each is the number of its `begin`, and its own number since then.
type Fails = &'static [(u32, u32)];

fn fail_list(alloc: Global, fails: Fails) -> Result<Pile<Fail>, AllocError> {
    let mut list = Pile::new(alloc);
    for &(begun, call) in fails {
        list.push(Fail { begun, call })?;
    }
    Ok(list)
}

// A load of a name within a limit, which calls fail, the fault that comes of it, if any does, and
// how often the source fails, and how often it is asked for the file.
type Load = (&'static str, u64, Fails, Option<LoadFault>, u64, usize);

// Loads from a source that has "in.csv", of five bytes, at most twice.
static LOADS: [Load; 6] = [
    ("in.csv", 5, &[], None, 0, 1),
    ("in.csv", 5, &[(0, 0)], None, 1, 2),
    ("in.csv", 5, &[(0, 2)], None, 1, 2),
    ("in.csv", 4, &[], Some(LoadFault::TooLong), 0, 1),
    ("no.csv", 5, &[(0, 0)], Some(LoadFault::Missing), 0, 1),
    (
        "in.csv",
        5,
        &[(0, 1), (1, 0)],
        Some(LoadFault::Failed),
        2,
        2,
    ),
];

fn one_file(alloc: Global) -> Result<Pile<File>, AllocError> {
    let mut files = Pile::new(alloc);
    files.push(file(alloc, b"in.csv", b"hello")?)?;
    Ok(files)
}

fn source_of(alloc: Global, fails: Fails) -> Result<MemSource, AllocError> {
    let files = one_file(alloc)?;
    MemSource::new(alloc, files, fail_list(alloc, fails)?)
}

fn is_hello(alloc: Global, file: Pieces) -> bool {
    match file.into_vec(alloc) {
        Ok(bytes) => bytes.as_slice() == b"hello".as_slice(),
        Err(_) => false,
    }
}

// The fault of a load, if it has one; or whether it gives the whole file.
fn is_loaded(alloc: Global, source: &mut MemSource, it: Load) -> bool {
    let (name, limit, _, wanted, _, _) = it;
    match load_tried(alloc, source, name, limit, 2) {
        Ok(file) => wanted.is_none() && is_hello(alloc, file),
        Err(fault) => wanted == Some(fault),
    }
}

// Whether the source was asked for that name alone, so often.
fn was_asked(source: &MemSource, name: &str, times: usize) -> bool {
    match source.asked() {
        Some(names) => {
            names.len() == times && names.iter().all(|it| it.as_bytes() == name.as_bytes())
        }
        None => false,
    }
}

fn comes_out(alloc: Global, it: Load) -> Result<bool, AllocError> {
    let mut source = source_of(alloc, it.2)?;
    Ok(
        is_loaded(alloc, &mut source, it)
            && source.faults() == it.4
            && was_asked(&source, it.0, it.5),
    )
}

fn first_other_load(alloc: Global, table: &[Load]) -> Option<usize> {
    for place in 0..table.len() {
        if !matches!(comes_out(alloc, table[place]), Ok(true)) {
            return Some(place);
        }
    }
    None
}

// The room of a shelf, in files and bytes, and which of its calls fail.
type Room = (u32, u64, Fails);

// What a save gives, and the bytes of "a" and "b" after it.
type Saved = (
    Result<(), usize>,
    Option<&'static [u8]>,
    Option<&'static [u8]>,
);

// Saves of "a" with two bytes, and then "b" with one.
static SAVES: [(Room, Saved); 6] = [
    ((2, 5, &[]), (Ok(()), Some(b"xy"), Some(b"z"))),
    ((2, 4, &[]), (Err(1), Some(b"xy"), Some(b""))),
    ((1, 5, &[]), (Err(1), Some(b"xy"), None)),
    ((2, 5, &[(0, 0)]), (Err(0), None, None)),
    ((2, 5, &[(0, 1)]), (Err(0), Some(b""), None)),
    ((2, 5, &[(1, 2)]), (Err(1), Some(b"xy"), Some(b"z"))),
];

fn shelf_of(alloc: Global, room: Room) -> Result<MemShelf, AllocError> {
    let (max_files, max_bytes, fails) = room;
    let fails = fail_list(alloc, fails)?;
    MemShelf::new(alloc, Pile::new(alloc), fails, max_files, max_bytes)
}

// Names of outputs, and their texts.
type Texts = &'static [(&'static str, &'static [u8])];

fn outputs_of(alloc: Global, texts: Texts) -> Result<Vec<Output>, AllocError> {
    let mut outputs = Vec::new(alloc);
    for (name, text) in texts {
        push_output(alloc, *name, *text, &mut outputs)?;
    }
    Ok(outputs)
}

fn push_output(
    alloc: Global,
    name: &str,
    text: &[u8],
    outputs: &mut Vec<Output>,
) -> Result<(), AllocError> {
    outputs.push(output(alloc, name, text)?)?;
    Ok(())
}

// Whether the save of these outputs comes out so, with one fault of the shelf where it fails.
fn saves(shelf: &mut MemShelf, outputs: &[Output], wanted: Saved) -> bool {
    let (result, a, b) = wanted;
    let faults = if result.is_ok() { 0 } else { 1 };
    save_all(shelf, outputs) == result
        && shelf.bytes("a") == a
        && shelf.bytes("b") == b
        && shelf.faults() == faults
}

fn saves_in(
    alloc: Global,
    room: Room,
    outputs: &[Output],
    wanted: Saved,
) -> Result<bool, AllocError> {
    let mut shelf = shelf_of(alloc, room)?;
    Ok(saves(&mut shelf, outputs, wanted))
}

fn are_saved(alloc: Global, room: Room, wanted: Saved) -> Result<bool, AllocError> {
    let outputs = outputs_of(alloc, &[("a", b"xy"), ("b", b"z")])?;
    saves_in(alloc, room, &outputs, wanted)
}

fn first_other_save(alloc: Global, table: &[(Room, Saved)]) -> Option<usize> {
    for place in 0..table.len() {
        let (room, wanted) = table[place];
        if !matches!(are_saved(alloc, room, wanted), Ok(true)) {
            return Some(place);
        }
    }
    None
}

fn has_two_files(shelf: &mut MemShelf, outputs: &[Output]) -> bool {
    saves(shelf, outputs, (Ok(()), Some(b"u"), Some(b""))) && shelf.file_count() == 2
}

fn has_room_for(alloc: Global, outputs: &[Output]) -> Result<bool, AllocError> {
    let mut shelf = shelf_of(alloc, (2, 5, &[]))?;
    Ok(has_two_files(&mut shelf, outputs))
}

// Whether "a" is saved again over its old text.
fn is_saved_over(alloc: Global) -> Result<bool, AllocError> {
    let outputs = outputs_of(alloc, &[("a", b"xyz"), ("b", b""), ("a", b"u")])?;
    has_room_for(alloc, &outputs)
}

// Which calls of a screen fail, its room, and what it has of "abc", said in three pieces.
type Said = (&'static [u32], u64, &'static [u8]);

static SAID: [Said; 4] = [
    (&[], 3, b"abc"),
    (&[], 2, b"ab"),
    (&[0], 3, b""),
    (&[1], 3, b"ab"),
];

// Whether the screen has this text then, and failed once where that is not the whole.
fn says(screen: &mut MemScreen, wanted: &[u8]) -> bool {
    let whole = wanted.len() == 3;
    let faults = if whole { 0 } else { 1 };
    say_all(screen, &[b"ab", b"", b"c"]).is_ok() == whole
        && screen.text() == wanted
        && screen.faults() == faults
}

fn screen_of(alloc: Global, fails: &[u32], max_bytes: u64) -> Result<MemScreen, AllocError> {
    let fails = Pile::from_vec(Vec::from_slice(alloc, fails)?);
    MemScreen::new(alloc, fails, max_bytes)
}

fn is_said(alloc: Global, it: Said) -> Result<bool, AllocError> {
    let mut screen = screen_of(alloc, it.0, it.1)?;
    Ok(says(&mut screen, it.2))
}

fn first_other_said(alloc: Global, table: &[Said]) -> Option<usize> {
    for place in 0..table.len() {
        if !matches!(is_said(alloc, table[place]), Ok(true)) {
            return Some(place);
        }
    }
    None
}

const START: At = At {
    stage: 1,
    phase: Phase::Map,
    task: 0,
    attempt: 1,
    place: 0,
};

const FIRST: At = At {
    stage: 1,
    phase: Phase::Map,
    task: 0,
    attempt: 1,
    place: 1,
};

// A host that is down at the first place, and notes two calls.
fn host_of(alloc: Global) -> Result<MemHost, AllocError> {
    let down_at = Pile::from_vec(vec![in alloc; FIRST]?);
    MemHost::new(alloc, down_at, 2)
}

// Whether the host passes at the start, is down at the first place, and then passes again.
fn passes(host: &mut MemHost) -> bool {
    host.pass(START).is_ok() && host.pass(FIRST).is_err() && host.pass(START).is_ok()
}

// Whether the host noted the first two calls, and counted what it was down at.
fn has_noted(host: &MemHost) -> bool {
    host.passed() == [START].as_slice() && host.downs() == [FIRST].as_slice() && host.losses() == 1
}

fn is_down_once(alloc: Global) -> Result<bool, AllocError> {
    let mut host = host_of(alloc)?;
    Ok(passes(&mut host) && has_noted(&host))
}

#[test]
fn loads_and_saves(rt: HostRuntime) -> Result<(), TestFail> {
    let alloc = rt.alloc();
    assert_eq!(&rt; first_other_load(alloc, &LOADS), None);
    assert_eq!(&rt; first_other_save(alloc, &SAVES), None);
    assert!(&rt; is_saved_over(alloc)?);
    Ok(())
}

#[test]
fn says_and_passes(rt: HostRuntime) -> Result<(), TestFail> {
    let alloc = rt.alloc();
    assert_eq!(&rt; first_other_said(alloc, &SAID), None);
    assert!(&rt; is_down_once(alloc)?);
    assert!(&rt; CalmHost.pass(FIRST).is_ok());
    Ok(())
}
