//! The program `flume`: the top call over the files of the system, those of a folder as its cache,
//! and the standard output. Its hosts are sixteen calm ones.
#![tactic(auto)]

use flume_run::{Status, flume_cached};
use outside::{CalmHost, say};
use real_outside::{FileCache, FileShelf, FileSource, OutputScreen};
use std::env::Env;
use std::io::ErrorKind;
use std::process::ExitCode;
use std::{env, fs, io};

// The words of the command line. One that is not UTF-8 makes them no command of `flume`, as no word
// at all does.
fn words<X: Env + AllocGlobal>(rt: &X) -> io::Result<Vec<String>> {
    match env::args(rt) {
        Ok(words) => Ok(words.collect(rt.alloc())?),
        Err(error) if error.kind() == ErrorKind::OutOfMemory => Err(error),
        Err(_) => Ok(Vec::new(rt.alloc())),
    }
}

fn main(rt: HostRuntime) -> ExitCode {
    // Where standard input and output are closed, these stand in their places, and can't be written
    // to: so no file that is opened later is taken for the screen.
    let places = [fs::open(&rt, "/dev/null"), fs::open(&rt, "/dev/null")];
    let alloc = rt.alloc();
    let mut screen = OutputScreen::new(io::writer(&rt));
    let Ok(words) = words(&rt) else {
        let _ = say(&mut screen, b"want of memory\n");
        drop(places);
        return exit_code(Status::WantOfMemory);
    };
    let mut source = FileSource::new(&rt);
    let mut shelf = FileShelf::new(&rt);
    let mut cache = FileCache::new(&rt);
    let mut hosts = [CalmHost; 16];
    let status = flume_cached(
        &rt,
        alloc,
        &words,
        &mut source,
        &mut hosts,
        &mut shelf,
        &mut screen,
        &mut cache,
    );
    drop(places);
    exit_code(status)
}

// The exit status that says how a call ended.
fn exit_code(status: Status) -> ExitCode {
    let code = status.code();
    drop(status);
    ExitCode::from(code)
}
