// A case is filled by its lines, one by one.
use crate::cases::{CACHE_ROOM, Case, Command, Room, TextFile};
use crate::commands::command_of;
use crate::faults::{push_faults, when_of};
use crate::lines::{Line, Word, line_of};
use crate::mistakes::{Mistake, Unread};
use crate::numbers::{first_word, number_of, parts, unescaped};
use crate::pieces::{named, push_piece};
use std::alloc::Global;

/// Reads the lines below the heading of a case, each of which has its number while it is read.
pub fn fill(
    alloc: Global,
    case: &mut Case,
    lines: &[&[u8]],
    texts: &[TextFile],
    at: &mut usize,
) -> Result<(), Unread> {
    *at = at.saturating_add(1);
    let heading = *at;
    let mut open = None;
    for line in lines {
        *at = at.saturating_add(1);
        open = add(alloc, case, open, line, texts)?;
    }
    *at = heading;
    match mistake_in(case) {
        Some(mistake) => Err(Unread::Wrong(mistake)),
        None => Ok(()),
    }
}

// What a case lacks, or has too much of, where its lines are read.
fn mistake_in(case: &Case) -> Option<Mistake> {
    if case.name.is_empty() {
        return Some(Mistake::NoName);
    }
    if case.commands.is_empty() {
        return Some(Mistake::NoCall);
    }
    if !fits(&case.before, case.room) || !fits(&case.entries, CACHE_ROOM) {
        return Some(Mistake::NoRoom);
    }
    None
}

// Whether these files, or entries, fit this room with their names.
fn fits(files: &[TextFile], room: Room) -> bool {
    let mut bytes = 0usize;
    for file in files {
        bytes = bytes.saturating_add(file.name.len());
        bytes = bytes.saturating_add(file.bytes.len());
    }
    files.len() as u64 <= u64::from(room.files) && bytes as u64 <= room.bytes
}

// Reads a line, where a text that comes next belongs to this word, and answers to which it does
// then.
fn add(
    alloc: Global,
    case: &mut Case,
    open: Option<Word>,
    line: &[u8],
    texts: &[TextFile],
) -> Result<Option<Word>, Unread> {
    match line_of(line)? {
        Line::Blank => Ok(open),
        Line::Piece(piece) => {
            add_piece(alloc, case, open, piece, texts)?;
            Ok(open)
        }
        Line::Said { word, rest } => {
            add_said(alloc, case, word, rest, texts)?;
            Ok(if word.is_of_text() { Some(word) } else { open })
        }
    }
}

// A piece of the last file or entry.
fn add_piece(
    alloc: Global,
    case: &mut Case,
    open: Option<Word>,
    piece: &[u8],
    texts: &[TextFile],
) -> Result<(), Unread> {
    match open {
        None => Err(Unread::Wrong(Mistake::NoFile)),
        Some(Word::Before) => push_to_last(alloc, &mut case.before, piece, texts),
        Some(Word::Later) => push_to_last(alloc, &mut case.later, piece, texts),
        Some(Word::Value) => push_to_last(alloc, &mut case.entries, piece, texts),
        Some(Word::Entry) => push_to_key(alloc, &mut case.entries, piece, texts),
        Some(_) => push_to_last(alloc, &mut case.files, piece, texts),
    }
}

// Adds a piece to the last of these files.
fn push_to_last(
    alloc: Global,
    files: &mut Vec<TextFile>,
    piece: &[u8],
    texts: &[TextFile],
) -> Result<(), Unread> {
    match files.last_mut() {
        Some(file) => push_piece(alloc, &mut file.bytes, piece, texts),
        None => Err(Unread::Wrong(Mistake::NoFile)),
    }
}

// Adds a piece to the key of the last of these entries.
fn push_to_key(
    alloc: Global,
    entries: &mut Vec<TextFile>,
    piece: &[u8],
    texts: &[TextFile],
) -> Result<(), Unread> {
    match entries.last_mut() {
        Some(entry) => push_piece(alloc, &mut entry.name, piece, texts),
        None => Err(Unread::Wrong(Mistake::NoFile)),
    }
}

fn add_said(
    alloc: Global,
    case: &mut Case,
    word: Word,
    rest: &[u8],
    texts: &[TextFile],
) -> Result<(), Unread> {
    match word {
        Word::Flume => add_call(alloc, &mut case.commands, rest),
        Word::Calls => add_calls(alloc, &mut case.commands, named(texts, rest)?),
        Word::When => {
            case.whens.push(when_of(alloc, rest)?)?;
            Ok(())
        }
        Word::Fails => push_faults(alloc, &mut case.always, rest),
        Word::Room => set_room(case, rest),
        Word::Keeps => set_keeps(alloc, case, rest),
        Word::Script | Word::File | Word::Before | Word::Later => add_file(alloc, case, word, rest),
        _ => add_alone(alloc, case, word, rest),
    }
}

fn add_call(alloc: Global, commands: &mut Vec<Command>, line: &[u8]) -> Result<(), Unread> {
    commands.push(command_of(alloc, line)?)?;
    Ok(())
}

// A command line for each line of a text.
fn add_calls(alloc: Global, commands: &mut Vec<Command>, lines: &[u8]) -> Result<(), Unread> {
    for line in &parts(alloc, lines, b'\n')? {
        if !line.is_empty() {
            add_call(alloc, commands, line)?;
        }
    }
    Ok(())
}

// An empty file, to which the pieces behind are added.
fn add_file(alloc: Global, case: &mut Case, word: Word, rest: &[u8]) -> Result<(), Unread> {
    let name = file_name(alloc, word, rest)?;
    let bytes = Vec::new(alloc);
    let files = match word {
        Word::Before => &mut case.before,
        Word::Later => &mut case.later,
        _ => &mut case.files,
    };
    files.push(TextFile { name, bytes })?;
    Ok(())
}

// A word that stands alone: a wish, an entry with an empty key and an empty value, or the value of
// the last one.
fn add_alone(alloc: Global, case: &mut Case, word: Word, rest: &[u8]) -> Result<(), Unread> {
    if !rest.is_empty() {
        return Err(Unread::Wrong(Mistake::TooMuch));
    }
    match word {
        Word::Pairs => case.has_pairs = true,
        Word::Twice => case.is_twice = true,
        Word::Losses => case.tells_losses = true,
        Word::Meets => case.hosts_meet = true,
        Word::Entry => case.entries.push(TextFile {
            name: Vec::new(alloc),
            bytes: Vec::new(alloc),
        })?,
        _ => {}
    }
    Ok(())
}

fn set_keeps(alloc: Global, case: &mut Case, rest: &[u8]) -> Result<(), Unread> {
    case.keeps = Some(name_of(alloc, rest)?);
    Ok(())
}

fn set_room(case: &mut Case, rest: &[u8]) -> Result<(), Unread> {
    let (files, bytes) = first_word(rest);
    let bytes = u64::from(number_of(bytes)?);
    let files = number_of(files)?;
    case.room = Room { files, bytes };
    Ok(())
}

// The name of a file that a line begins with.
fn file_name(alloc: Global, word: Word, rest: &[u8]) -> Result<Vec<u8>, Unread> {
    match word {
        Word::Script if rest.is_empty() => name_of(alloc, b"s"),
        Word::Script => Err(Unread::Wrong(Mistake::TooMuch)),
        _ => name_of(alloc, rest),
    }
}

// The name that is written so: one byte at least, and UTF-8.
fn name_of(alloc: Global, text: &[u8]) -> Result<Vec<u8>, Unread> {
    let name = unescaped(alloc, text)?;
    if name.is_empty() {
        return Err(Unread::Wrong(Mistake::NoName));
    }
    Ok(name.into_bytes())
}
