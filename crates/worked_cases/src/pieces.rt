// What a line that begins with `|` adds to a text.
use crate::cases::TextFile;
use crate::mistakes::{Mistake, Unread};
use crate::numbers::{cut, number_of, push_unescaped};
use std::alloc::{AllocError, Global};

// The most bytes of a text.
const MOST: usize = 100_000_000;

/// How the rest of the line is meant.
#[derive(Clone, Copy)]
struct Marks {
    is_escaped: bool,
    is_open: bool,
    is_named: bool,
    is_counted: bool,
    times: u32,
}

/// Adds to a text what the line says behind its `|`: these words and LF; without LF where it is
/// marked `.`, with bytes by their hexadecimal digits where it is marked `%`, the text of this name
/// where it is marked `<`, with each `#` as the number of the turn, from 1, where it is marked `#`,
/// and so many times where it is marked `*`.
pub fn push_piece(
    alloc: Global,
    text: &mut Vec<u8>,
    line: &[u8],
    texts: &[TextFile],
) -> Result<(), Unread> {
    let (marks, words) = cut(line, b' ').unwrap_or((line, &[]));
    let marks = marks_of(marks)?;
    let mut once = Vec::new(alloc);
    push_once(alloc, &mut once, marks, words, texts)?;
    push_times(alloc, text, marks, &once)
}

// A piece, so many times as it is marked.
fn push_times(alloc: Global, text: &mut Vec<u8>, marks: Marks, once: &[u8]) -> Result<(), Unread> {
    for turn in 0..marks.times {
        if text.len() > MOST {
            return Err(Unread::Wrong(Mistake::TooLong));
        }
        if marks.is_counted {
            push_counted(alloc, text, once, turn)?;
        } else {
            text.extend_from_slice(once)?;
        }
    }
    Ok(())
}

// A piece in which each `#` is the number of the turn, from 1.
fn push_counted(
    alloc: Global,
    text: &mut Vec<u8>,
    piece: &[u8],
    turn: u32,
) -> Result<(), AllocError> {
    let number = turn.saturating_add(1).to_string(alloc)?;
    push_numbered(text, piece, number.as_bytes())
}

fn push_numbered(text: &mut Vec<u8>, piece: &[u8], number: &[u8]) -> Result<(), AllocError> {
    for byte in piece {
        if *byte == b'#' {
            text.extend_from_slice(number)?;
        } else {
            text.push(*byte)?;
        }
    }
    Ok(())
}

// What is added each time.
fn push_once(
    alloc: Global,
    piece: &mut Vec<u8>,
    marks: Marks,
    words: &[u8],
    texts: &[TextFile],
) -> Result<(), Unread> {
    if marks.is_named {
        piece.extend_from_slice(named(texts, words.trim_ascii())?)?;
        return Ok(());
    }
    if marks.is_escaped {
        push_unescaped(alloc, piece, words)?;
    } else {
        piece.extend_from_slice(words)?;
    }
    if !marks.is_open {
        piece.push(b'\n')?;
    }
    Ok(())
}

/// The text of this name: the last one above, where there are several.
pub fn named<'a>(texts: &'a [TextFile], name: &[u8]) -> Result<&'a [u8], Mistake> {
    for text in texts.iter().rev() {
        if text.name.as_slice() == name {
            return Ok(&text.bytes);
        }
    }
    Err(Mistake::NoText)
}

fn marks_of(marks: &[u8]) -> Result<Marks, Mistake> {
    let (is_escaped, marks) = mark(marks, b"%");
    let (is_open, marks) = mark(marks, b".");
    let (is_named, marks) = mark(marks, b"<");
    let (is_counted, marks) = mark(marks, b"#");
    Ok(Marks {
        is_escaped,
        is_open,
        is_named,
        is_counted,
        times: times_of(marks)?,
    })
}

// Whether this mark stands here, and what stands behind it.
fn mark<'a>(marks: &'a [u8], mark: &[u8]) -> (bool, &'a [u8]) {
    match marks.strip_prefix(mark) {
        Some(rest) => (true, rest),
        None => (false, marks),
    }
}

fn times_of(marks: &[u8]) -> Result<u32, Mistake> {
    if marks.is_empty() {
        return Ok(1);
    }
    match marks.strip_prefix(b"*") {
        Some(times) => number_of(times),
        None => Err(Mistake::Marks),
    }
}
