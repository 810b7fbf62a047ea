// Reading a file of cases: an entry for each case, which is the case or the first mistake in it.
use crate::cases::{Case, TextFile};
use crate::drafts::fill;
use crate::headings::{Heading, heading_of};
use crate::lines::{Line, line_of};
use crate::mistakes::{Misread, Mistake, Unread};
use crate::numbers::parts;
use crate::pieces::push_piece;
use std::alloc::{AllocError, Global};

/// What a file of cases has under a name.
#[derive(Drop)]
pub enum Entry {
    Case(Case),
    Misread(Misread),
}

/// All cases of a text, in order. A case or a text that has a mistake is told by its first one.
pub fn read_cases(alloc: Global, text: &[u8]) -> Result<Vec<Entry>, AllocError> {
    let lines = parts(alloc, text, b'\n')?;
    let mut entries = Vec::new(alloc);
    push_entries(alloc, &mut entries, &lines)?;
    Ok(entries)
}

// A block of lines is a heading and what stands below it; lines may stand before the first.
fn push_entries(
    alloc: Global,
    entries: &mut Vec<Entry>,
    lines: &[&[u8]],
) -> Result<(), AllocError> {
    let mut texts = Vec::new(alloc);
    let mut before = 0usize;
    for block in lines.chunk_by(|_, line| matches!(heading_of(line), Heading::Front)) {
        read_block(alloc, block, before, &mut texts, entries)?;
        before = before.saturating_add(block.len());
    }
    Ok(())
}

// Adds what a block has: a text, a case, or the first mistake in it.
fn read_block(
    alloc: Global,
    block: &[&[u8]],
    before: usize,
    texts: &mut Vec<TextFile>,
    entries: &mut Vec<Entry>,
) -> Result<(), AllocError> {
    let Some((first, lines)) = block.split_first() else {
        return Ok(());
    };
    let heading = heading_of(first);
    // the number of the line that was read last
    let mut at = before;
    let read = match heading {
        Heading::Front => read_front(block, &mut at),
        Heading::Text(name) => read_text(alloc, name, lines, texts, &mut at),
        Heading::Case(name) => read_case(alloc, name, lines, texts, entries, &mut at),
    };
    match read {
        Ok(()) => Ok(()),
        Err(Unread::Memory) => Err(AllocError),
        Err(Unread::Wrong(mistake)) => push_misread(alloc, entries, heading.name(), at, mistake),
    }
}

fn push_misread(
    alloc: Global,
    entries: &mut Vec<Entry>,
    name: &[u8],
    line: usize,
    mistake: Mistake,
) -> Result<(), AllocError> {
    let name = Vec::from_slice(alloc, name)?;
    entries.push(Entry::Misread(Misread {
        name,
        line,
        mistake,
    }))?;
    Ok(())
}

// Before the first heading nothing is said.
fn read_front(lines: &[&[u8]], at: &mut usize) -> Result<(), Unread> {
    for line in lines {
        *at = at.saturating_add(1);
        if !matches!(line_of(line), Ok(Line::Blank)) {
            return Err(Unread::Wrong(Mistake::Front));
        }
    }
    Ok(())
}

// A text is for the cases below.
fn read_text(
    alloc: Global,
    name: &[u8],
    lines: &[&[u8]],
    texts: &mut Vec<TextFile>,
    at: &mut usize,
) -> Result<(), Unread> {
    let mut text = TextFile {
        name: Vec::from_slice(alloc, name)?,
        bytes: Vec::new(alloc),
    };
    push_lines(alloc, &mut text.bytes, lines, texts, at)?;
    texts.push(text)?;
    Ok(())
}

// The lines of a text.
fn push_lines(
    alloc: Global,
    text: &mut Vec<u8>,
    lines: &[&[u8]],
    texts: &[TextFile],
    at: &mut usize,
) -> Result<(), Unread> {
    *at = at.saturating_add(1);
    for line in lines {
        *at = at.saturating_add(1);
        match line_of(line)? {
            Line::Blank => {}
            Line::Piece(piece) => push_piece(alloc, text, piece, texts)?,
            Line::Said { .. } => return Err(Unread::Wrong(Mistake::NoCase)),
        }
    }
    Ok(())
}

fn read_case(
    alloc: Global,
    name: &[u8],
    lines: &[&[u8]],
    texts: &[TextFile],
    entries: &mut Vec<Entry>,
    at: &mut usize,
) -> Result<(), Unread> {
    let mut case = Case::new(alloc, Vec::from_slice(alloc, name)?);
    match fill(alloc, &mut case, lines, texts, at) {
        Ok(()) => {
            entries.push(Entry::Case(case))?;
            Ok(())
        }
        Err(unread) => {
            drop(case);
            Err(unread)
        }
    }
}
