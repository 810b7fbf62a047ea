// A text as it is told: by the same lines that a case has it written in.
use std::alloc::{AllocError, Global};

// The most lines, and the most bytes in them, that a text is told by. Equal lines in a row are one.
const MOST_LINES: usize = 40;

const MOST_BYTES: usize = 4000;

// As often in a row is a line told once, with its number.
const MANY: usize = 3;

/// Tells a text, by its lines and, where it is long, by its length and its hash.
pub fn push_text(alloc: Global, told: &mut String, text: &[u8]) -> Result<(), AllocError> {
    let lines: Vec<&[u8]> = text.split_inclusive(|b| *b == b'\n').collect(alloc)?;
    push_runs(told, text, &lines)
}

/// Tells a name, on a line.
pub fn push_name(told: &mut String, name: &[u8]) -> Result<(), AllocError> {
    push_words(told, name, true)
}

/// Tells words on a line: a byte that is not plain by its digits, and `%` too where it is escaped.
pub fn push_words(told: &mut String, words: &[u8], is_escaped: bool) -> Result<(), AllocError> {
    for byte in words {
        push_byte(told, *byte, is_escaped)?;
    }
    Ok(())
}

/// Tells a number between two texts.
pub fn push_number(
    told: &mut String,
    front: &str,
    number: u64,
    back: &str,
) -> Result<(), AllocError> {
    write!(told, "{front}{number}{back}")
}

// A text of these lines.
fn push_runs(told: &mut String, text: &[u8], lines: &[&[u8]]) -> Result<(), AllocError> {
    let mut count = 0usize;
    let mut bytes = 0usize;
    for same in lines.chunk_by(|a, b| a == b) {
        let Some(line) = same.first() else {
            continue;
        };
        count = count.saturating_add(1);
        bytes = bytes.saturating_add(line.len());
        if count > MOST_LINES || bytes > MOST_BYTES {
            return push_whole(told, text, lines.len());
        }
        push_lines(told, line, same.len())?;
    }
    Ok(())
}

// What is told of a text that is too long.
fn push_whole(told: &mut String, text: &[u8], lines: usize) -> Result<(), AllocError> {
    let bytes = text.len();
    let hash = hash_of(text);
    write!(
        told,
        ".. {lines} lines in all, {bytes} bytes, FNV-1a {hash:016x}\n"
    )
}

// A line that stands so many times in a row.
fn push_lines(told: &mut String, line: &[u8], times: usize) -> Result<(), AllocError> {
    if times >= MANY {
        return push_line(told, line, times);
    }
    for _turn in 0..times {
        push_line(told, line, 1)?;
    }
    Ok(())
}

fn push_line(told: &mut String, line: &[u8], times: usize) -> Result<(), AllocError> {
    let words = line.strip_suffix(b"\n").unwrap_or(line);
    let is_escaped = !are_plain(words);
    told.push_str(marks(is_escaped, words.len() == line.len()))?;
    push_times(told, times)?;
    if !words.is_empty() {
        told.push(' ')?;
    }
    push_words(told, words, is_escaped)?;
    told.push('\n')
}

// How a line is meant: whether bytes are told by their digits, and whether it has no LF.
fn marks(is_escaped: bool, is_open: bool) -> &'static str {
    match (is_escaped, is_open) {
        (false, false) => "|",
        (false, true) => "|.",
        (true, false) => "|%",
        (true, true) => "|%.",
    }
}

fn push_times(told: &mut String, times: usize) -> Result<(), AllocError> {
    if times < 2 {
        return Ok(());
    }
    push_number(told, "*", times as u64, "")
}

// A byte, by its hexadecimal digits where it is not plain, or the sign of those.
fn push_byte(told: &mut String, byte: u8, is_escaped: bool) -> Result<(), AllocError> {
    if is_plain(byte) && !(is_escaped && byte == b'%') {
        told.push(char::from(byte))
    } else {
        write!(told, "%{byte:02X}")
    }
}

fn are_plain(words: &[u8]) -> bool {
    for byte in words {
        if !is_plain(*byte) {
            return false;
        }
    }
    true
}

// It is a sign of ASCII, or a blank.
fn is_plain(byte: u8) -> bool {
    byte == b' ' || byte.is_ascii_graphic()
}

// FNV-1a with 64 bits.
fn hash_of(text: &[u8]) -> u64 {
    let mut hash: u64 = 0xcbf2_9ce4_8422_2325;
    for byte in text {
        hash = (hash ^ u64::from(*byte)).wrapping_mul(0x0100_0000_01b3);
    }
    hash
}
