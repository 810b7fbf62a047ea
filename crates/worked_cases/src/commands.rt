// A command line, as it is written.
use crate::cases::Command;
use crate::mistakes::Unread;
use crate::numbers::{parts, unescaped};
use std::alloc::Global;

/// The command line of the words behind the program's name.
pub fn command_of(alloc: Global, line: &[u8]) -> Result<Command, Unread> {
    let mut command = Command {
        line: Vec::from_slice(alloc, line)?,
        words: Vec::new(alloc),
    };
    push_words(alloc, &mut command.words, line)?;
    Ok(command)
}

// The program's name, and the words behind it.
fn push_words(alloc: Global, words: &mut Vec<String>, line: &[u8]) -> Result<(), Unread> {
    words.push(String::from_str(alloc, "flume")?)?;
    for word in &parts(alloc, line, b' ')? {
        push_word(alloc, words, word)?;
    }
    Ok(())
}

// Adds a word that has bytes.
fn push_word(alloc: Global, words: &mut Vec<String>, word: &[u8]) -> Result<(), Unread> {
    if !word.is_empty() {
        words.push(word_of(alloc, word)?)?;
    }
    Ok(())
}

// A word in which `%` and two hexadecimal digits are a byte; `%` alone is the word with no bytes.
fn word_of(alloc: Global, word: &[u8]) -> Result<String, Unread> {
    if word == b"%".as_slice() {
        return Ok(String::new(alloc));
    }
    unescaped(alloc, word)
}
