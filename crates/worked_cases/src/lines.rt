// What a line of a case says.
use crate::mistakes::Mistake;
use crate::numbers::first_word;

/// A line, by what it begins with.
#[derive(Clone, Copy)]
pub enum Line<'a> {
    /// It is blank, or a comment.
    Blank,
    /// A part of a text: what stands behind the `|`.
    Piece(&'a [u8]),
    /// A word, and what stands behind it.
    Said { word: Word, rest: &'a [u8] },
}

/// The words that a line of a case begins with.
#[derive(Clone, Copy)]
pub enum Word {
    Flume,
    Calls,
    Script,
    File,
    Before,
    Later,
    Entry,
    Value,
    Room,
    Fails,
    When,
    Pairs,
    Losses,
    Meets,
    Keeps,
    Twice,
}

impl Word {
    /// Whether a text stands below it.
    pub fn is_of_text(self) -> bool {
        matches!(
            self,
            Word::Script | Word::File | Word::Before | Word::Later | Word::Entry | Word::Value
        )
    }
}

const WORDS: [(&[u8], Word); 16] = [
    (b"flume", Word::Flume),
    (b"calls", Word::Calls),
    (b"script", Word::Script),
    (b"file", Word::File),
    (b"before", Word::Before),
    (b"later", Word::Later),
    (b"entry", Word::Entry),
    (b"value", Word::Value),
    (b"room", Word::Room),
    (b"fails", Word::Fails),
    (b"when", Word::When),
    (b"pairs", Word::Pairs),
    (b"losses", Word::Losses),
    (b"meets", Word::Meets),
    (b"keeps", Word::Keeps),
    (b"twice", Word::Twice),
];

/// What this line says.
pub fn line_of(line: &[u8]) -> Result<Line<'_>, Mistake> {
    if let Some(piece) = line.strip_prefix(b"|") {
        return Ok(Line::Piece(piece));
    }
    let line = line.trim_ascii();
    if line.is_empty() || line.starts_with(b"#") {
        return Ok(Line::Blank);
    }
    let (first, rest) = first_word(line);
    for (name, word) in &WORDS {
        if *name == first {
            return Ok(Line::Said { word: *word, rest });
        }
    }
    Err(Mistake::Unknown)
}
