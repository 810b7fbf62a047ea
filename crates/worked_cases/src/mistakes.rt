// What can be wrong with a file of cases.
use std::alloc::{AllocError, AllocFailed};

/// What is wrong with a line.
#[derive(Clone, Copy)]
pub enum Mistake {
    /// It begins with no word of a case.
    Unknown,
    /// It stands before all cases.
    Front,
    /// It belongs to a case, and stands in a text.
    NoCase,
    /// There is no name.
    NoName,
    /// There is more than the word.
    TooMuch,
    /// It is a text of nothing.
    NoFile,
    /// The marks of a text are none, or out of their order.
    Marks,
    /// A byte has no two digits.
    Escape,
    /// There is no number.
    Number,
    /// The text that it names is not there.
    NoText,
    /// The text grows too long.
    TooLong,
    /// A word or a name is not UTF-8.
    Utf8,
    /// It names no fault.
    Fault,
    /// It names no place.
    Place,
    /// The files before do not fit the shelf, or the entries the cache.
    NoRoom,
    /// The case has no command line.
    NoCall,
}

impl Mistake {
    /// What is wrong, in words.
    pub fn says(self) -> &'static str {
        match self {
            Mistake::Unknown => { "no line of a case begins with this word" }
            Mistake::Front => "a line before the first `case` or `text`",
            Mistake::NoCase => "only a text may stand below `text NAME`",
            Mistake::NoName => "a name is wanted",
            Mistake::TooMuch => "nothing may stand behind this word",
            Mistake::NoFile => "a text with no script, file, before, later or entry above it",
            Mistake::Marks => {
                "behind | stand %, ., <, # and *TIMES, as they are wanted, and a blank"
            }
            Mistake::Escape => "% and two hexadecimal digits are a byte",
            Mistake::Number => "a number is wanted, in decimal",
            Mistake::NoText => "no text of this name stands above",
            Mistake::TooLong => "a text of more than 100,000,000 bytes",
            Mistake::Utf8 => "a word is UTF-8",
            Mistake::Fault => {
                "a fault is a step, or of source, shelf, screen, cache, a host or all hosts"
            }
            Mistake::Place => "a place is STAGE, m or r, TASK.ATTEMPT@PLACE, as 1m0.1@0",
            Mistake::NoRoom => "the files before, or the entries, do not fit their room",
            Mistake::NoCall => "a case without a flume line",
        }
    }
}

/// A mistake, the line that it stands on, and the case that it stands in.
#[derive(Drop)]
pub struct Misread {
    pub name: Vec<u8>,
    pub line: usize,
    pub mistake: Mistake,
}

/// Why a line gave nothing.
#[derive(Clone, Copy)]
pub enum Unread {
    /// Memory ran out.
    Memory,
    /// It is not as it must be.
    Wrong(Mistake),
}

impl From<AllocError> for Unread {
    fn from(_: AllocError) -> Unread {
        Unread::Memory
    }
}

impl<T: Drop> From<AllocFailed<T>> for Unread {
    fn from(_: AllocFailed<T>) -> Unread {
        Unread::Memory
    }
}

impl From<Mistake> for Unread {
    fn from(mistake: Mistake) -> Unread {
        Unread::Wrong(mistake)
    }
}
