// A case: the calls that are made, over what world.
use memory_outside::Fail;
use outside::At;
use std::alloc::{AllocError, Global};

/// A case.
#[derive(Drop)]
pub struct Case {
    /// Its name.
    pub name: Vec<u8>,
    /// The command lines that are called, in order.
    pub commands: Vec<Command>,
    /// The files of the source.
    pub files: Vec<TextFile>,
    /// The files that it has behind the first call, in place of those of the same names.
    pub later: Vec<TextFile>,
    /// The files that the shelf has before each call.
    pub before: Vec<TextFile>,
    /// The file of the source, by its name, that the screen of the first call is for those behind.
    pub keeps: Option<Vec<u8>>,
    /// The entries that the cache has at the first: each has its key as its name.
    pub entries: Vec<TextFile>,
    /// The room of the shelf.
    pub room: Room,
    /// What fails in each call.
    pub always: Faults,
    /// What fails in further calls of each command.
    pub whens: Vec<When>,
    /// Whether each two of those are also met together.
    pub has_pairs: bool,
    /// Whether each call has a cache of its own, and is made once more over what that has then.
    pub is_twice: bool,
    /// Whether the losses of the hosts are told.
    pub tells_losses: bool,
    /// Whether hosts wait for one another in each phase, and it is told whether they met.
    pub hosts_meet: bool,
}

/// A command line: as it is written, and its words, with the program's name first.
#[derive(Drop)]
pub struct Command {
    pub line: Vec<u8>,
    pub words: Vec<String>,
}

/// A file, or an entry of a cache: its name and its bytes.
#[derive(Drop)]
pub struct TextFile {
    pub name: Vec<u8>,
    pub bytes: Vec<u8>,
}

/// For how many files, and how many bytes in all, their names included, a shelf has room.
#[derive(Clone, Copy)]
pub struct Room {
    pub files: u32,
    pub bytes: u64,
}

/// What fails in one more call: as it is written, and each part.
#[derive(Drop)]
pub struct When {
    pub line: Vec<u8>,
    pub faults: Faults,
}

/// The calls of the outside that fail, or give little.
#[derive(Drop)]
pub struct Faults {
    /// Each read of the source gives so many bytes at most, one at least.
    pub step: Option<u32>,
    /// The calls of the source.
    pub source: Vec<Fail>,
    /// The calls of the shelf.
    pub shelf: Vec<Fail>,
    /// The calls of the screen, by their numbers from 0.
    pub screen: Vec<u32>,
    /// The calls of the cache, by their numbers from 0.
    pub cache: Vec<u32>,
    /// Where hosts are down.
    pub hosts: Vec<HostDown>,
}

/// The host of this number is down at this place; with no number, each host is.
#[derive(Clone, Copy)]
pub struct HostDown {
    pub number: Option<u32>,
    pub at: At,
}

const ROOM: Room = Room {
    files: 4,
    bytes: 100_000,
};

/// For how many entries, and how many bytes in all, their keys included, a cache has room.
pub const CACHE_ROOM: Room = Room {
    files: 8,
    bytes: 20_000,
};

impl Case {
    /// A case of this name with nothing in it.
    pub fn new(alloc: Global, name: Vec<u8>) -> Case {
        Case {
            name,
            commands: Vec::new(alloc),
            files: Vec::new(alloc),
            later: Vec::new(alloc),
            before: Vec::new(alloc),
            keeps: None,
            entries: Vec::new(alloc),
            room: ROOM,
            always: Faults::new(alloc),
            whens: Vec::new(alloc),
            has_pairs: false,
            is_twice: false,
            tells_losses: false,
            hosts_meet: false,
        }
    }
}

impl Faults {
    /// No call fails.
    pub fn new(alloc: Global) -> Faults {
        Faults {
            step: None,
            source: Vec::new(alloc),
            shelf: Vec::new(alloc),
            screen: Vec::new(alloc),
            cache: Vec::new(alloc),
            hosts: Vec::new(alloc),
        }
    }

    /// These fail too; of two steps the last one counts.
    pub fn add(&mut self, others: &Faults) -> Result<(), AllocError> {
        self.step = others.step.or(self.step);
        self.source.extend_from_slice(&others.source)?;
        self.shelf.extend_from_slice(&others.shelf)?;
        self.screen.extend_from_slice(&others.screen)?;
        self.cache.extend_from_slice(&others.cache)?;
        self.hosts.extend_from_slice(&others.hosts)?;
        Ok(())
    }
}
