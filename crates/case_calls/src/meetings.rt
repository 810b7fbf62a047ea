// Where the hosts of two workers meet: in each phase both wait for one another.
use std::sync::atomic::AtomicU64;
use std::sync::atomic::Ordering::SeqCst;
use std::thread;

// How often a host looks for another before it gives up.
const TURNS: u64 = 1 << 28;

/// The meetings of a call, one in each phase.
#[derive(Drop)]
pub struct Meetings {
    pub map: Meeting,
    pub reduce: Meeting,
}

/// A meeting: how many hosts came, and how many saw that another had.
#[derive(Drop)]
pub struct Meeting {
    came: AtomicU64,
    met: AtomicU64,
}

impl Meetings {
    /// Nobody came to either.
    pub fn new() -> Meetings {
        Meetings {
            map: Meeting::new(),
            reduce: Meeting::new(),
        }
    }
}

impl Meeting {
    // Nobody came.
    fn new() -> Meeting {
        Meeting {
            came: AtomicU64::new(0),
            met: AtomicU64::new(0),
        }
    }

    /// Whether two came, and saw it.
    pub fn was_held(&self) -> bool {
        self.met.load(SeqCst) >= 2
    }

    /// A host comes, and waits for another.
    pub fn enter(&self) {
        self.came.fetch_add(1, SeqCst);
        for _ in 0..TURNS {
            if self.came.load(SeqCst) >= 2 {
                self.met.fetch_add(1, SeqCst);
                return;
            }
            thread::yield_now();
        }
    }
}
