// The host of a case: one in memory, which may wait for another.
use crate::meetings::{Meeting, Meetings};
use memory_outside::MemHost;
use outside::{At, Down, Host, Phase};

/// A host in memory that has yet to enter these meetings, each at its first pass of a phase.
#[derive(Drop)]
pub struct CaseHost<'a> {
    host: MemHost,
    map: Option<&'a Meeting>,
    reduce: Option<&'a Meeting>,
}

impl<'a> CaseHost<'a> {
    /// The host, which meets another where there are meetings.
    pub fn new(host: MemHost, meetings: Option<&'a Meetings>) -> CaseHost<'a> {
        match meetings {
            Some(meetings) => CaseHost {
                host,
                map: Some(&meetings.map),
                reduce: Some(&meetings.reduce),
            },
            None => CaseHost {
                host,
                map: None,
                reduce: None,
            },
        }
    }

    /// How often it was down.
    pub fn losses(&self) -> u64 {
        self.host.losses()
    }
}

impl<'a> Host for CaseHost<'a> {
    ghost use Rattle.memory_outside.specs.Hosts.{account_of};

    ghost account = { λ h. account_of h.host };

    fn pass(&mut self, at: At) -> Result<(), Down> {
        let meeting = match at.phase {
            Phase::Map => self.map.take(),
            Phase::Reduce => self.reduce.take(),
        };
        if let Some(meeting) = meeting {
            meeting.enter();
        }
        self.host.pass(at)
    }
}
