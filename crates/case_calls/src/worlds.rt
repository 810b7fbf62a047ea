// The world of a call: what the memory forms hold, and which of their calls fail.
ghost use Rattle.std.specs.Prelude.{◌≡◌, IfOk, vec_len};

use crate::hosts::CaseHost;
use crate::meetings::Meetings;
use crate::rooms::fitting;
use flume_value::{Pile, Str};
use memory_outside::{MemHost, MemScreen, MemShelf, MemSource};
use outside::File;
use std::alloc::{AllocError, Global};
use worked_cases::{Case, Faults, HostDown, TextFile};

/// The outside of a call.
#[derive(Drop)]
pub struct World<'a> {
    pub source: MemSource,
    pub shelf: MemShelf,
    pub screen: MemScreen,
    pub hosts: Vec<CaseHost<'a>>,
}

const HOSTS: u32 = 16;

// The most bytes that a screen takes.
const SCREEN: u64 = 2_000_000;

impl<'a> World<'a> {
    /// The world of a case, with these files before its own, in which these calls fail, and whose
    /// hosts meet there, where they do.
    pub fn new(
        alloc: Global,
        case: &Case,
        kept: &[TextFile],
        faults: &Faults,
        meetings: &'a Meetings,
    ) -> Result<World<'a>, AllocError>
        ensures { IfOk result (λ world. vec_len world.hosts ≡ 16) }
    {
        let meetings = if case.hosts_meet {
            Some(meetings)
        } else {
            None
        };
        Ok(World {
            source: source_of(alloc, kept, &case.files, faults)?,
            shelf: shelf_of(alloc, case, faults)?,
            screen: screen_of(alloc, faults)?,
            hosts: hosts_of(alloc, &faults.hosts, meetings)?,
        })
    }
}

// Of two files of one name the first is read.
fn source_of(
    alloc: Global,
    kept: &[TextFile],
    texts: &[TextFile],
    faults: &Faults,
) -> Result<MemSource, AllocError> {
    let step = faults.step.unwrap_or(u32::MAX).max(1);
    let fails = Pile::from_vec(Vec::from_slice(alloc, &faults.source)?);
    let files = files_of(alloc, kept, texts)?;
    MemSource::with_step(alloc, files, fails, step)
}

fn shelf_of(alloc: Global, case: &Case, faults: &Faults) -> Result<MemShelf, AllocError> {
    let room = case.room;
    let fails = Pile::from_vec(Vec::from_slice(alloc, &faults.shelf)?);
    let files = fitting(alloc, files_of(alloc, &case.before, &[])?, room);
    MemShelf::new(alloc, files, fails, room.files, room.bytes)
}

fn screen_of(alloc: Global, faults: &Faults) -> Result<MemScreen, AllocError> {
    let fails = Pile::from_vec(Vec::from_slice(alloc, &faults.screen)?);
    MemScreen::new(alloc, fails, SCREEN)
}

fn files_of(
    alloc: Global,
    front: &[TextFile],
    back: &[TextFile],
) -> Result<Pile<File>, AllocError> {
    let mut files = Pile::new(alloc);
    push_files(alloc, &mut files, front)?;
    push_files(alloc, &mut files, back)?;
    Ok(files)
}

fn push_files(alloc: Global, files: &mut Pile<File>, texts: &[TextFile]) -> Result<(), AllocError> {
    for text in texts {
        files.push(file_of(alloc, text)?)?;
    }
    Ok(())
}

fn file_of(alloc: Global, text: &TextFile) -> Result<File, AllocError> {
    Ok(File {
        name: Str::from_slice(alloc, &text.name)?,
        bytes: Str::from_slice(alloc, &text.bytes)?,
    })
}

fn hosts_of<'a>(
    alloc: Global,
    downs: &[HostDown],
    meetings: Option<&'a Meetings>,
) -> Result<Vec<CaseHost<'a>>, AllocError>
    ensures { IfOk result (λ hosts. vec_len hosts ≡ 16) }
{
    let mut hosts = Vec::new(alloc);
    for number in 0..HOSTS {
        let host = host_of(alloc, downs, number)?;
        hosts.push(CaseHost::new(host, meetings))?;
    }
    Ok(hosts)
}

// The host of this number, with the places at which it is down.
fn host_of(alloc: Global, downs: &[HostDown], host: u32) -> Result<MemHost, AllocError> {
    let mut places = Pile::new(alloc);
    for down in downs {
        if down.number.unwrap_or(host) == host {
            places.push(down.at)?;
        }
    }
    MemHost::new(alloc, places, 0)
}
