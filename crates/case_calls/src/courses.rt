// What the calls of a case share, and what is told of them.
use crate::caches::cache_of;
use crate::calls::Call;
use crate::meetings::Meetings;
use crate::outcomes::{Seen, outcome_of};
use crate::pages::{Caller, Calls, Invocation};
use crate::worlds::World;
use case_reports::Report;
use memory_outside::MemCache;
use std::alloc::{AllocError, Global};
use std::mem::replace;
use std::thread::Threads;
use worked_cases::{Case, TextFile};

/// A case so far: the files that the source has behind the first call, the cache, and what is told.
#[derive(Drop)]
pub struct Course {
    kept: Vec<TextFile>,
    cache: MemCache,
    report: Report,
}

impl Course {
    /// The case with no call made.
    pub fn new(alloc: Global, case: &Case) -> Result<Course, AllocError> {
        let report = Report::new(alloc, &case.name)?;
        Ok(Course {
            kept: Vec::new(alloc),
            cache: cache_of(alloc, &case.entries, &case.always.cache)?,
            report,
        })
    }

    /// The page of the calls that were made.
    pub fn into_page(self) -> String {
        let Course {
            kept: _,
            cache: _,
            report,
        } = self;
        report.into_page()
    }

    /// A new cache, in which these fail.
    pub fn renew(&mut self, alloc: Global, case: &Case, call: &Call) -> Result<(), AllocError> {
        let cache = cache_of(alloc, &case.entries, &call.faults.cache)?;
        drop(replace(&mut self.cache, cache));
        Ok(())
    }

    /// Makes a call of a command, and tells what came of it.
    pub fn make<X: Threads + Sync, C: Caller>(
        &mut self,
        calls: &Calls<'_, X, C>,
        call: &Call,
    ) -> Result<(), AllocError> {
        let (alloc, case) = (calls.alloc, calls.case);
        let meetings = Meetings::new();
        let mut world = World::new(alloc, case, &self.kept, &call.faults, &meetings)?;
        let before = self.cache.faults();
        let with = Invocation {
            rt: calls.rt,
            alloc,
            words: &calls.command.words,
        };
        let status = calls.caller.call(&with, &mut world, &mut self.cache);
        let seen = Seen {
            cache: self.cache.faults().saturating_sub(before),
            entries: self.cache.entry_count(),
            met_in_map: meetings.map.was_held(),
            met_in_reduce: meetings.reduce.was_held(),
        };
        let told = self.tell(alloc, case, call, status, &world, seen);
        drop(world);
        told
    }

    fn tell(
        &mut self,
        alloc: Global,
        case: &Case,
        call: &Call,
        status: u8,
        world: &World<'_>,
        seen: Seen,
    ) -> Result<(), AllocError> {
        let outcome = outcome_of(alloc, case, status, world, seen)?;
        self.report.push(&call.head, outcome)?;
        if self.kept.is_empty() {
            keep(alloc, case, world, &mut self.kept)?;
        }
        Ok(())
    }
}

// Keeps the files that come in behind the first call, and its screen as one, where the case names
// some.
fn keep(
    alloc: Global,
    case: &Case,
    world: &World<'_>,
    kept: &mut Vec<TextFile>,
) -> Result<(), AllocError> {
    for file in &case.later {
        kept.push(text_file(alloc, &file.name, &file.bytes)?)?;
    }
    if let Some(name) = &case.keeps {
        kept.push(text_file(alloc, name, world.screen.text())?)?;
    }
    Ok(())
}

fn text_file(alloc: Global, name: &[u8], bytes: &[u8]) -> Result<TextFile, AllocError> {
    let name = Vec::from_slice(alloc, name)?;
    let bytes = Vec::from_slice(alloc, bytes)?;
    Ok(TextFile { name, bytes })
}
