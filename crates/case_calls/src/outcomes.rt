// What a call left of its world, as it is told.
use crate::hosts::CaseHost;
use crate::worlds::World;
use case_reports::{Counts, Outcome, push_name, push_text};
use memory_outside::MemShelf;
use std::alloc::{AllocError, Global};
use std::str;
use worked_cases::Case;

/// What is seen of a call beside its world.
#[derive(Clone, Copy)]
pub struct Seen {
    /// How often the cache failed.
    pub cache: u64,
    /// How many entries it has then.
    pub entries: usize,
    /// Whether two hosts met in each phase.
    pub met_in_map: bool,
    pub met_in_reduce: bool,
}

/// What the screen and the shelf hold, and what was counted.
pub fn outcome_of(
    alloc: Global,
    case: &Case,
    status: u8,
    world: &World<'_>,
    seen: Seen,
) -> Result<Outcome, AllocError> {
    let mut outcome = Outcome {
        status,
        screen: String::new(alloc),
        files: String::new(alloc),
        counts: counts_of(alloc, world, seen),
    };
    fill(alloc, &mut outcome, case, world)?;
    Ok(outcome)
}

fn counts_of(alloc: Global, world: &World<'_>, seen: Seen) -> Counts {
    Counts {
        source: world.source.faults(),
        shelf: world.shelf.faults(),
        screen: world.screen.faults(),
        cache: seen.cache,
        entries: seen.entries as u64,
        losses: Vec::new(alloc),
        met_in_map: seen.met_in_map,
        met_in_reduce: seen.met_in_reduce,
    }
}

// The texts of an outcome, and its losses where a case tells them.
fn fill(
    alloc: Global,
    outcome: &mut Outcome,
    case: &Case,
    world: &World<'_>,
) -> Result<(), AllocError> {
    push_text(alloc, &mut outcome.screen, world.screen.text())?;
    push_files(alloc, &mut outcome.files, &world.shelf)?;
    if case.tells_losses {
        push_losses(&mut outcome.counts.losses, &world.hosts)?;
    }
    Ok(())
}

fn push_files(alloc: Global, told: &mut String, shelf: &MemShelf) -> Result<(), AllocError> {
    for k in 0..shelf.file_count() {
        let name = shelf.name_at(k);
        told.push_str("file ")?;
        push_name(told, name)?;
        told.push('\n')?;
        if let Ok(name) = str::from_utf8(name) {
            push_text(alloc, told, shelf.bytes(name).unwrap_or(b""))?;
        }
    }
    Ok(())
}

fn push_losses(losses: &mut Vec<u64>, hosts: &[CaseHost<'_>]) -> Result<(), AllocError> {
    for host in hosts {
        losses.push(host.losses())?;
    }
    Ok(())
}
