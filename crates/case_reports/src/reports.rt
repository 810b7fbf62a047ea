// What came of the calls of a case, each told against those before.
use crate::telling::{push_number, push_words};
use std::alloc::{AllocError, Global};

/// What a call leaves, as it is told.
#[derive(Drop)]
pub struct Outcome {
    /// The exit status.
    pub status: u8,
    /// What the screen got.
    pub screen: String,
    /// All files of the shelf.
    pub files: String,
    /// What was counted in it.
    pub counts: Counts,
}

/// What is counted in a call.
#[derive(Drop)]
pub struct Counts {
    /// How often the source, the shelf, the screen and the cache failed.
    pub source: u64,
    pub shelf: u64,
    pub screen: u64,
    pub cache: u64,
    /// How many entries the cache has then.
    pub entries: u64,
    /// How often each host was down, where that is told.
    pub losses: Vec<u64>,
    /// Whether two hosts met in each phase, where they were to wait for one another.
    pub met_in_map: bool,
    pub met_in_reduce: bool,
}

/// The page of a case so far: what is told of its calls, and what each of them left.
#[derive(Drop)]
pub struct Report {
    page: String,
    outcomes: Vec<Outcome>,
}

/// What two calls can have left alike.
#[derive(Clone, Copy)]
enum Part {
    All,
    Screen,
    Files,
}

impl Report {
    /// The page of a case of this name, with no call.
    pub fn new(alloc: Global, name: &[u8]) -> Result<Report, AllocError> {
        let mut report = Report {
            page: String::new(alloc),
            outcomes: Vec::new(alloc),
        };
        push_title(&mut report.page, name, "\n")?;
        Ok(report)
    }

    /// The page.
    pub fn into_page(self) -> String {
        let Report { page, outcomes: _ } = self;
        page
    }

    /// Tells what came of a call: what it left, or which call before left the same.
    pub fn push(&mut self, head: &[u8], outcome: Outcome) -> Result<(), AllocError> {
        self.outcomes.push(outcome)?;
        push_last(&mut self.page, head, &self.outcomes)
    }
}

/// Tells the name of a case, and what stands behind it.
pub fn push_title(page: &mut String, name: &[u8], back: &str) -> Result<(), AllocError> {
    page.push_str("case ")?;
    push_words(page, name, true)?;
    page.push_str(back)
}

// The last of these calls, with its number and its command line.
fn push_last(page: &mut String, head: &[u8], outcomes: &[Outcome]) -> Result<(), AllocError> {
    let Some((outcome, before)) = outcomes.split_last() else {
        return Ok(());
    };
    push_number(page, "", outcomes.len() as u64, " ")?;
    push_words(page, head, false)?;
    match first_like(before, outcome, Part::All) {
        Some(call) => push_same(page, call, &outcome.counts),
        None => push_new(page, before, outcome),
    }
}

fn push_same(page: &mut String, call: u64, counts: &Counts) -> Result<(), AllocError> {
    push_number(page, ": as ", call, "")?;
    push_counts(page, counts)
}

fn push_new(page: &mut String, before: &[Outcome], outcome: &Outcome) -> Result<(), AllocError> {
    push_number(page, ": status ", u64::from(outcome.status), "")?;
    push_counts(page, &outcome.counts)?;
    push_screen(page, before, outcome)?;
    push_files(page, before, outcome)
}

fn push_screen(page: &mut String, before: &[Outcome], outcome: &Outcome) -> Result<(), AllocError> {
    match first_like(before, outcome, Part::Screen) {
        Some(call) => push_number(page, "screen as ", call, "\n"),
        None => {
            page.push_str("screen\n")?;
            page.push_str(outcome.screen.as_str())
        }
    }
}

// The files, where there are some.
fn push_files(page: &mut String, before: &[Outcome], outcome: &Outcome) -> Result<(), AllocError> {
    if outcome.files.is_empty() {
        return Ok(());
    }
    match first_like(before, outcome, Part::Files) {
        Some(call) => push_number(page, "files as ", call, "\n"),
        None => page.push_str(outcome.files.as_str()),
    }
}

// The number of the first call that left the same.
fn first_like(before: &[Outcome], outcome: &Outcome, part: Part) -> Option<u64> {
    let mut call = 0u64;
    for left in before {
        call = call.saturating_add(1);
        if is_like(left, outcome, part) {
            return Some(call);
        }
    }
    None
}

// Whether two calls left the same.
fn is_like(left: &Outcome, outcome: &Outcome, part: Part) -> bool {
    let is_screen = left.screen.as_str() == outcome.screen.as_str();
    let are_files = left.files.as_str() == outcome.files.as_str();
    match part {
        Part::All => is_screen && are_files && left.status == outcome.status,
        Part::Screen => is_screen,
        Part::Files => are_files,
    }
}

// What was counted, on the line of the call.
fn push_counts(page: &mut String, counts: &Counts) -> Result<(), AllocError> {
    push_count(page, ", source failed ", counts.source)?;
    push_count(page, ", shelf failed ", counts.shelf)?;
    push_count(page, ", screen failed ", counts.screen)?;
    push_count(page, ", cache failed ", counts.cache)?;
    push_count(page, ", cache has ", counts.entries)?;
    push_losses(page, &counts.losses)?;
    push_meetings(page, counts)?;
    page.push('\n')
}

fn push_losses(page: &mut String, losses: &[u64]) -> Result<(), AllocError> {
    for (host, losses) in losses.iter().enumerate() {
        if *losses > 0 {
            push_number(page, ", host ", host as u64, " lost ")?;
            push_number(page, "", *losses, "")?;
        }
    }
    Ok(())
}

fn push_meetings(page: &mut String, counts: &Counts) -> Result<(), AllocError> {
    if counts.met_in_map {
        page.push_str(", hosts met in map")?;
    }
    if counts.met_in_reduce {
        page.push_str(", hosts met in reduce")?;
    }
    Ok(())
}

// A count that is not 0.
fn push_count(page: &mut String, name: &str, count: u64) -> Result<(), AllocError> {
    if count == 0 {
        return Ok(());
    }
    push_number(page, name, count, "")
}
