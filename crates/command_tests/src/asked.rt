// What words ask for: the numbers of a run, which attempts are lost, and by whose plan it goes.
use command_words::{Asked, CachedRun, Command, Workload, asked_for, cached_for, workload_for};
use crew::Entry;
use outside::{FileName, Phase};
use run_settings::Settings;
use std::alloc::{AllocError, Global};
use std::test::Fail;

/// An attempt to be lost: its stage, phase, task and number.
type Lost = (u32, Phase, u32, u32);

/// What words ask for.
#[derive(Clone, Copy)]
enum Wanted {
    /// A run of the script `s` by the plan of this file, or where none is named by its own.
    Run(Option<&'static str>),
    /// A run of it that reuses what is kept.
    Cached,
    /// A made input.
    Made(Workload),
    /// Nothing at all.
    Nothing,
}

/// Words, what they ask for, the numbers of workers, shards, partitions and tries, and the attempts
/// to be lost.
type Row = (&'static [&'static str], Wanted, [u32; 4], &'static [Lost]);

const USUAL: [u32; 4] = [2, 2, 2, 2];

const OWN: Wanted = Wanted::Run(None);

const MADE: Wanted = Wanted::Made(Workload {
    start: 10,
    rows: 999_999,
});

static ROWS: [Row; 21] = [
    (&["flume", "run", "s"], OWN, USUAL, &[]),
    // the program's own name may be any word
    (&["", "run", "s"], OWN, USUAL, &[]),
    (
        &["flume", "run", "--workers", "16", "s"],
        OWN,
        [16, 2, 2, 2],
        &[],
    ),
    (
        &["flume", "run", "s", "--workers", "1"],
        OWN,
        [1, 2, 2, 2],
        &[],
    ),
    (
        &["flume", "run", "s", "--shards", "1024"],
        OWN,
        [2, 1024, 2, 2],
        &[],
    ),
    (
        &["flume", "run", "--partitions", "64", "s"],
        OWN,
        [2, 2, 64, 2],
        &[],
    ),
    (
        &["flume", "run", "s", "--tries", "8"],
        OWN,
        [2, 2, 2, 8],
        &[],
    ),
    (
        &["flume", "run", "s", "--fail", "1m0.1,2r3.2"],
        OWN,
        USUAL,
        &[(1, Phase::Map, 0, 1), (2, Phase::Reduce, 3, 2)],
    ),
    (
        &["flume", "run", "--fail", "999999999r999999999.8", "s"],
        OWN,
        USUAL,
        &[(999_999_999, Phase::Reduce, 999_999_999, 8)],
    ),
    (
        &[
            "flume",
            "run",
            "--partitions",
            "4",
            "--tries",
            "1",
            "s",
            "--fail",
            "1m0.1",
            "--workers",
            "3",
            "--shards",
            "5",
        ],
        OWN,
        [3, 5, 4, 1],
        &[(1, Phase::Map, 0, 1)],
    ),
    // beyond the grammar: a value may stand behind `=`, and what stands behind `--` is no option
    (
        &["flume", "run", "--workers=3", "s"],
        OWN,
        [3, 2, 2, 2],
        &[],
    ),
    (
        &["flume", "run", "--shards", "7", "--", "s"],
        OWN,
        [2, 7, 2, 2],
        &[],
    ),
    (
        &["flume", "run", "s", "--plan", "p.json"],
        Wanted::Run(Some("p.json")),
        USUAL,
        &[],
    ),
    (
        &["flume", "run", "--plan", "s", "s"],
        Wanted::Run(Some("s")),
        USUAL,
        &[],
    ),
    (
        &["flume", "run", "s", "--plan=p q"],
        Wanted::Run(Some("p q")),
        USUAL,
        &[],
    ),
    (&["", "run", "--cached", "s"], Wanted::Cached, USUAL, &[]),
    (
        &["flume", "run", "s", "--cached", "--workers", "3"],
        Wanted::Cached,
        [3, 2, 2, 2],
        &[],
    ),
    (
        &["flume", "run", "--fail", "1m0.1", "s", "--cached"],
        Wanted::Cached,
        USUAL,
        &[(1, Phase::Map, 0, 1)],
    ),
    (&["", "make", "10", "999999"], MADE, USUAL, &[]),
    (&["make", "8", "4"], Wanted::Nothing, USUAL, &[]),
    (&[], Wanted::Nothing, USUAL, &[]),
];

/// The words as owned texts.
fn texts(alloc: Global, words: &[&str]) -> Result<Vec<String>, AllocError> {
    let mut all = Vec::new(alloc);
    for word in words {
        all.push(String::from_str(alloc, word)?)?;
    }
    Ok(all)
}

fn numbers(settings: &Settings) -> [u32; 4] {
    [
        settings.workers(),
        settings.shards(),
        settings.partitions(),
        settings.tries(),
    ]
}

fn is_lost(entry: &Entry, lost: Lost) -> bool {
    (entry.stage, entry.phase, entry.task, entry.attempt) == lost
}

fn are_lost(entries: &[Entry], attempts: &[Lost]) -> bool {
    if entries.len() != attempts.len() {
        return false;
    }
    for (entry, lost) in entries.iter().zip(attempts.iter()) {
        if !is_lost(entry, *lost) {
            return false;
        }
    }
    true
}

fn are_settings(settings: &Settings, wanted: [u32; 4], lost: &[Lost]) -> bool {
    numbers(settings) == wanted && are_lost(settings.drill().entries(), lost)
}

fn is_plan(file: &Option<FileName>, wanted: Option<&str>) -> bool {
    match (file, wanted) {
        (Some(file), Some(name)) => file.as_str() == name,
        (None, None) => true,
        _ => false,
    }
}

// Whether a run is asked for, by the plan of this file.
fn is_run(asked: &Asked<'_>, file: Option<&str>, wanted: [u32; 4], lost: &[Lost]) -> bool {
    match &asked.command {
        Command::Run(settings, plan) => {
            asked.script == "s" && are_settings(settings, wanted, lost) && is_plan(plan, file)
        }
        _ => false,
    }
}

fn is_cached(run: &CachedRun<'_>, wanted: [u32; 4], lost: &[Lost]) -> bool {
    run.script == "s" && are_settings(&run.settings, wanted, lost)
}

// Whether words ask for this by a command on a script.
fn asks(alloc: Global, words: &[String], row: Row) -> Result<bool, AllocError> {
    let (_words, wanted, numbers, lost) = row;
    match (asked_for(alloc, words)?, wanted) {
        (Some(asked), Wanted::Run(file)) => Ok(is_run(&asked, file, numbers, lost)),
        (None, Wanted::Run(_)) => Ok(false),
        (asked, _) => Ok(asked.is_none()),
    }
}

// Whether words ask for this by a run that reuses what is kept.
fn asks_cached(alloc: Global, words: &[String], row: Row) -> Result<bool, AllocError> {
    let (_words, wanted, numbers, lost) = row;
    match (cached_for(alloc, words)?, wanted) {
        (Some(run), Wanted::Cached) => Ok(is_cached(&run, numbers, lost)),
        (None, Wanted::Cached) => Ok(false),
        (run, _) => Ok(run.is_none()),
    }
}

// Whether words ask for this as a made input.
fn asks_made(alloc: Global, words: &[String], row: Row) -> Result<bool, AllocError> {
    let (_words, wanted, _numbers, _lost) = row;
    let made = workload_for(alloc, words)?;
    match wanted {
        Wanted::Made(workload) => Ok(made == Some(workload)),
        _ => Ok(made.is_none()),
    }
}

fn is_asked(alloc: Global, row: Row) -> Result<bool, AllocError> {
    let (words, _wanted, _numbers, _lost) = row;
    let words = texts(alloc, words)?;
    let words = words.as_slice();
    Ok(asks(alloc, words, row)? && asks_cached(alloc, words, row)? && asks_made(alloc, words, row)?)
}

/// The place of the first row that asks for something else.
fn first_other(alloc: Global) -> Result<Option<usize>, AllocError> {
    for place in 0..ROWS.len() {
        if !is_asked(alloc, ROWS[place])? {
            return Ok(Some(place));
        }
    }
    Ok(None)
}

#[test]
fn words_ask_for_this(rt: HostRuntime) -> Result<(), Fail> {
    assert_eq!(rt; first_other(rt.alloc())?, None);
    Ok(())
}
