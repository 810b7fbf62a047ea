// The words of a command line that ask for a made workload.
ghost use Rattle.std.specs.Prelude.{◌≡◌, ◌≤◌, IfOk, IfSome, map, option_and_then, string_bytes};
ghost use Rattle.std.specs.Option.{option_map};
ghost use Rattle.clap.specs.Words.{found_of, rows_of, subcommand_rows_of};
ghost use Rattle.command_words.specs.Workloads.{IsWithinLimits};
ghost use Rattle.command_words.specs.Words as spec;

use crate::command_line::command_line;
use crate::matches::text_of;
use crate::words::refused;
use clap::ArgMatches;
use drill_text::number_in;
use std::alloc::{AllocError, Global};

/// The most that either number of a made workload may be.
pub const MOST_MADE: u32 = 1_000_000;

/// A made input and its sums: the number before the first row's, and how many rows there are.
#[derive(Clone, Copy, PartialEq, Eq)]
pub struct Workload {
    pub start: u32,
    pub rows: u32,
}

/// The made workload that the words ask for, the program's name first: none where `clap` refuses
/// them, where they ask for another command, or where a number is not what it has to be. Fails only
/// where no memory is left.
pub fn workload_for(alloc: Global, words: &[String]) -> Result<Option<Workload>, AllocError>
    ensures value { IfOk result (λ made. made ≡ spec.workload_for (map string_bytes words.now)) }
    ensures within { IfOk result (λ made. IfSome made IsWithinLimits) }
{
    match command_line(alloc)?.try_get_matches_from(words) {
        Ok(matches) => {
            let made = workload_of(&matches);
            drop(matches);
            Ok(made)
        }
        Err(error) => refused(error),
    }
}

// What the matches of the command line ask for.
fn workload_of(matches: &ArgMatches<'_>) -> Option<Workload>
    ensures value { result ≡ spec.workload_of (subcommand_rows_of matches.now) }
    ensures within { IfSome result IsWithinLimits }
{
    match matches.subcommand() {
        Some((name, found)) => workload_at(name, found),
        None => None,
    }
}

// What a command that was met asks for.
fn workload_at(name: &str, found: &ArgMatches<'_>) -> Option<Workload>
    ensures value { result ≡ spec.workload_at name.now (rows_of (found_of found.now)) }
    ensures within { IfSome result IsWithinLimits }
{
    match name {
        "make" => workload_in(text_of(found, "start"), text_of(found, "rows")),
        _ => None,
    }
}

// The workload of two words.
fn workload_in(start: Option<&str>, rows: Option<&str>) -> Option<Workload>
    ensures value { result ≡ spec.workload_in (option_map (λ text. text.now) start.entry)
        (option_map (λ text. text.now) rows.entry) }
    ensures within { IfSome result IsWithinLimits }
{
    let start = count_in(start)?;
    let rows = count_in(rows)?;
    Some(Workload { start, rows })
}

// The number of a word, where it is not too great.
fn count_in(word: Option<&str>) -> Option<u32>
    ensures value { result
        ≡ option_and_then spec.bounded_count (option_map (λ text. text.now) word.entry) }
    ensures within { IfSome result (λ n. n ≤ spec.most_made) }
{
    number_in(word?).filter(|number| *number <= MOST_MADE)
}
