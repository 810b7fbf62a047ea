// The words of a command line that ask for a run which reuses what earlier ones have kept.
ghost use Rattle.std.specs.Prelude.{◌≡◌, IfOk, map, string_bytes};
ghost use Rattle.std.specs.Option.{option_map};
ghost use Rattle.clap.specs.Words.{found_of, rows_of, subcommand_rows_of};
ghost use Rattle.command_words.specs.Held.{cached_in};
ghost use Rattle.command_words.specs.Cached as spec;

use crate::command_line::cached_line;
use crate::matches::text_of;
use crate::options::settings_given;
use crate::words::{is_operand, is_set, refused};
use clap::ArgMatches;
use run_settings::Settings;
use std::alloc::{AllocError, Global};

/// A run that reuses what earlier ones have kept: how it is carried out, and the name of a script.
#[derive(Drop)]
pub struct CachedRun<'a> {
    pub settings: Settings,
    pub script: &'a str,
}

/// The cached run that the words ask for, the program's name first: none where `clap` refuses them,
/// where the flag `--cached` is not among them, where the script is empty or begins with `-`, or
/// where an option is not what it has to be. Fails only where no memory is left.
pub fn cached_for(alloc: Global, words: &[String]) -> Result<Option<CachedRun<'_>>, AllocError>
    ensures { IfOk result (λ run. option_map cached_in run
        ≡ spec.cached_for (map string_bytes words.now)) }
{
    match cached_line(alloc)?.try_get_matches_from(words) {
        Ok(matches) => {
            let run = cached_of(alloc, &matches);
            drop(matches);
            run
        }
        Err(error) => refused(error),
    }
}

// What the matches of the command line ask for.
fn cached_of<'a>(
    alloc: Global,
    matches: &ArgMatches<'a>,
) -> Result<Option<CachedRun<'a>>, AllocError>
    ensures { IfOk result (λ run. option_map cached_in run
        ≡ spec.cached_of (subcommand_rows_of matches.now)) }
{
    let Some((name, found)) = matches.subcommand() else {
        return Ok(None);
    };
    match name {
        "run" => cached_by(alloc, found),
        _ => Ok(None),
    }
}

// The run that the matches of `run` ask for, where the flag is set.
fn cached_by<'a>(alloc: Global, found: &ArgMatches<'a>) -> Result<Option<CachedRun<'a>>, AllocError>
    ensures { IfOk result (λ run. option_map cached_in run
        ≡ spec.cached_by (rows_of (found_of found.now))) }
{
    if !is_set(text_of(found, "cached")) {
        return Ok(None);
    }
    match settings_given(alloc, found)? {
        Some(settings) => Ok(reusing(settings, text_of(found, "script"))),
        None => Ok(None),
    }
}

// A run by settings of the script that a word names.
fn reusing<'a>(settings: Settings, word: Option<&'a str>) -> Option<CachedRun<'a>>
    ensures { option_map cached_in result
        ≡ spec.reusing settings (option_map (λ text. text.now) word.entry) }
{
    match word {
        Some(script) if is_operand(script) => Some(CachedRun { settings, script }),
        _ => None,
    }
}
