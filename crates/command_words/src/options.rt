// What the options of `run` give.
ghost use Rattle.std.specs.Prelude.{◌≡◌, IfOk, IfSome};
ghost use Rattle.std.specs.Option.{option_map};
ghost use Rattle.clap.specs.Words.{found_of, rows_of};
ghost use Rattle.run_settings.specs.Limits.{IsDrill, IsUpTo};
ghost use Rattle.run_settings.specs.Settings.{standard};
ghost use Rattle.command_words.specs.Options as spec;

use crate::matches::text_of;
use clap::ArgMatches;
use crew::Drill;
use drill_text::{drill_of, number_up_to};
use flume_value::Pile;
use run_settings::{MOST_PARTITIONS, MOST_SHARDS, MOST_TRIES, MOST_WORKERS, Settings};
use std::alloc::{AllocError, Global};

/// The settings that the options give, where each option is what it has to be.
pub(crate) fn settings_given(
    alloc: Global,
    found: &ArgMatches<'_>,
) -> Result<Option<Settings>, AllocError>
    ensures { IfOk result (λ settings.
        settings ≡ spec.settings_given (rows_of (found_of found.now))) }
{
    match drill_given(alloc, text_of(found, "fail"))? {
        Some(drill) => Ok(settings_with(&Settings::standard(alloc), drill, found)),
        None => Ok(None),
    }
}

// The drill that the option's text spells, or none where the option is not there.
fn drill_given(alloc: Global, option: Option<&str>) -> Result<Option<Drill>, AllocError>
    ensures value { IfOk result (λ drill.
        drill ≡ spec.drill_given (option_map (λ text. text.now) option.entry)) }
    ensures within { IfOk result (λ drill. IfSome drill IsDrill) }
{
    match option {
        Some(text) => drill_of(alloc, text),
        None => Ok(Some(Drill::new(Pile::new(alloc)))),
    }
}

// The settings with this drill, where a number that is not given is the usual one.
fn settings_with(usual: &Settings, drill: Drill, found: &ArgMatches<'_>) -> Option<Settings>
    requires usual { usual.now ≡ standard }
    requires drill { IsDrill drill }
    ensures { result ≡ spec.settings_with drill (rows_of (found_of found.now)) }
{
    let workers = number_given(usual.workers(), MOST_WORKERS, text_of(found, "workers"))?;
    let shards = number_given(usual.shards(), MOST_SHARDS, text_of(found, "shards"))?;
    let partitions = number_given(
        usual.partitions(),
        MOST_PARTITIONS,
        text_of(found, "partitions"),
    )?;
    let tries = number_given(usual.tries(), MOST_TRIES, text_of(found, "tries"))?;
    Some(Settings::new(workers, shards, partitions, tries, drill))
}

// The number from 1 up to a limit that an option's text spells, or the usual one where the option
// is not there.
fn number_given(usual: u32, limit: u32, option: Option<&str>) -> Option<u32>
    requires { IsUpTo limit usual }
    ensures value { result
        ≡ spec.number_given usual limit (option_map (λ text. text.now) option.entry) }
    ensures within { IfSome result (IsUpTo limit) }
{
    match option {
        Some(text) => number_up_to(limit, text),
        None => Some(usual),
    }
}
