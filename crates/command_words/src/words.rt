// The words of a command line, and the command and the script that they ask for.
ghost use Rattle.std.specs.Prelude.{◌≡◌, IfOk, IsErr, None, map, string_bytes};
ghost use Rattle.std.specs.Option.{option_map};
ghost use Rattle.clap.specs.Words.{found_of, kind_of, rows_of, subcommand_rows_of};
ghost use Rattle.command_words.specs.Held.{asked_in};
ghost use Rattle.command_words.specs.Words as spec;

use crate::command_line::command_line;
use crate::matches::text_of;
use crate::options::settings_given;
use clap::error::ErrorKind;
use clap::{ArgMatches, Error};
use outside::FileName;
use run_settings::Settings;
use std::alloc::{AllocError, Global};

/// How a plan is shown.
#[derive(Clone, Copy)]
pub enum PlanForm {
    /// As text, with the execution graph before it.
    Text,
    /// As JSON.
    Json,
    /// As JSON, with the rewrites that lead to it.
    Rewrites,
}

/// What a call is to do with a script.
#[derive(Drop)]
pub enum Command {
    /// See whether it is accepted.
    Check,
    /// Show its plan.
    Plan(PlanForm),
    /// Write the files of its direct meaning.
    Direct,
    /// Write the same files by a run with these settings, and show its plan: that of the file of
    /// this name, or where none is named the script's own.
    Run(Settings, Option<FileName>),
}

/// What the words of a command line ask for: a command, and the name of a script.
#[derive(Drop)]
pub struct Asked<'a> {
    pub command: Command,
    pub script: &'a str,
}

/// What the words ask for, the program's name first: nothing where `clap` refuses them, where the
/// script or the file of a plan is empty or begins with `-`, or where an option is not what it has
/// to be. Fails only where no memory is left.
pub fn asked_for(alloc: Global, words: &[String]) -> Result<Option<Asked<'_>>, AllocError>
    ensures { IfOk result (λ asked. option_map asked_in asked
        ≡ spec.asked_for (map string_bytes words.now)) }
{
    match command_line(alloc)?.try_get_matches_from(words) {
        Ok(matches) => {
            let asked = asked_of(alloc, &matches);
            drop(matches);
            asked
        }
        Err(error) => refused(error),
    }
}

// Words that are refused ask for nothing, but where it was memory that was wanting.
pub(crate) fn refused<T>(error: Error) -> Result<Option<T>, AllocError>
    ensures nothing { IfOk result (λ asked. asked ≡ None) }
    ensures memory { kind_of error ≡ ErrorKind.OutOfMemory → IsErr result }
{
    let kind = error.kind();
    drop(error);
    match kind {
        ErrorKind::OutOfMemory => Err(AllocError),
        _ => Ok(None),
    }
}

// What the matches of the command line ask for.
fn asked_of<'a>(alloc: Global, matches: &ArgMatches<'a>) -> Result<Option<Asked<'a>>, AllocError>
    ensures { IfOk result (λ asked. option_map asked_in asked
        ≡ spec.asked_of (subcommand_rows_of matches.now)) }
{
    let Some((name, found)) = matches.subcommand() else {
        return Ok(None);
    };
    match command_of(alloc, name, found)? {
        Some(command) => Ok(asking(command, text_of(found, "script"))),
        None => Ok(None),
    }
}

// A command on the script that a word names.
fn asking<'a>(command: Command, word: Option<&'a str>) -> Option<Asked<'a>>
    ensures { option_map asked_in result
        ≡ spec.asking command (option_map (λ text. text.now) word.entry) }
{
    match word {
        Some(script) if is_operand(script) => Some(Asked { command, script }),
        _ => {
            drop(command);
            None
        }
    }
}

// The command of a name, by the matches of its own arguments.
fn command_of(
    alloc: Global,
    name: &str,
    found: &ArgMatches<'_>,
) -> Result<Option<Command>, AllocError>
    ensures { IfOk result (λ command.
        command ≡ spec.command_of name.now (rows_of (found_of found.now))) }
{
    match name {
        "check" => Ok(Some(Command::Check)),
        "plan" => Ok(plan_shown(text_of(found, "json"), text_of(found, "rewrites"))),
        "direct" => Ok(Some(Command::Direct)),
        "run" => run_given(alloc, found),
        _ => Ok(None),
    }
}

// The run that the options ask for, where each is what it has to be.
fn run_given(alloc: Global, found: &ArgMatches<'_>) -> Result<Option<Command>, AllocError>
    ensures { IfOk result (λ command. command ≡ spec.run_of (rows_of (found_of found.now))) }
{
    let from = plan_given(alloc, text_of(found, "plan"))?;
    match settings_given(alloc, found) {
        Ok(settings) => Ok(run_with(settings, from)),
        Err(e) => {
            drop(from);
            Err(e)
        }
    }
}

// A run by settings, of the plan of a file or of the script's own.
fn run_with(settings: Option<Settings>, from: Option<Option<FileName>>) -> Option<Command>
    ensures { result ≡ spec.run_with settings from }
{
    match settings {
        Some(settings) => Some(Command::Run(settings, from?)),
        None => {
            drop(from);
            None
        }
    }
}

// The file of the plan that the option's text names, or none where the option is not there.
fn plan_given(alloc: Global, option: Option<&str>) -> Result<Option<Option<FileName>>, AllocError>
    ensures { IfOk result (λ from.
        from ≡ spec.plan_given (option_map (λ text. text.now) option.entry)) }
{
    match option {
        Some(text) => plan_named(alloc, text),
        None => Ok(Some(None)),
    }
}

// The name of a plan's file, where it names something.
fn plan_named(alloc: Global, text: &str) -> Result<Option<Option<FileName>>, AllocError>
    ensures { IfOk result (λ from. from ≡ spec.plan_named text.now) }
{
    if !is_operand(text) {
        return Ok(None);
    }
    Ok(Some(Some(FileName::new(alloc, text)?)))
}

// The command that shows a plan, where one flag at most is set.
fn plan_shown(json: Option<&str>, rewrites: Option<&str>) -> Option<Command>
    ensures { result ≡ spec.command_of_plan (option_map (λ text. text.now) json.entry)
        (option_map (λ text. text.now) rewrites.entry) }
{
    if is_set(json) {
        if is_set(rewrites) {
            return None;
        }
        return Some(Command::Plan(PlanForm::Json));
    }
    if is_set(rewrites) {
        return Some(Command::Plan(PlanForm::Rewrites));
    }
    Some(Command::Plan(PlanForm::Text))
}

// Whether a flag is set, by its text.
pub(crate) fn is_set(flag: Option<&str>) -> bool
    ensures { result ≡ spec.is_set (option_map (λ text. text.now) flag.entry) }
{
    match flag {
        Some(text) => text == "true",
        None => false,
    }
}

// Whether a word names something: it is not empty, and no option.
pub(crate) fn is_operand(word: &str) -> bool
    ensures { result ≡ spec.is_operand word.now }
{
    match word.as_bytes() {
        [] => false,
        [first, ..] => *first != b'-',
    }
}
