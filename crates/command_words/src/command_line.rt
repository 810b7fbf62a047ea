// The commands of the program, as `clap` is told of them.
ghost use Rattle.std.specs.Prelude.{◌≡◌, IfOk, IsOkAnd, false};
ghost use Rattle.clap.specs.Words.{app_of, rule_of, with_subcommand};
ghost use Rattle.clap.specs.declared.builder.command.Command.TheViews.{out-Command};
ghost use Rattle.command_words.specs.Cached as cached;
ghost use Rattle.command_words.specs.Words as spec;

use clap::{Arg, ArgAction, Command};
use std::alloc::{AllocError, Global};

// The program with its five commands. There is no help to ask for: a refusal shows the usage.
pub fn command_line<'a>(alloc: Global) -> Result<Command<'a>, AllocError>
    ensures { IfOk result (λ line. app_of line ≡ spec.flume_app) }
{
    let one = extended(program(alloc), script_command(alloc, "check"))?;
    let two = extended(one, plan_command(alloc))?;
    let three = extended(two, script_command(alloc, "direct"))?;
    let four = extended(three, run_command(alloc))?;
    extended(four, make_command(alloc))
}

// A command line with one command more, where memory was found for that.
fn extended<'a>(
    line: Command<'a>,
    command: Result<Command<'a>, AllocError>,
) -> Result<Command<'a>, AllocError>
    requires { IfOk command (λ one. (out-Command one).has_globals ≡ false) }
    ensures { IfOk result (λ longer. IsOkAnd command.entry (λ one.
        app_of longer ≡ with_subcommand (app_of line.entry) (app_of one).top)) }
{
    match command {
        Ok(command) => line.subcommand(command),
        Err(e) => {
            drop(line);
            Err(e)
        }
    }
}

// The program with the one command that takes the flag of cached runs.
pub fn cached_line<'a>(alloc: Global) -> Result<Command<'a>, AllocError>
    ensures { IfOk result (λ line. app_of line ≡ cached.cached_app) }
{
    let run = settings_command(alloc)?.arg(named(alloc, "cached", ArgAction::SetTrue))?;
    program(alloc).subcommand(run)
}

// The program alone.
fn program<'a>(alloc: Global) -> Command<'a>
    ensures { app_of result ≡ spec.program_app }
{
    Command::new(alloc, "flume")
        .subcommand_required(true)
        .disable_help_flag(true)
        .disable_help_subcommand(true)
}

// The command `plan`, with its flags.
fn plan_command<'a>(alloc: Global) -> Result<Command<'a>, AllocError>
    ensures app { IfOk result (λ command. app_of command ≡ spec.plan_app) }
    ensures local { IfOk result (λ command. (out-Command command).has_globals ≡ false) }
{
    script_command(alloc, "plan")?
        .arg(named(alloc, "json", ArgAction::SetTrue))?
        .arg(named(alloc, "rewrites", ArgAction::SetTrue))
}

// A flag, or an option with a value, under the name that it has as a word.
fn named<'a>(alloc: Global, name: &'a str, action: ArgAction) -> Arg<'a>
    ensures rule { rule_of result ≡ spec.named_rule action name.entry.now }
    ensures local { result.global ≡ false }
{
    Arg::new(alloc, name).long(name).action(action)
}

// The command `run`, with its options.
fn run_command<'a>(alloc: Global) -> Result<Command<'a>, AllocError>
    ensures app { IfOk result (λ command. app_of command ≡ spec.run_app) }
    ensures local { IfOk result (λ command. (out-Command command).has_globals ≡ false) }
{
    settings_command(alloc)?.arg(named(alloc, "plan", ArgAction::Set))
}

// The command `run`, with the options that say how it is carried out.
fn settings_command<'a>(alloc: Global) -> Result<Command<'a>, AllocError>
    ensures app { IfOk result (λ command. app_of command ≡ spec.settings_app) }
    ensures local { IfOk result (λ command. (out-Command command).has_globals ≡ false) }
{
    script_command(alloc, "run")?
        .arg(named(alloc, "workers", ArgAction::Set))?
        .arg(named(alloc, "shards", ArgAction::Set))?
        .arg(named(alloc, "partitions", ArgAction::Set))?
        .arg(named(alloc, "tries", ArgAction::Set))?
        .arg(named(alloc, "fail", ArgAction::Set))
}

// A command that takes a script.
fn script_command<'a>(alloc: Global, name: &'a str) -> Result<Command<'a>, AllocError>
    ensures app { IfOk result (λ command. app_of command ≡ spec.script_app name.entry.now) }
    ensures local { IfOk result (λ command. (out-Command command).has_globals ≡ false) }
{
    Command::new(alloc, name).arg(operand(alloc, "script"))
}

// The command `make`, with its two numbers.
fn make_command<'a>(alloc: Global) -> Result<Command<'a>, AllocError>
    ensures app { IfOk result (λ command. app_of command ≡ spec.make_app) }
    ensures local { IfOk result (λ command. (out-Command command).has_globals ≡ false) }
{
    Command::new(alloc, "make")
        .arg(operand(alloc, "start"))?
        .arg(operand(alloc, "rows"))
}

// A word that has to come, by its place.
fn operand<'a>(alloc: Global, name: &'a str) -> Arg<'a>
    ensures rule { rule_of result ≡ spec.operand_rule name.entry.now }
    ensures local { result.global ≡ false }
{
    Arg::new(alloc, name).required(true).action(ArgAction::Set)
}
