//! The request that the words of a command line make.
#![tactic(auto)]

mod texts;

ghost use Rattle.std.specs.Prelude.{◌≡◌, ◌≤◌, ◌⊎◌, IfOk, map, false};
ghost use Rattle.clap.specs.Words.{FailsBy, app_of, fault_of, kind_of, new_app, rule_of};
ghost use Rattle.clap.specs.declared.builder.command.Command.TheViews.{out-Command as fields_of};
ghost use Rattle.command_line.specs.CommandLine.{asked_by, bbmcheck_app, check_app, top_app, workers_asked, workers_rule};

use clap::error::ErrorKind;
use clap::{Arg, Command, Error, value_parser};
use std::alloc::{AllocError, Global};
use texts::Help;

/// A command of the program.
#[derive(Clone, Copy, Debug, PartialEq, Eq)]
pub enum Request {
    /// Checks a bundle: a circuit, a layout and a certificate.
    Check,
    /// Runs a layout under an assignment.
    Run,
    /// Evaluates a circuit under an assignment.
    Value,
    /// Lists the modules of a certificate.
    Modules,
    /// Writes a bundle in certificate version 2.
    Migrate,
}

/// A command, and how many workers share the modules of a certificate, 1 to 64.
#[derive(Clone, Copy, Debug, PartialEq, Eq)]
pub struct Asked {
    pub request: Request,
    pub workers: usize,
}

/// Reads the words after the program's name, of which the first is the command.
///
/// `check` may have `--workers` with a whole number of 1 to 64. Without it there is one worker.
///
/// # Errors
///
/// The error is `clap`'s. It says what is wrong with the words, or has the text of the help that they ask for.
pub fn read_words<'a>(alloc: Global, words: &'a [&'a str]) -> Result<Asked, Error>
    ensures request { IfOk result (λ asked. asked.request
        ≡ asked_by (map (λ s. s.now) words.entry.now)) }
    ensures workers { IfOk result (λ asked. (1 ≤ asked.workers) × (asked.workers ≤ 64)) }
    ensures number { IfOk result (λ asked. asked.workers
        ≡ workers_asked (map (λ s. s.now) words.entry.now)) }
    ensures fails { FailsBy (fault_of bbmcheck_app (map (λ s. s.now) words.entry.now)) result }
{
    let matches = match command(alloc)?.try_get_matches_from(words) {
        Ok(matches) => matches,
        Err(error) => return Err(explain_number_error(alloc, error)),
    };
    let request = match matches.subcommand_name() {
        Some("check") => Request::Check,
        Some("value") => Request::Value,
        Some("modules") => Request::Modules,
        Some("migrate") => Request::Migrate,
        _ => Request::Run,
    };
    let workers = match matches.subcommand_matches("check") {
        Some(options) => options.get_one::<usize>("workers").unwrap_or(1),
        None => 1,
    };
    Ok(Asked { request, workers })
}

// The error, and if it is about the number of workers, one that says which numbers there are.
fn explain_number_error(alloc: Global, error: Error) -> Error
    ensures kind { (kind_of result ≡ kind_of error) ⊎ (kind_of result ≡ ErrorKind.OutOfMemory) }
{
    if !matches!(error.kind(), ErrorKind::ValueValidation) {
        return error;
    }
    match worker_count_error(alloc) {
        Ok(other) => other,
        Err(other) => Error::from(other),
    }
}

// Only a number of workers is refused by its value.
fn worker_count_error(alloc: Global) -> Result<Error, AllocError>
    ensures { IfOk result (λ error. kind_of error ≡ ErrorKind.ValueValidation) }
{
    let mut check = check_command(alloc)?;
    check.error(ErrorKind::ValueValidation, texts::WORKERS)
}

fn command<'a>(alloc: Global) -> Result<Command<'a>, AllocError>
    ensures { IfOk result (λ command. app_of command ≡ bbmcheck_app) }
{
    top_command_without_commands(alloc)?
        .subcommand(check_command(alloc)?)?
        .subcommand(plain_command(alloc, "run", texts::RUN))?
        .subcommand(plain_command(alloc, "value", texts::VALUE))?
        .subcommand(plain_command(alloc, "modules", texts::MODULES))?
        .subcommand(plain_command(alloc, "migrate", texts::MIGRATE))
}

// The command line without its commands.
fn top_command_without_commands<'a>(alloc: Global) -> Result<Command<'a>, AllocError>
    ensures app { IfOk result (λ command. app_of command ≡ top_app) }
{
    let named = plain_command(alloc, "bbmcheck", texts::PROGRAM).bin_name("bbmcheck")?;
    Ok(
        named
            .version(texts::VERSION)
            .no_binary_name(true)
            .subcommand_required(true),
    )
}

// The command that has an option.
fn check_command<'a>(alloc: Global) -> Result<Command<'a>, AllocError>
    ensures app { IfOk result (λ command. app_of command ≡ check_app) }
    ensures no_globals { IfOk result (λ command. (fields_of command).has_globals ≡ false) }
{
    plain_command(alloc, "check", texts::CHECK).arg(workers_option(alloc))
}

// Its option.
fn workers_option<'a>(alloc: Global) -> Arg<'a>
    ensures rule { rule_of result ≡ workers_rule }
    ensures not_global { result.global ≡ false }
{
    Arg::new(alloc, "workers")
        .long("workers")
        .value_name("N")
        .value_parser(value_parser!(usize).range(1..=64))
        .default_value("1")
}

// A command without options.
fn plain_command<'a>(alloc: Global, name: &'a str, help: Help) -> Command<'a>
    ensures app { app_of result ≡ new_app name.entry.now }
    ensures no_globals { (fields_of result).has_globals ≡ false }
{
    Command::new(alloc, name)
        .about(help.about)
        .override_usage(help.usage)
        .override_help(help.text)
}
