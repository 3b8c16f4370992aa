//! Reading the words.
ghost use Rattle.std.specs.Prelude.{◌≡◌, ◌↔◌, IfOk, IfSome, IsNone, option_map};
ghost use Rattle.clap.specs.Words.{first_of, found_of, rows_of};
ghost use Rattle.spx_text.specs.Loads.{names};
ghost use Rattle.spx_words.specs.Requests.{HasNoForm, IsWithin, check_in, conditions_in, number_in, request, request_in, run_in};
ghost use Rattle.spx_words.specs.Words.{request_of, text_of};

use crate::command::spx;
use clap::ArgMatches;
use clap::error::ErrorKind;
use std::alloc::{AllocError, Global};

/// What the words ask for. The texts are borrowed from the words.
#[derive(Drop)]
pub enum CommandWords<'a> {
    /// `check FILE`
    Check {
        file: &'a str,
    },
    /// `conditions FILE`
    Conditions {
        file: &'a str,
    },
    /// `run --entry NAME [--turns N] [--inputs FILE] FILE`
    Run {
        entry: &'a str,
        turns: u64,
        inputs: Option<&'a str>,
        file: &'a str,
    },
}

/// The turns of a `run` whose words give none.
const DEFAULT_TURNS: u64 = 1_000_000;

/// The text that was given for this argument.
fn text_given<'a>(given: &ArgMatches<'a>, id: &str) -> Option<&'a str>
    ensures { option_map text_of result ≡ first_of id.now (rows_of (found_of given.now)) }
{
    given.get_str(id)
}

fn check_given<'a>(given: &ArgMatches<'a>) -> Option<CommandWords<'a>>
    ensures { option_map request_of result ≡ check_in (rows_of (found_of given.now)) }
{
    match text_given(given, "file") {
        Some(file) => Some(CommandWords::Check { file }),
        None => None,
    }
}

fn conditions_given<'a>(given: &ArgMatches<'a>) -> Option<CommandWords<'a>>
    ensures { option_map request_of result ≡ conditions_in (rows_of (found_of given.now)) }
{
    match text_given(given, "file") {
        Some(file) => Some(CommandWords::Conditions { file }),
        None => None,
    }
}

/// The number that was given for this argument.
fn number_given(given: &ArgMatches<'_>, id: &str) -> Option<u64>
    ensures { result ≡ number_in id.now (rows_of (found_of given.now)) }
{
    given.get_one(id)
}

fn run_given<'a>(given: &ArgMatches<'a>) -> Option<CommandWords<'a>>
    ensures { option_map request_of result ≡ run_in (rows_of (found_of given.now)) }
{
    let Some(entry) = text_given(given, "entry") else {
        return None;
    };
    let Some(file) = text_given(given, "file") else {
        return None;
    };
    let turns = number_given(given, "turns").unwrap_or(DEFAULT_TURNS);
    let inputs = text_given(given, "inputs");
    Some(CommandWords::Run {
        entry,
        turns,
        inputs,
        file,
    })
}

/// The command of this name, with what was given to it.
fn command_given<'a>(name: &str, given: &ArgMatches<'a>) -> Option<CommandWords<'a>>
    ensures { option_map request_of result ≡ request_in (name.now, rows_of (found_of given.now)) }
{
    match name {
        "check" => check_given(given),
        "conditions" => conditions_given(given),
        "run" => run_given(given),
        _ => None,
    }
}

/// The command that the words after the program's name give, and none where they have the form of no command.
pub fn read_words<'a>(
    alloc: Global,
    words: &'a [String],
) -> Result<Option<CommandWords<'a>>, AllocError>
    // There is a command exactly where clap's simple command takes the words.
    ensures form { IfOk result (λ command. IsNone command ↔ HasNoForm (names words.entry.now)) }
    // It is what the words ask for.
    ensures request { IfOk result (λ command. option_map request_of command ≡ request (names words.entry.now)) }
    // Its number of turns is in its range.
    ensures within { IfOk result (λ command. IfSome command (λ given. IsWithin (request_of given))) }
{
    let matches = match spx(alloc)?.try_get_matches_from(words) {
        Ok(matches) => matches,
        Err(error) if error.kind() == ErrorKind::OutOfMemory => return Err(AllocError),
        Err(_) => return Ok(None),
    };
    match matches.subcommand() {
        Some((name, given)) => Ok(command_given(name, given)),
        None => Ok(None),
    }
}
