//! The program as `clap` knows it: one command, with a subcommand for each thing that the program does.
ghost use Rattle.std.specs.Prelude.{◌≡◌, IfOk, false};
ghost use Rattle.clap.specs.Words.{app_of, rule_of};
ghost use Rattle.clap.specs.declared.builder.command.Command.TheViews.{out-Command as fields_of};
ghost use Rattle.spx_words.specs.Command as spec;

use clap::{Arg, Command, value_parser};
use std::alloc::{AllocError, Global};

/// The most turns that a `run` may ask for.
const MOST_TURNS: i64 = 1_000_000_000;

fn file<'a>(alloc: Global) -> Arg<'a>
    ensures rule { rule_of result ≡ spec.file }
    ensures local { result.global ≡ false }
{
    Arg::new(alloc, "file").required(true)
}

fn option<'a>(alloc: Global, name: &'a str) -> Arg<'a>
    ensures rule { rule_of result ≡ spec.option_of name.entry.now }
    ensures local { result.global ≡ false }
{
    Arg::new(alloc, name).long(name)
}

fn entry<'a>(alloc: Global) -> Arg<'a>
    ensures rule { rule_of result ≡ spec.entry }
    ensures local { result.global ≡ false }
{
    option(alloc, "entry").required(true)
}

fn turns<'a>(alloc: Global) -> Arg<'a>
    ensures rule { rule_of result ≡ spec.turns }
    ensures local { result.global ≡ false }
{
    option(alloc, "turns").value_parser(value_parser!(u64).range(1..=MOST_TURNS))
}

fn check<'a>(alloc: Global) -> Result<Command<'a>, AllocError>
    ensures app { IfOk result (λ made. app_of made ≡ spec.check) }
    ensures local { IfOk result (λ made. (fields_of made).has_globals ≡ false) }
{
    Command::new(alloc, "check").arg(file(alloc))
}

fn conditions<'a>(alloc: Global) -> Result<Command<'a>, AllocError>
    ensures app { IfOk result (λ made. app_of made ≡ spec.conditions) }
    ensures local { IfOk result (λ made. (fields_of made).has_globals ≡ false) }
{
    Command::new(alloc, "conditions").arg(file(alloc))
}

fn run<'a>(alloc: Global) -> Result<Command<'a>, AllocError>
    ensures app { IfOk result (λ made. app_of made ≡ spec.run) }
    ensures local { IfOk result (λ made. (fields_of made).has_globals ≡ false) }
{
    Command::new(alloc, "run")
        .arg(entry(alloc))?
        .arg(turns(alloc))?
        .arg(option(alloc, "inputs"))?
        .arg(file(alloc))
}

/// The whole command. It has no help of its own, so that a request for help has no form.
pub(crate) fn spx<'a>(alloc: Global) -> Result<Command<'a>, AllocError>
    ensures { IfOk result (λ made. app_of made ≡ spec.spx) }
{
    Command::new(alloc, "spx")
        .no_binary_name(true)
        .disable_help_flag(true)
        .disable_help_subcommand(true)
        .subcommand_required(true)
        .subcommand(check(alloc)?)?
        .subcommand(conditions(alloc)?)?
        .subcommand(run(alloc)?)
}
