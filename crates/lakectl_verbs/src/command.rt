//! The simple command of `clap` that a verb's line of the table makes.
ghost use Rattle.std.specs.Prelude.{◌≡◌, ◌⊎◌, false, map, IfOk};
ghost use Rattle.clap.specs.Words.{app_of, rule_of};
ghost use Rattle.lakectl_verbs.specs.ArgumentForms.{form_of};
ghost use Rattle.lakectl_verbs.specs.VerbTable.{arguments_of};
ghost use Rattle.lakectl_verbs.specs.VerbCommands.{rule_of_form, bare_command, simple_command, TakenSo, words_seen};

use crate::argument::{Argument, Shape};
use crate::fault::UsageFault;
use crate::table::arguments;
use crate::verb::Verb;
use clap::error::ErrorKind;
use clap::{Arg, ArgAction, ArgMatches, Command};
use lake_base::NoMemory;
use std::alloc::Global;

// An argument of the table as one of `clap`.
fn clap_argument<'a>(alloc: Global, argument: &Argument) -> Arg<'a>
    ensures rule { rule_of result ≡ rule_of_form (form_of argument.now) }
    ensures local { result.global ≡ false }
{
    let arg = Arg::new(alloc, argument.name).required(argument.needed);
    match argument.shape {
        Shape::Positional => arg.action(ArgAction::Set),
        Shape::Long => arg.long(argument.name).action(ArgAction::Set),
        Shape::Short => arg.short('m').action(ArgAction::Set),
        Shape::LongOrShort => arg.long(argument.name).short('m').action(ArgAction::Set),
        Shape::Flag => arg.long(argument.name).action(ArgAction::SetTrue),
    }
}

// A command without arguments.
fn bare_command<'a>(alloc: Global) -> Command<'a>
    ensures { app_of result ≡ bare_command }
{
    Command::new(alloc, "lakectl")
        .no_binary_name(true)
        .disable_help_flag(true)
}

// The simple command of these arguments.
fn simple_command<'a>(
    alloc: Global,
    arguments: &'static [Argument],
) -> Result<Command<'a>, NoMemory>
    ensures { IfOk result (λ command. app_of command ≡ simple_command (map form_of arguments.now)) }
{
    let mut command = bare_command(alloc);
    for argument in arguments {
        command = command.arg(clap_argument(alloc, argument))?;
    }
    Ok(command)
}

/// What the verb's simple command makes of the words.
pub(crate) fn matches_of<'a>(
    alloc: Global,
    verb: Verb,
    words: &'a [&'a str],
) -> Result<ArgMatches<'a>, UsageFault>
    ensures { TakenSo verb (words_seen words.now) result }
{
    let command = simple_command(alloc, arguments(verb))?;
    match command.try_get_matches_from(words) {
        Ok(matches) => Ok(matches),
        Err(error) => Err(fault_of(error.kind())),
    }
}

// What a fault of a parse is here.
fn fault_of(kind: ErrorKind) -> UsageFault
    ensures memory { kind ≡ ErrorKind.OutOfMemory → result ≡ UsageFault.NoMemory }
    ensures words { (result ≡ UsageFault.NoMemory) ⊎ (result ≡ UsageFault.Words) }
{
    match kind {
        ErrorKind::OutOfMemory => UsageFault::NoMemory,
        _ => UsageFault::Words,
    }
}
