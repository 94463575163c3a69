//! What a command takes, and what `clap` finds of it in words.

ghost use Rattle.std.specs.Prelude.{◌≡◌, Err, IfOk, false, map};
ghost use Rattle.clap.specs.Words.{app_of, rule_of, rows_of, found_of};
ghost use Rattle.command_line.specs.Apps.{bare_app, rule_of_argument, with_rules};
ghost use Rattle.command_line.specs.Finding.{Finds, Refuses};

use super::fault::WordsFault;
use super::words::Words;
use clap::error::ErrorKind;
use clap::{Arg, ArgMatches, Command};
use std::alloc::{AllocError, Global};

/// One of the arguments of a command, by its name.
#[derive(Clone, Copy)]
pub enum Argument<'a> {
    /// A place at which a word has to stand.
    Place(&'a str),
    /// An option that has to be given, with a value.
    Needed(&'a str),
    /// An option that need not be given, with a value.
    Free(&'a str),
}

/// What `clap` finds in the words of a command that takes these arguments, without help and version
/// options. The first word is the command's name, and isn't looked at.
///
/// # Errors
///
/// [`WordsFault::BadWords`] where the words behind the name aren't what the command takes, and
/// [`WordsFault::Memory`] where no memory is left.
pub fn found_in<'a>(
    alloc: Global,
    arguments: &[Argument<'a>],
    words: &'a Words,
) -> Result<ArgMatches<'a>, WordsFault>
    ensures found { IfOk result (λ matches. Finds (with_rules bare_app (map rule_of_argument arguments.now)) words.now (rows_of (found_of matches))) }
    ensures refused { result ≡ Err WordsFault.BadWords → Refuses (with_rules bare_app (map rule_of_argument arguments.now)) words.now }
{
    let Ok(command) = command_with(alloc, arguments) else {
        return Err(WordsFault::Memory);
    };
    match command.try_get_matches_from(words.as_slice()) {
        Ok(matches) => Ok(matches),
        Err(error) => match error.kind() {
            ErrorKind::OutOfMemory => Err(WordsFault::Memory),
            _ => Err(WordsFault::BadWords),
        },
    }
}

/// A command that takes these arguments, without help and version options.
fn command_with<'a>(alloc: Global, arguments: &[Argument<'a>]) -> Result<Command<'a>, AllocError>
    ensures { IfOk result (λ command. app_of command ≡ with_rules bare_app (map rule_of_argument arguments.now)) }
{
    let mut command = Command::new(alloc, "topk")
        .disable_help_flag(true)
        .disable_version_flag(true);
    for argument in arguments {
        command = command.arg(arg_of(alloc, *argument))?;
    }
    Ok(command)
}

/// An argument as `clap` has it.
fn arg_of<'a>(alloc: Global, argument: Argument<'a>) -> Arg<'a>
    ensures rule { rule_of result ≡ rule_of_argument argument.entry }
    ensures local { result.global ≡ false }
{
    match argument {
        Argument::Place(name) => Arg::new(alloc, name).required(true),
        Argument::Needed(name) => Arg::new(alloc, name).long(name).required(true),
        Argument::Free(name) => Arg::new(alloc, name).long(name),
    }
}
