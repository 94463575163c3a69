//! Commands, read from words.

ghost use Rattle.std.specs.Prelude.{◌≡◌, None, Some, IfOk, IfSome, OnOk, drop, true, false, option_and_then, slice_get};
ghost use Rattle.command_line.specs.Commands.{command_named, command_of, other_command, bare_command, is_named, are_no_words, HasSettings};

use super::bulking::{BulkOptions, read_bulk};
use super::making::{MakeOptions, read_make};
use super::node::{NodeOptions, read_node};
use super::running::{RunOptions, read_run};
use super::serving::{ServeOptions, read_serve};
use super::{Words, WordsFault, found_in};
use std::alloc::Global;

/// What the program is to do.
#[derive(Drop)]
pub enum Command {
    /// `one`: answers the query of a bundle.
    One,
    /// `judge`: judges a certificate.
    Judge,
    /// `compare`: tells what each algorithm reads for the query of a bundle.
    Compare,
    /// `make`: writes a made table.
    Make(MakeOptions),
    /// `run`: answers query lines over the lists of a catalog.
    Run(RunOptions),
    /// `bulk`: answers made queries over a made table.
    Bulk(BulkOptions),
    /// `node`: serves a list of a catalog at a port.
    Node(NodeOptions),
    /// `serve`: answers query lines over the lists of a catalog at a port.
    Serve(ServeOptions),
}

/// The command that the words are.
pub fn read_command(alloc: Global, words: &Words) -> Result<Command, WordsFault>
    ensures read { IfOk result (λ command. command_of words.now ≡ Some command) }
    ensures refused { result ≡ Err WordsFault.BadWords → command_of words.now ≡ None }
    ensures settings { IfOk result HasSettings }
{
    if is_named(words, "make") {
        return match read_make(alloc, words) {
            Ok(options) => Ok(Command::Make(options)),
            Err(refusal) => Err(refusal),
        };
    }
    if is_named(words, "run") {
        return match read_run(alloc, words) {
            Ok(options) => Ok(Command::Run(options)),
            Err(refusal) => Err(refusal),
        };
    }
    if is_named(words, "bulk") {
        return match read_bulk(alloc, words) {
            Ok(options) => Ok(Command::Bulk(options)),
            Err(refusal) => Err(refusal),
        };
    }
    read_other(alloc, words)
}

/// The command that the words are, of those that wait for connections and those that take no words.
fn read_other(alloc: Global, words: &Words) -> Result<Command, WordsFault>
    ensures read { IfOk result (λ command. other_command words.now ≡ Some command) }
    ensures refused { result ≡ Err WordsFault.BadWords → other_command words.now ≡ None }
    ensures settings { IfOk result HasSettings }
{
    if is_named(words, "node") {
        return match read_node(alloc, words) {
            Ok(options) => Ok(Command::Node(options)),
            Err(refusal) => Err(refusal),
        };
    }
    if is_named(words, "serve") {
        return match read_serve(alloc, words) {
            Ok(options) => Ok(Command::Serve(options)),
            Err(refusal) => Err(refusal),
        };
    }
    read_bare(alloc, words)
}

/// Whether the first word is this name.
fn is_named(words: &Words, name: &str) -> bool
    ensures { result ≡ is_named name.now words.now }
{
    let Some(word) = words.get(0) else {
        return false;
    };
    word == name
}

/// The command that the words are, of those that take no words.
fn read_bare(alloc: Global, words: &Words) -> Result<Command, WordsFault>
    ensures read { IfOk result (λ command. bare_command words.now ≡ Some command) }
    ensures refused { result ≡ Err WordsFault.BadWords → bare_command words.now ≡ None }
    ensures settings { IfOk result HasSettings }
{
    let Some(command) = named(words) else {
        return Err(WordsFault::BadWords);
    };
    match read_none(alloc, words) {
        Ok(()) => Ok(command),
        Err(fault) => Err(fault),
    }
}

/// The command without words that the first word names.
fn named(words: &Words) -> Option<Command>
    ensures command { result ≡ option_and_then command_named (slice_get words.now 0) }
    ensures settings { IfSome result HasSettings }
{
    match words.get(0) {
        Some(name) => command_named(name),
        None => None,
    }
}

/// The command without words of this name.
fn command_named(name: &str) -> Option<Command>
    ensures command { result ≡ command_named name.now }
    ensures settings { IfSome result HasSettings }
{
    if name == "one" {
        Some(Command::One)
    } else if name == "judge" {
        Some(Command::Judge)
    } else if name == "compare" {
        Some(Command::Compare)
    } else {
        None
    }
}

/// Reads the words behind the first one as those of a command that takes none.
fn read_none(alloc: Global, words: &Words) -> Result<(), WordsFault>
    ensures read { OnOk result (are_no_words (drop 1 words.now) ≡ true) }
    ensures refused { result ≡ Err WordsFault.BadWords → are_no_words (drop 1 words.now) ≡ false }
{
    match found_in(alloc, &[], words) {
        Ok(matches) => {
            drop(matches);
            Ok(())
        }
        Err(refusal) => Err(refusal),
    }
}
