//! The words of `node`.

ghost use Rattle.std.specs.Prelude.{◌≡◌, None, Some, IfOk};
ghost use Rattle.clap.specs.Words.{rows_of, found_of};
ghost use Rattle.command_line.specs.Node.{node_options, node_in, listening_in, version_in};

use super::making::{number_given, number_of};
use super::running::number_or;
use super::{Argument, Word, Words, WordsFault, found_in};
use clap::ArgMatches;
use std::alloc::Global;
use topk_base::{MAX_CONNS, MAX_VERSION};

/// The greatest number of a port.
const MAX_PORT: u64 = 65_535;

/// Where connections are taken, and how many.
#[derive(Clone, Copy)]
pub struct Listening {
    /// The number of the port, 1 to 65,535.
    pub at: u16,
    /// How many connections are taken at most, 1 to 1,000,000.
    pub conns: u64,
}

/// Which list is to be served, and where.
#[derive(Drop)]
pub struct NodeOptions {
    /// The place of the catalog that has the list.
    pub catalog: Word,
    /// The name of the list.
    pub name: Word,
    /// Where the connections come from.
    pub listening: Listening,
    /// The version that the replies state, at most 2^63 - 1, or None for the one that the list's source has at hand.
    pub version: Option<u64>,
}

/// Reads the words as those of `node`: the place of a catalog, the name of a list, `--at`, once, and `--conns` and `--version`,
/// each once at most, with numbers within their ranges.
pub(crate) fn read_node(alloc: Global, words: &Words) -> Result<NodeOptions, WordsFault>
    ensures read { IfOk result (λ options. node_options words.now ≡ Some options) }
    ensures refused { result ≡ Err WordsFault.BadWords → node_options words.now ≡ None }
{
    let arguments = [
        Argument::Place("catalog"),
        Argument::Place("name"),
        Argument::Needed("at"),
        Argument::Free("conns"),
        Argument::Free("version"),
    ];
    match found_in(alloc, &arguments, words) {
        Ok(matches) => {
            let options = options_of(alloc, &matches);
            drop(matches);
            options
        }
        Err(fault) => Err(fault),
    }
}

/// What was given of the places and the options, where each number is within its range.
fn options_of(alloc: Global, matches: &ArgMatches) -> Result<NodeOptions, WordsFault>
    ensures read { IfOk result (λ options. node_in (rows_of (found_of matches.now)) ≡ Some options) }
    ensures refused { result ≡ Err WordsFault.BadWords → node_in (rows_of (found_of matches.now)) ≡ None }
{
    let Some(listening) = listening_of(matches) else {
        return Err(WordsFault::BadWords);
    };
    let Some(version) = version_of(matches) else {
        return Err(WordsFault::BadWords);
    };
    let Some(place) = matches.get_str("catalog") else {
        return Err(WordsFault::BadWords);
    };
    let Some(list) = matches.get_str("name") else {
        return Err(WordsFault::BadWords);
    };
    let Ok(catalog) = Word::make(alloc, place) else {
        return Err(WordsFault::Memory);
    };
    match Word::make(alloc, list) {
        Ok(name) => Ok(NodeOptions {
            catalog,
            name,
            listening,
            version,
        }),
        Err(_) => {
            drop(catalog);
            Err(WordsFault::Memory)
        }
    }
}

/// Where connections are taken, and how many: as many as there may be where it wasn't said.
pub(crate) fn listening_of(matches: &ArgMatches) -> Option<Listening>
    ensures { result ≡ listening_in (rows_of (found_of matches.now)) }
{
    let at = number_of(matches, "at", 1, MAX_PORT)? as u16;
    let conns = number_or(matches, "conns", MAX_CONNS, 1, MAX_CONNS)?;
    Some(Listening { at, conns })
}

/// The version that was asked for, or that none was. None is a word that is no version.
fn version_of(matches: &ArgMatches) -> Option<Option<u64>>
    ensures { result ≡ version_in (rows_of (found_of matches.now)) }
{
    let Some(text) = matches.get_str("version") else {
        return Some(None);
    };
    let Some(version) = number_given(Some(text), 0, MAX_VERSION) else {
        return None;
    };
    Some(Some(version))
}
