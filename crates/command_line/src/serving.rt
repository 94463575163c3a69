//! The words of `serve`.

ghost use Rattle.std.specs.Prelude.{◌≡◌, None, Some, IfOk};
ghost use Rattle.clap.specs.Words.{rows_of, found_of};
ghost use Rattle.command_line.specs.Serving.{serve_options, serve_in};
ghost use Rattle.topk_base.specs.Ranges.{AreSettings};

use super::node::{Listening, listening_of};
use super::running::settings_of;
use super::{Argument, Word, Words, WordsFault, found_in};
use clap::ArgMatches;
use std::alloc::Global;
use topk_base::Settings;

/// Which lists queries are to be answered over, and where they come from.
#[derive(Drop)]
pub struct ServeOptions {
    /// The place of the catalog of the lists.
    pub catalog: Word,
    /// Where the connections come from.
    pub listening: Listening,
    /// How the queries are run.
    pub settings: Settings,
}

/// Reads the words as those of `serve`: the place of a catalog, `--at`, once, and `--conns`, `--workers`, `--page` and `--ahead`,
/// each once at most, with numbers within their ranges.
pub(crate) fn read_serve(alloc: Global, words: &Words) -> Result<ServeOptions, WordsFault>
    ensures read { IfOk result (λ options. serve_options words.now ≡ Some options) }
    ensures refused { result ≡ Err WordsFault.BadWords → serve_options words.now ≡ None }
    ensures settings { IfOk result (λ options. AreSettings options.settings) }
{
    let arguments = [
        Argument::Place("catalog"),
        Argument::Needed("at"),
        Argument::Free("conns"),
        Argument::Free("workers"),
        Argument::Free("page"),
        Argument::Free("ahead"),
    ];
    match found_in(alloc, &arguments, words) {
        Ok(matches) => {
            let options = options_of(alloc, &matches);
            drop(matches);
            options
        }
        Err(fault) => Err(fault),
    }
}

/// What was given of the place and the options, where each number is within its range.
fn options_of(alloc: Global, matches: &ArgMatches) -> Result<ServeOptions, WordsFault>
    ensures read { IfOk result (λ options. serve_in (rows_of (found_of matches.now)) ≡ Some options) }
    ensures refused { result ≡ Err WordsFault.BadWords → serve_in (rows_of (found_of matches.now)) ≡ None }
    ensures settings { IfOk result (λ options. AreSettings options.settings) }
{
    let Some(listening) = listening_of(matches) else {
        return Err(WordsFault::BadWords);
    };
    let Some(settings) = settings_of(matches) else {
        return Err(WordsFault::BadWords);
    };
    let Some(name) = matches.get_str("catalog") else {
        return Err(WordsFault::BadWords);
    };
    match Word::make(alloc, name) {
        Ok(catalog) => Ok(ServeOptions {
            catalog,
            listening,
            settings,
        }),
        Err(_) => Err(WordsFault::Memory),
    }
}
