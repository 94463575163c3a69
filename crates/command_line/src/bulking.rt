//! The words of `bulk`.

ghost use Rattle.std.specs.Prelude.{◌≡◌, None, Some, IfOk, IfSome};
ghost use Rattle.clap.specs.Words.{rows_of, found_of};
ghost use Rattle.command_line.specs.Bulking.{bulk_options, bulk_in, AreBulkOptions};

use super::making::{self, MakeOptions, number_of};
use super::running::settings_of;
use super::{Argument, Words, WordsFault, found_in};
use clap::ArgMatches;
use std::alloc::Global;
use topk_base::{MAX_QUERIES, Settings};

/// Which made queries are to be run, and over which made table.
#[derive(Clone, Copy)]
pub struct BulkOptions {
    /// The table.
    pub table: MakeOptions,
    /// How many queries are made, 1 to 64.
    pub queries: u32,
    /// How they are run.
    pub settings: Settings,
}

/// Reads the words as those of `bulk`: `--start`, `--count`, `--lists` and `--queries`, each once, and `--workers`, `--page` and
/// `--ahead`, each once at most, with numbers within their ranges.
pub(crate) fn read_bulk(alloc: Global, words: &Words) -> Result<BulkOptions, WordsFault>
    ensures read { IfOk result (λ options. bulk_options words.now ≡ Some options) }
    ensures refused { result ≡ Err WordsFault.BadWords → bulk_options words.now ≡ None }
    ensures within { IfOk result AreBulkOptions }
{
    let arguments = [
        Argument::Needed("start"),
        Argument::Needed("count"),
        Argument::Needed("lists"),
        Argument::Needed("queries"),
        Argument::Free("workers"),
        Argument::Free("page"),
        Argument::Free("ahead"),
    ];
    match found_in(alloc, &arguments, words) {
        Ok(matches) => {
            let options = options_of(&matches);
            drop(matches);
            options.ok_or(WordsFault::BadWords)
        }
        Err(fault) => Err(fault),
    }
}

/// What was given of the options, where each number is within its range.
fn options_of(matches: &ArgMatches) -> Option<BulkOptions>
    ensures found { result ≡ bulk_in (rows_of (found_of matches.now)) }
    ensures within { IfSome result AreBulkOptions }
{
    Some(BulkOptions {
        table: making::options_of(matches)?,
        queries: number_of(matches, "queries", 1, MAX_QUERIES)? as u32,
        settings: settings_of(matches)?,
    })
}
