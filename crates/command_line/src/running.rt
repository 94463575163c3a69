//! The words of `run`.

ghost use Rattle.std.specs.Prelude.{◌≡◌, ◌≤◌, None, Some, IfOk, IfSome};
ghost use Rattle.clap.specs.Words.{rows_of, found_of};
ghost use Rattle.command_line.specs.OptionNumbers.{free_number_in};
ghost use Rattle.command_line.specs.Running.{run_options, run_in, settings_in};
ghost use Rattle.topk_base.specs.Ranges.{AreSettings};

use super::making::number_given;
use super::{Argument, Word, Words, WordsFault, found_in};
use clap::ArgMatches;
use std::alloc::Global;
use topk_base::{MAX_AHEAD, MAX_PAGE, MAX_WORKERS, Settings};

/// Which queries are to be run.
#[derive(Drop)]
pub struct RunOptions {
    /// The place of the catalog of their lists.
    pub catalog: Word,
    /// How they are run.
    pub settings: Settings,
}

/// Reads the words as those of `run`: the place of a catalog, and `--workers`, `--page` and `--ahead`,
/// each once at most and with a number within its range.
pub(crate) fn read_run(alloc: Global, words: &Words) -> Result<RunOptions, WordsFault>
    ensures read { IfOk result (λ options. run_options words.now ≡ Some options) }
    ensures refused { result ≡ Err WordsFault.BadWords → run_options words.now ≡ None }
    ensures settings { IfOk result (λ options. AreSettings options.settings) }
{
    let arguments = [
        Argument::Place("catalog"),
        Argument::Free("workers"),
        Argument::Free("page"),
        Argument::Free("ahead"),
    ];
    match found_in(alloc, &arguments, words) {
        Ok(matches) => {
            let options = options_of(alloc, &matches);
            drop(matches);
            options
        }
        Err(fault) => Err(fault),
    }
}

/// What was given of the place and the options, where each number is within its range.
fn options_of(alloc: Global, matches: &ArgMatches) -> Result<RunOptions, WordsFault>
    ensures read { IfOk result (λ options. run_in (rows_of (found_of matches.now)) ≡ Some options) }
    ensures refused { result ≡ Err WordsFault.BadWords → run_in (rows_of (found_of matches.now)) ≡ None }
    ensures settings { IfOk result (λ options. AreSettings options.settings) }
{
    let Some(settings) = settings_of(matches) else {
        return Err(WordsFault::BadWords);
    };
    let Some(name) = matches.get_str("catalog") else {
        return Err(WordsFault::BadWords);
    };
    match Word::make(alloc, name) {
        Ok(catalog) => Ok(RunOptions { catalog, settings }),
        Err(_) => Err(WordsFault::Memory),
    }
}

/// What was given of the options, and what stands for those that weren't.
pub(crate) fn settings_of(matches: &ArgMatches) -> Option<Settings>
    ensures found { result ≡ settings_in (rows_of (found_of matches.now)) }
    ensures within { IfSome result AreSettings }
{
    let workers = number_or(matches, "workers", 4, 1, MAX_WORKERS)? as u32;
    let page = number_or(matches, "page", 100, 1, MAX_PAGE)? as u32;
    let ahead = number_or(matches, "ahead", 2, 0, MAX_AHEAD)? as u32;
    Some(Settings {
        workers,
        page,
        ahead,
    })
}

/// The number of an option where it was given and its number is within its range, or the one that stands
/// for it where it wasn't.
pub(crate) fn number_or(
    matches: &ArgMatches,
    name: &str,
    default: u64,
    least: u64,
    most: u64,
) -> Option<u64>
    requires above { least ≤ default }
    requires within { default ≤ most }
    ensures number { result ≡ free_number_in (rows_of (found_of matches.now)) name.now default least most }
    ensures above { IfSome result (λ number. least ≤ number) }
    ensures within { IfSome result (λ number. number ≤ most) }
{
    match matches.get_str(name) {
        Some(text) => number_given(Some(text), least, most),
        None => Some(default),
    }
}
