//! The words of `make`.

ghost use Rattle.std.specs.Prelude.{◌≡◌, ◌≤◌, None, Some, IfOk, IfSome, option_map};
ghost use Rattle.clap.specs.Words.{rows_of, found_of};
ghost use Rattle.command_line.specs.Making.{make_options, options_in, AreMakeOptions};
ghost use Rattle.command_line.specs.OptionNumbers.{number_in, number_given};

use super::{Argument, Words, WordsFault, found_in};
use clap::ArgMatches;
use std::alloc::Global;
use topk_base::{MAX_LISTS, MAX_OBJECTS, MAX_START, number_up_to};

/// Which table is to be made.
#[derive(Clone, Copy)]
pub struct MakeOptions {
    /// The number that it is made from, at most 2^63 - 1.
    pub start: u64,
    /// How many objects it has, 1 to 200,000.
    pub count: u32,
    /// How many lists it has, 1 to 8.
    pub lists: u8,
}

/// Reads the words as those of `make`: `--start`, `--count` and `--lists`, each once and with a number
/// within its range.
pub(crate) fn read_make(alloc: Global, words: &Words) -> Result<MakeOptions, WordsFault>
    ensures read { IfOk result (λ options. make_options words.now ≡ Some options) }
    ensures refused { result ≡ Err WordsFault.BadWords → make_options words.now ≡ None }
{
    let arguments = [
        Argument::Needed("start"),
        Argument::Needed("count"),
        Argument::Needed("lists"),
    ];
    match found_in(alloc, &arguments, words) {
        Ok(matches) => {
            let options = options_of(&matches);
            drop(matches);
            options.ok_or(WordsFault::BadWords)
        }
        Err(fault) => Err(fault),
    }
}

/// What was given of the three options, where each number is within its range.
pub(crate) fn options_of(matches: &ArgMatches) -> Option<MakeOptions>
    ensures found { result ≡ options_in (rows_of (found_of matches.now)) }
    ensures within { IfSome result AreMakeOptions }
{
    Some(MakeOptions {
        start: number_of(matches, "start", 0, MAX_START)?,
        count: number_of(matches, "count", 1, u64::from(MAX_OBJECTS))? as u32,
        lists: number_of(matches, "lists", 1, MAX_LISTS as u64)? as u8,
    })
}

/// The number of an option, where one within its range was given.
pub(crate) fn number_of(matches: &ArgMatches, name: &str, least: u64, most: u64) -> Option<u64>
    ensures number { result ≡ number_in (rows_of (found_of matches.now)) name.now least most }
    ensures above { IfSome result (λ number. least ≤ number) }
    ensures within { IfSome result (λ number. number ≤ most) }
{
    number_given(matches.get_str(name), least, most)
}

/// The number that a value spells, where there is one within its range.
pub(crate) fn number_given(value: Option<&str>, least: u64, most: u64) -> Option<u64>
    ensures number { result ≡ number_given (option_map (λ text. text.now) value.entry) least most }
    ensures above { IfSome result (λ number. least ≤ number) }
    ensures within { IfSome result (λ number. number ≤ most) }
{
    match number_up_to(value?.as_bytes(), most) {
        Some(number) if number >= least => Some(number),
        _ => None,
    }
}
