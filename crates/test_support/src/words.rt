//! The words of a command line.

use super::Unmade;
use command_line::Words;
use std::alloc::Global;

/// The most words of a command line in a test.
const MAX_WORDS: u32 = 100;

/// These words. There are at most 100 of them.
pub fn words_of(alloc: Global, texts: &[&str]) -> Result<Words, Unmade> {
    let mut words = Words::make(alloc);
    for text in texts {
        if words.len() >= MAX_WORDS {
            return Err(Unmade::TooMany);
        }
        words.push(text)?;
    }
    Ok(words)
}
