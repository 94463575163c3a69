//! The words of a command line.

ghost use Rattle.std.specs.Prelude.{◌≡◌, ◌+◌, ◌<◌, ◌^◌, ◌++◌, ◌∷◌, [], length, map, slice_get, string_bytes, OnOk, OnErr, ◌==◌};
ghost use Rattle.std.specs.Option.{option_copied};

use super::Memory;
use std::alloc::Global;
use std::marker::Model;

/// The words after the program's name, which contracts see as the list of their bytes.
#[derive(Drop)]
pub struct Words {
    alloc: Global,
    words: Vec<String>,
}

impl Model for Words {
    ghost use Rattle.std.specs.Prelude.{List, ℕ, ◌<◌, ◌^◌, map, vec_len, string_bytes};

    ghost Value = { List (List ℕ) };

    ghost view = { λ w. map string_bytes w.words.items };

    ghost invariant = { λ w. vec_len w.words < 2 ^ 32 };
}

impl Words {
    /// No words. Takes no memory yet.
    pub fn make(alloc: Global) -> Words
        ensures { result ≡ [] }
    {
        Words {
            alloc,
            words: Vec::new(alloc),
        }
    }

    /// Puts a word at the end. Where memory is refused nothing has changed.
    pub fn push(&mut self, word: &str) -> Result<(), Memory>
        requires { length self.old + 1 < 2 ^ 32 }
        ensures ok { OnOk result (self.new ≡ self.old ++ word.now ∷ []) }
        ensures err { OnErr result (self.new ≡ self.old) }
    {
        let Ok(word) = String::from_str(self.alloc, word) else {
            return Err(Memory);
        };
        let Ok(()) = self.words.push(word) else {
            return Err(Memory);
        };
        Ok(())
    }

    /// The words, in their order.
    pub(crate) fn as_slice(&self) -> &[String]
        ensures { map string_bytes result.now ≡ self.now }
    {
        self.words.as_slice()
    }

    /// How many words there are.
    pub fn len(&self) -> u32
        ensures { result ≡ length self.now }
    {
        self.words.len() as u32
    }

    /// Whether there are none.
    pub fn is_empty(&self) -> bool
        ensures { result ≡ (length self.now == 0) }
    {
        self.words.is_empty()
    }

    /// The word at a place from 0, or None past the end.
    pub fn get(&self, place: u32) -> Option<&str>
        ensures { option_copied result ≡ slice_get self.now place }
    {
        match self.words.get(place as usize) {
            Some(word) => Some(word.as_str()),
            None => None,
        }
    }
}
