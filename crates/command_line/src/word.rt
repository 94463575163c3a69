//! A word that a command keeps.

use std::alloc::{AllocError, Global};
use std::marker::Model;

/// A word that a command was given, as a place or a name, which contracts see as its bytes.
#[derive(Drop)]
pub struct Word {
    text: String,
}

impl Model for Word {
    ghost use Rattle.std.specs.Prelude.{List, ℕ, string_bytes};

    ghost Value = { List ℕ };

    ghost view = { λ word. string_bytes word.text };
}

impl Word {
    ghost use Rattle.std.specs.Prelude.{◌≡◌, IfOk};

    /// A copy of this word.
    pub(crate) fn make(alloc: Global, word: &str) -> Result<Word, AllocError>
        ensures { IfOk result (λ made. made ≡ word.now) }
    {
        let text = String::from_str(alloc, word)?;
        Ok(Word { text })
    }

    /// Its text.
    pub fn as_str(&self) -> &str
        ensures { result.now ≡ self.now }
    {
        self.text.as_str()
    }
}
