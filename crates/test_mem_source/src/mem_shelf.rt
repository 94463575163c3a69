//! A shelf that stands in memory.

ghost use Rattle.std.specs.Prelude.{◌≡◌, ◌∷◌, [], ℕ, List, Option, Some, OnOk, OnErr, option_map};
ghost use Rattle.std.specs.Option.{option_and_then};
ghost use Rattle.source_api.specs.Places.{counts_at, is_known, SameElsewhere, put_back_at};
ghost use Rattle.test_mem_source.specs.Shelved.{Shelved, text_at, source_at};
ghost use Rattle.test_mem_source.specs.OnShelf.{placed_texts, placed_sources, in_limit, AnswersText, AnswersTake, AfterText, AfterTake};

use super::MemSource;
use source_api::{FailKind, Ledger, Memory, PlaceCounts, Shelf, Trouble};
use std::alloc::Global;
use std::marker::Model;
use topk_base::MAX_LIST_TEXT;

/// A place and its text.
#[derive(Drop)]
struct HeldText {
    place: Vec<u8>,
    text: Vec<u8>,
}

/// A place and its source.
#[derive(Drop)]
struct HeldSource {
    place: Vec<u8>,
    source: MemSource,
}

/// Texts and sources in memory, by place, with calls that are to fail.
///
/// The calls for texts and those for sources are counted apart, over all places, from 1. A call whose
/// number stands in the list of its kind fails, and so does a call for what the place hasn't. A call
/// that ran out of memory isn't counted. Contracts see it as the record of its parts.
#[derive(Drop)]
pub struct MemShelf {
    alloc: Global,
    texts: Vec<HeldText>,
    sources: Vec<HeldSource>,
    /// The numbers of the calls for texts that fail.
    pub fail_texts: Vec<u64>,
    /// The numbers of the calls for sources that fail.
    pub fail_takes: Vec<u64>,
    text_calls: u64,
    take_calls: u64,
    ledger: Ledger,
}

impl Model for MemShelf {
    ghost use Rattle.test_mem_source.specs.Shelved.{Shelved};

    ghost Value = { Shelved };

    ghost use Rattle.test_mem_source.specs.OnShelf.{placed_texts, placed_sources};

    ghost view = { λ s. record {
      texts = placed_texts s.texts.items;
      sources = placed_sources s.sources.items;
      fail_texts = s.fail_texts.items;
      fail_takes = s.fail_takes.items;
      text_calls = s.text_calls;
      take_calls = s.take_calls;
      ledger = s.ledger;
    } };
}

impl MemShelf {
    /// A shelf without texts and sources, on which no call is to fail, and which had no call yet.
    pub fn make(alloc: Global) -> MemShelf
        ensures { result ≡ record {
          texts = [];
          sources = [];
          fail_texts = [];
          fail_takes = [];
          text_calls = 0;
          take_calls = 0;
          ledger = [];
        } }
    {
        MemShelf {
            alloc,
            texts: Vec::new(alloc),
            sources: Vec::new(alloc),
            fail_texts: Vec::new(alloc),
            fail_takes: Vec::new(alloc),
            text_calls: 0,
            take_calls: 0,
            ledger: Ledger::make(alloc),
        }
    }

    /// Adds the text of a place, in place of the one that it had. Where memory is refused nothing has
    /// changed.
    pub fn add_text(&mut self, place: &str, text: &[u8]) -> Result<(), Memory>
        ensures ok { OnOk result (self.new ≡ record self.old { texts = record { place = place.now; text = text.now } ∷ self.old.texts }) }
        ensures err { OnErr result (self.new ≡ self.old) }
    {
        let place = Vec::from_slice(self.alloc, place.as_bytes())?;
        let text = Vec::from_slice(self.alloc, text)?;
        self.texts.insert(0, HeldText { place, text })?;
        Ok(())
    }

    /// Adds the source of a place, in place of the one that it had. Where memory is refused nothing
    /// has changed and the source is dropped.
    pub fn add_source(&mut self, place: &str, source: MemSource) -> Result<(), Memory>
        ensures ok { OnOk result (self.new ≡ record self.old { sources = record { place = place.now; source = source } ∷ self.old.sources }) }
        ensures err { OnErr result (self.new ≡ self.old) }
    {
        let place = Vec::from_slice(self.alloc, place.as_bytes())?;
        self.sources.insert(0, HeldSource { place, source })?;
        Ok(())
    }

    /// What is counted at the place.
    pub fn counts_at(&self, place: &str) -> PlaceCounts
        ensures { result ≡ counts_at self.now.ledger place.now }
    {
        self.ledger.at(place)
    }

    /// How many rows the sources had given that were put back at the place.
    pub fn rows_given_at(&self, place: &str) -> u64
        ensures { result ≡ (counts_at self.now.ledger place.now).sources.rows_given }
    {
        self.ledger.at(place).sources.rows_given
    }
}

impl Shelf for MemShelf {
    ghost use Rattle.test_mem_source.specs.OnShelf.{told_at, version_at};
    ghost use Rattle.source_api.specs.Places.{counts_at, is_known};
    ghost use Rattle.test_mem_source.specs.Shelved.{text_at};

    type Item = MemSource;

    ghost texts = { λ s. text_at s.texts };

    ghost lists = { told_at };

    ghost versions = { version_at };

    ghost at = { λ s. counts_at s.ledger };

    ghost knows = { λ s. is_known s.ledger };

    /// The text that was added last, unless the call is to fail or the text is too long.
    fn text(&mut self, alloc: Global, place: &str) -> Result<Vec<u8>, Trouble>
        ensures answer { AnswersText self.old place.now result }
        ensures after { AfterText self.old self.new place.now result }
    {
        let call = self.text_calls.saturating_add(1);
        let fails = self.fail_texts.contains(&call);
        let held = text_of(&self.texts, place.as_bytes());
        match held {
            Some(text) if !fails => {
                let Ok(copy) = Vec::from_slice(alloc, text) else {
                    return Err(Trouble::Fail(FailKind::Memory));
                };
                self.text_calls = call;
                Ok(copy)
            }
            _ => {
                if self.ledger.count_text_fault(alloc, place).is_err() {
                    return Err(Trouble::Fail(FailKind::Memory));
                }
                self.text_calls = call;
                Err(Trouble::Fail(FailKind::Failed))
            }
        }
    }

    /// A copy of the source that was added last, as it was before its first call, unless the call is
    /// to fail.
    fn take(&mut self, alloc: Global, place: &str) -> Result<MemSource, Trouble>
        ensures answer { AnswersTake self.old place.now result }
        ensures after { AfterTake self.old self.new place.now result }
    {
        let call = self.take_calls.saturating_add(1);
        let fails = self.fail_takes.contains(&call);
        let held = source_of(&self.sources, place.as_bytes());
        match held {
            Some(source) if !fails => {
                let Ok(copy) = source.copy(alloc) else {
                    return Err(Trouble::Fail(FailKind::Memory));
                };
                if self.ledger.count_taken(alloc, place).is_err() {
                    drop(copy);
                    return Err(Trouble::Fail(FailKind::Memory));
                }
                self.take_calls = call;
                Ok(copy)
            }
            _ => {
                if self.ledger.count_take_fault(alloc, place).is_err() {
                    return Err(Trouble::Fail(FailKind::Memory));
                }
                self.take_calls = call;
                Err(Trouble::Fail(FailKind::Failed))
            }
        }
    }

    fn put_back(&mut self, place: &str, item: MemSource)
        ensures after { self.new ≡ record self.old { ledger = self.new.ledger } }
        ensures known { (other : List ℕ) → is_known self.new.ledger other ≡ is_known self.old.ledger other }
        ensures elsewhere { SameElsewhere place.now (counts_at self.old.ledger) (counts_at self.new.ledger) }
        ensures counts { counts_at self.new.ledger place.now
            ≡ put_back_at (is_known self.old.ledger place.now) item.counts (counts_at self.old.ledger place.now) }
    {
        self.ledger.add_source(place, item.counts());
    }
}

/// The text of a place that isn't too long.
fn text_of<'a>(texts: &'a [HeldText], place: &[u8]) -> Option<&'a [u8]>
    ensures { option_map (λ text. text.now) result ≡ option_and_then in_limit (text_at (placed_texts texts.now) place.now) }
{
    let text = text_held(texts, place)?;
    if text.len() as u64 <= MAX_LIST_TEXT {
        Some(text)
    } else {
        None
    }
}

/// The text of a place.
fn text_held<'a>(texts: &'a [HeldText], place: &[u8]) -> Option<&'a [u8]>
    ensures { option_map (λ text. text.now) result ≡ text_at (placed_texts texts.now) place.now }
{
    for held in texts {
        if held.place.as_slice() == place {
            return Some(held.text.as_slice());
        }
    }
    None
}

/// The source of a place.
fn source_of<'a>(sources: &'a [HeldSource], place: &[u8]) -> Option<&'a MemSource>
    ensures { option_map (λ source. source.now) result ≡ source_at (placed_sources sources.now) place.now }
{
    for held in sources {
        if held.place.as_slice() == place {
            return Some(&held.source);
        }
    }
    None
}
