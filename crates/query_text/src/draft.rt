//! A query as far as it is read.

ghost use Rattle.std.specs.Prelude.{◌≡◌, ℕ, ◌≤◌, [], List, OnOk, IfErr, length};
ghost use Rattle.query_text.specs.Words.{opened_by};
ghost use Rattle.query_text.specs.Draft.{names_of, Takes, Misses, IsDraftPlain};

use super::algorithm::Algorithm;
use super::fault::QueryFault;
use super::frame::{Frame, push};
use super::named::{algorithm_of, count_within, is_text, list_of, number_within, opened_by};
use super::parser_state::ParserState;
use monotone_fn::{Costs, Node};
use std::alloc::Global;
use std::mem;
use topk_base::{MAX_LISTS, MAX_WEIGHT};

/// What the words of a query line mean, as far as they are read.
#[derive(Drop)]
pub(crate) struct Draft {
    pub(crate) k: u32,
    /// The different names, in the order in which they come first.
    pub(crate) names: Vec<Vec<u8>>,
    /// The open operators, the innermost last.
    pub(crate) frames: Vec<Frame>,
    /// The operand that was read last.
    pub(crate) operand: Node,
    /// The weight that was read last.
    pub(crate) weight: u64,
    /// The first number of a factor, before the second is read.
    pub(crate) over: u32,
    pub(crate) algorithm: Algorithm,
    /// The cost of a sorted access, before that of a random one is read.
    pub(crate) sorted: u32,
    pub(crate) cost: Option<Costs>,
    pub(crate) room: Option<u32>,
}

impl Draft {
    /// A draft of which nothing is read.
    pub(crate) fn new(alloc: Global) -> Draft
        ensures names { names_of result ≡ [] }
        ensures frames { result.frames.items ≡ [] }
        ensures plain { IsDraftPlain result }
    {
        Draft {
            k: 0,
            names: Vec::new(alloc),
            frames: Vec::new(alloc),
            operand: Node::List(0),
            weight: 0,
            over: 0,
            algorithm: Algorithm::Ta,
            sorted: 0,
            cost: None,
            room: None,
        }
    }

    /// Takes the word at the place `at`, which is a whole word of the stage. After an error the draft
    /// isn't to be used.
    pub(crate) fn take(
        &mut self,
        alloc: Global,
        stage: ParserState,
        word: &[u8],
        at: u32,
    ) -> Result<(), QueryFault>
        requires { length (names_of self.old) ≤ MAX_LISTS }
        ensures taken { OnOk result (Takes stage self.old self.new word.now) }
        ensures missed { IfErr result (Misses stage self.old word.now at) }
    {
        match stage {
            ParserState::Count => self.take_k(word, at),
            ParserState::Operand => self.take_operand(alloc, word, at),
            ParserState::Behind => self.take_behind(word),
            ParserState::Weight => self.take_weight(word, at),
            ParserState::Times => {
                self.take_times();
                Ok(())
            }
            ParserState::Algorithm => self.take_algorithm(word),
            ParserState::Factor => self.take_factor(word, at),
            ParserState::Under => self.take_under(word, at),
            ParserState::Depth => self.take_depth(word, at),
            ParserState::Sorted => self.take_sorted(word, at),
            ParserState::Random => self.take_random(word, at),
            ParserState::Room => self.take_room(word, at),
            ParserState::Top
            | ParserState::By
            | ParserState::Over
            | ParserState::Options
            | ParserState::Between
            | ParserState::Priced
            | ParserState::Done => Ok(()),
        }
    }

    fn take_k(&mut self, word: &[u8], at: u32) -> Result<(), QueryFault>
        requires { length (names_of self.old) ≤ MAX_LISTS }
        ensures taken { OnOk result (Takes ParserState.Count self.old self.new word.now) }
        ensures missed { IfErr result (Misses ParserState.Count self.old word.now at) }
    {
        self.k = count_within(word, at)?;
        Ok(())
    }

    fn take_weight(&mut self, word: &[u8], at: u32) -> Result<(), QueryFault>
        requires { length (names_of self.old) ≤ MAX_LISTS }
        ensures taken { OnOk result (Takes ParserState.Weight self.old self.new word.now) }
        ensures missed { IfErr result (Misses ParserState.Weight self.old word.now at) }
    {
        self.weight = number_within(word, 0, MAX_WEIGHT, at)?;
        Ok(())
    }

    fn take_sorted(&mut self, word: &[u8], at: u32) -> Result<(), QueryFault>
        requires { length (names_of self.old) ≤ MAX_LISTS }
        ensures taken { OnOk result (Takes ParserState.Sorted self.old self.new word.now) }
        ensures missed { IfErr result (Misses ParserState.Sorted self.old word.now at) }
    {
        self.sorted = count_within(word, at)?;
        Ok(())
    }

    fn take_random(&mut self, word: &[u8], at: u32) -> Result<(), QueryFault>
        requires { length (names_of self.old) ≤ MAX_LISTS }
        ensures taken { OnOk result (Takes ParserState.Random self.old self.new word.now) }
        ensures missed { IfErr result (Misses ParserState.Random self.old word.now at) }
    {
        self.cost = Some(Costs {
            sorted: self.sorted,
            random: count_within(word, at)?,
        });
        Ok(())
    }

    fn take_room(&mut self, word: &[u8], at: u32) -> Result<(), QueryFault>
        requires { length (names_of self.old) ≤ MAX_LISTS }
        ensures taken { OnOk result (Takes ParserState.Room self.old self.new word.now) }
        ensures missed { IfErr result (Misses ParserState.Room self.old word.now at) }
    {
        self.room = Some(count_within(word, at)?);
        Ok(())
    }

    /// Takes the word of an algorithm. One whose numbers are still to come stands as `ta` until then.
    fn take_algorithm(&mut self, word: &[u8]) -> Result<(), QueryFault>
        requires { length (names_of self.old) ≤ MAX_LISTS }
        ensures taken { OnOk result (Takes ParserState.Algorithm self.old self.new word.now) }
        ensures missed { IfErr result (λ fault. fault ≡ QueryFault.Memory) }
    {
        self.algorithm = algorithm_of(word).unwrap_or(Algorithm::Ta);
        self.cost = None;
        self.room = None;
        Ok(())
    }

    fn take_factor(&mut self, word: &[u8], at: u32) -> Result<(), QueryFault>
        requires { length (names_of self.old) ≤ MAX_LISTS }
        ensures taken { OnOk result (Takes ParserState.Factor self.old self.new word.now) }
        ensures missed { IfErr result (Misses ParserState.Factor self.old word.now at) }
    {
        self.over = count_within(word, at)?;
        Ok(())
    }

    fn take_under(&mut self, word: &[u8], at: u32) -> Result<(), QueryFault>
        requires { length (names_of self.old) ≤ MAX_LISTS }
        ensures taken { OnOk result (Takes ParserState.Under self.old self.new word.now) }
        ensures missed { IfErr result (Misses ParserState.Under self.old word.now at) }
    {
        self.algorithm = Algorithm::Theta {
            p: self.over,
            q: count_within(word, at)?,
        };
        self.cost = None;
        self.room = None;
        Ok(())
    }

    fn take_depth(&mut self, word: &[u8], at: u32) -> Result<(), QueryFault>
        requires { length (names_of self.old) ≤ MAX_LISTS }
        ensures taken { OnOk result (Takes ParserState.Depth self.old self.new word.now) }
        ensures missed { IfErr result (Misses ParserState.Depth self.old word.now at) }
    {
        self.algorithm = Algorithm::Early {
            depth: count_within(word, at)?,
        };
        self.cost = None;
        self.room = None;
        Ok(())
    }

    fn take_operand(&mut self, alloc: Global, word: &[u8], at: u32) -> Result<(), QueryFault>
        requires { length (names_of self.old) ≤ MAX_LISTS }
        ensures taken { OnOk result (Takes ParserState.Operand self.old self.new word.now) }
        ensures missed { IfErr result (Misses ParserState.Operand self.old word.now at) }
    {
        let Some(operator) = opened_by(word) else {
            return self.take_name(alloc, word, at);
        };
        push(&mut self.frames, Frame::new(alloc, operator))
    }

    fn take_behind(&mut self, word: &[u8]) -> Result<(), QueryFault>
        requires { length (names_of self.old) ≤ MAX_LISTS }
        ensures taken { OnOk result (Takes ParserState.Behind self.old self.new word.now) }
        ensures missed { IfErr result (λ fault. fault ≡ QueryFault.Memory) }
    {
        let Some(frame) = self.frames.pop() else {
            return Ok(());
        };
        let node = mem::replace(&mut self.operand, Node::List(0));
        if is_text(word, b",") {
            let mut frame = frame;
            let outcome = frame.add(node);
            self.frames.push_reserved(frame);
            return outcome;
        }
        let whole = frame.close(node)?;
        self.set_operand(whole);
        Ok(())
    }

    fn take_times(&mut self)
        requires { length (names_of self.old) ≤ MAX_LISTS }
        ensures { (word : List ℕ) → Takes ParserState.Times self.old self.new word }
    {
        let Some(frame) = self.frames.pop() else {
            return;
        };
        let mut frame = frame;
        frame.weight = Some(self.weight);
        self.frames.push_reserved(frame);
    }

    /// Takes the name of a list as an operand.
    fn take_name(&mut self, alloc: Global, word: &[u8], at: u32) -> Result<(), QueryFault>
        requires few { length (names_of self.old) ≤ MAX_LISTS }
        requires name { opened_by word.now ≡ None }
        ensures taken { OnOk result (Takes ParserState.Operand self.old self.new word.now) }
        ensures missed { IfErr result (Misses ParserState.Operand self.old word.now at) }
    {
        let list = list_of(alloc, &mut self.names, word, at)?;
        self.set_operand(Node::List(list));
        Ok(())
    }

    /// Keeps an operand in place of the one before it.
    fn set_operand(&mut self, node: Node)
        ensures { self.new ≡ record self.old { operand = node } }
    {
        drop(mem::replace(&mut self.operand, node));
    }
}
