use crate::facts::{Facts, Tally};
use std::collections::LinkedList;

/// What a pass saw of the mark and of what is due, at its last turn.
pub struct Sight {
    /// The value's mark.
    pub mark: u32,
    /// The value's `due`.
    pub due: u8,
}

/// What a pass knows, and what it did. It stands in clauses alone: no value of it is made.
pub struct Known<E> {
    /// The name of the value.
    pub name: (u32, u32),
    /// The log that it saw last.
    pub seen: LinkedList<E>,
    /// The asks that it saw last.
    pub met: LinkedList<u32>,
    /// The tally that it saw last.
    pub tally: Tally,
    /// What it saw at the end of its own last turn.
    pub sight: Sight,
    /// The highest mark to which a turn of it raised the value's mark.
    pub high: u32,
    /// How many asks its turns added.
    pub asked: u64,
    /// The asks that its turns added. There are as many as `asked` says.
    pub mine: LinkedList<u32>,
    /// How many of the lock's 2^32 parts it has.
    pub parts: u64,
    /// How many turns it had.
    pub turns: u64,
    /// The facts of the values that it gave, turn by turn.
    pub gave: LinkedList<Facts<E>>,
    /// Whether it may add to the log and to the tally. One pass at most may.
    pub writer: bool,
    /// While it has the turn, the facts of the value as it was taken.
    pub held: Option<Facts<E>>,
}
