use std::collections::LinkedList;

/// Counts of what went wrong, by kind. None of them ever falls.
#[derive(Clone, Copy, Debug, PartialEq, Eq)]
pub struct Tally {
    /// Calls that failed.
    pub failed: u64,
    /// Calls whose answer couldn't be read.
    pub garbled: u64,
    /// Calls that ran out of memory.
    pub memory: u64,
}

/// What proofs know of a value behind the lock. It stands in clauses alone: no value of it is made.
pub struct Facts<E> {
    /// What the value is about. It never changes.
    pub name: (u32, u32),
    /// The entries of the log, in the order in which they came.
    pub log: LinkedList<E>,
    /// What was asked, in the order of asking. Its length is the number of asks.
    pub asks: LinkedList<u32>,
    /// The highest mark that was set.
    pub mark: u32,
    /// The counts of what went wrong.
    pub tally: Tally,
    /// A number that says what is due next. It is the user's own, and the lock only passes it on.
    pub due: u8,
}
