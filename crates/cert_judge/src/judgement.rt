//! What is told of a text.

use bundle_text::Bundle;

/// What is told of a text that may be a certificate: the first of these that holds.
#[derive(Drop)]
pub enum Judgement {
    /// It is no certificate. The line, counted from 1, is the first with which no certificate begins, or the
    /// number of lines plus one.
    BadLine {
        line: u64,
    },
    /// No table agrees with the accesses up to this number, from 1, and this is the first such; `kind` is the
    /// first kind, from 1, of which the access is.
    Inconsistent {
        at: u64,
        kind: u8,
    },
    /// The access of this number, from 1, is random, and no earlier sorted access gave its object.
    WildGuess {
        at: u64,
    },
    /// The answer has `given` objects, and these aren't `k`, or an object comes twice.
    WrongSize {
        given: u32,
        k: u32,
    },
    /// The first object of the answer that no sorted access gave.
    UnseenAnswer {
        object: u32,
    },
    /// The first line, counted from 1, with a figure that isn't the one that the accesses give.
    Figure {
        line: u64,
    },
    /// The accesses fix the answer.
    Fixes,
    /// On some table that agrees with the accesses, `outside` has a greater aggregate than `inside`, which is in the
    /// answer. The counter is that table under the query's names, with the query's text.
    Beaten {
        inside: u32,
        outside: u32,
        low: u64,
        high: u64,
        counter: Bundle,
    },
}
