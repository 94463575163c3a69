//! A ranked list that is read by calls.

ghost use Rattle.std.specs.Prelude.{◌≡◌, ◌≤◌, ℕ, List, Option, None, Ok, Err, length, vec_len, IfOk, IfErr, IfSome, OnErr, OnOk};
ghost use Rattle.ranked_list.specs.declared.row.Row.{Row as RowOf};
ghost use Rattle.source_api.specs.declared.counts.Counts.{Counts as CountsOf};
ghost use Rattle.source_api.specs.Counting.{NoneFell, TroubleHasCause, CountsAlone, MovedHasCause, IsNoMove, GaveNothing, GaveRows, GaveGrade, gave_rows, gave_grade};
ghost use Rattle.source_api.specs.Told.{HasEachOnce, IsPage, IsGrade};
ghost use Rattle.source_api.specs.Calls.{Call, with_call};

use ranked_list::Row;
use std::alloc::Global;

/// How a call of a source or a shelf fails.
#[derive(Clone, Copy, Debug, PartialEq, Eq)]
pub enum FailKind {
    /// The outside failed.
    Failed,
    /// What the outside gave isn't of the right form.
    Garbled,
    /// No memory was left.
    Memory,
}

/// Why a call on a source or a shelf gave no answer.
#[derive(Clone, Copy, Debug, PartialEq, Eq)]
pub enum Trouble {
    /// The call failed so. The count of faults has gone up where the outside failed, that of garbles where what it gave isn't of the
    /// right form, and none where no memory was left.
    Fail(FailKind),
    /// The reply stated the version `now` of the list in place of `had`, which `size` stated last. Nothing of the reply is used, and
    /// the count of moves has gone up.
    Moved { had: u64, now: u64 },
}

/// A ranked list, read a page at a time from the top, or by object.
///
/// `list` is its rows from the top down, where the source tells them. No call changes them, and a
/// list that is told has no object twice. `counts` is what the source has counted over its calls.
/// No count falls, and a count stands still at the last value of its type. A call counts what it
/// gave, or the trouble that it ended with, and nothing else. `calls` are the calls that were made of
/// the source, in their order, where it tells them.
///
/// A list may be replaced by another one, and each reply states the version that it is of. `at_hand` is
/// the version that the last answer of `size` stated, 0 before one, and `states` is the one that all
/// replies state, where the source tells it. Rows and grades are given of the version at hand alone.
pub trait Source: Send + Drop {
    ghost list: { Self → Option (List RowOf) };

    ghost counts: { Self → CountsOf };

    ghost calls: { Self → Option (List Call) } = { λ _. None };

    ghost at_hand: { Self → ℕ };

    ghost states: { Self → Option ℕ };

    /// How many rows the list has. The version that the reply states is the one at hand from then on.
    fn size(&mut self, alloc: Global) -> Result<u64, Trouble>
        ensures list { list self.new ≡ list self.old }
        ensures states { states self.new ≡ states self.old }
        ensures later { NoneFell (counts self.old) (counts self.new) }
        ensures cause { IfErr result (TroubleHasCause (counts self.old) (counts self.new)) }
        ensures given { GaveNothing (counts self.old) (counts self.new) }
        ensures quiet { OnOk result (counts self.new ≡ counts self.old) }
        ensures alone { IfErr result (CountsAlone (counts self.old) (counts self.new)) }
        ensures size { IfOk result (λ size. IfSome (list self.old) (λ rows. size ≡ length rows)) }
        ensures answered { IfOk result (λ size. calls self.new ≡ with_call (Call.Size (Ok size)) (calls self.old)) }
        ensures refused { IfErr result (λ why. calls self.new ≡ with_call (Call.Size (Err why)) (calls self.old)) }
        ensures version { OnOk result (IfSome (states self.old) (λ version. at_hand self.new ≡ version)) }
        ensures kept { OnErr result (at_hand self.new ≡ at_hand self.old) }
        ensures unmoved { IfErr result IsNoMove };

    /// Rows after the first `from` of the list, at most `count` of them. Where the list is told there
    /// is at least one unless the list has ended.
    fn page(&mut self, alloc: Global, from: u32, count: u32) -> Result<Vec<Row>, Trouble>
        requires { 1 ≤ count }
        ensures list { list self.new ≡ list self.old }
        ensures states { states self.new ≡ states self.old }
        ensures at_hand { at_hand self.new ≡ at_hand self.old }
        ensures later { NoneFell (counts self.old) (counts self.new) }
        ensures cause { IfErr result (TroubleHasCause (counts self.old) (counts self.new)) }
        ensures given { IfOk result (λ page. GaveRows (vec_len page) (counts self.old) (counts self.new)) }
        ensures gave_nothing { OnErr result (GaveNothing (counts self.old) (counts self.new)) }
        ensures quiet { IfOk result (λ page. counts self.new ≡ gave_rows (vec_len page) (counts self.old)) }
        ensures alone { IfErr result (CountsAlone (counts self.old) (counts self.new)) }
        ensures version { OnOk result (IfSome (states self.old) (λ version. version ≡ at_hand self.old)) }
        ensures moved { IfErr result (MovedHasCause (at_hand self.old) (states self.old)) }
        ensures bound { IfOk result (λ page. vec_len page ≤ count) }
        ensures page { IfOk result (λ page. IfSome (list self.old) (λ rows. IsPage rows from page.items)) }
        ensures answered { IfOk result (λ page. calls self.new ≡ with_call (Call.Page from count (Ok page.items)) (calls self.old)) }
        ensures refused { IfErr result (λ why. calls self.new ≡ with_call (Call.Page from count (Err why)) (calls self.old)) };

    /// The grade of an object, or None where the list hasn't the object.
    fn grade(&mut self, alloc: Global, object: u32) -> Result<Option<u32>, Trouble>
        ensures list { list self.new ≡ list self.old }
        ensures states { states self.new ≡ states self.old }
        ensures at_hand { at_hand self.new ≡ at_hand self.old }
        ensures later { NoneFell (counts self.old) (counts self.new) }
        ensures cause { IfErr result (TroubleHasCause (counts self.old) (counts self.new)) }
        ensures given { OnOk result (GaveGrade (counts self.old) (counts self.new)) }
        ensures gave_nothing { OnErr result (GaveNothing (counts self.old) (counts self.new)) }
        ensures quiet { OnOk result (counts self.new ≡ gave_grade (counts self.old)) }
        ensures alone { IfErr result (CountsAlone (counts self.old) (counts self.new)) }
        ensures version { OnOk result (IfSome (states self.old) (λ version. version ≡ at_hand self.old)) }
        ensures moved { IfErr result (MovedHasCause (at_hand self.old) (states self.old)) }
        ensures grade { IfOk result (λ grade. IfSome (list self.old) (λ rows. IsGrade rows object grade)) }
        ensures answered { IfOk result (λ grade. calls self.new ≡ with_call (Call.Grade object (Ok grade)) (calls self.old)) }
        ensures refused { IfErr result (λ why. calls self.new ≡ with_call (Call.Grade object (Err why)) (calls self.old)) };

    /// The version of the list that is at hand: the one that the last answer of `size` stated, 0 before one.
    fn version(&self) -> u64
        ensures { result ≡ at_hand self.now };

    /// Whether a call takes so long that calls of other sources had better go on beside it, as over a network. No clause depends on it.
    fn is_far(&self) -> bool {
        false
    }

    ghost distinct: { (source : Self) → IfSome (list source) HasEachOnce };
}
