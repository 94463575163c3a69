//! The choice of a random phase.

ghost use Rattle.std.specs.Prelude.{◌≡◌, ℕ, length, MatchOption};
ghost use Rattle.monotone_fn.specs.Shape.{list_count};
ghost use Rattle.monotone_fn.specs.Value.{value};
ghost use Rattle.topk_theory.specs.Order.{kth_low};
ghost use Rattle.topk_theory.specs.NoRandom.{seen_items, exceeds};
ghost use Rattle.topk_theory.specs.Combined.{choice};
ghost use Rattle.ca_core.specs.Open.{KeepsOpen};
ghost use Rattle.ca_core.specs.Leading.{LeadsHighs, IsAhead};

use super::kept_high::KeptHigh;
use super::leading::stands_before;
use super::open_highs::OpenHighs;
use access_log::Transcript;
use containers::Ranked;
use monotone_fn::Expr;

/// Whether a number is above the bound, or there is no bound.
fn exceeds(bound: Option<u64>, number: u64) -> bool
    ensures { result ≡ exceeds bound number }
{
    match bound {
        None => true,
        Some(bound) => bound < number,
    }
}

impl OpenHighs {
    /// The greatest kept high, where it stands before the first of the ties.
    fn ahead_of(&self, first: Option<KeptHigh>) -> Option<Ranked<KeptHigh>>
        ensures { MatchOption result (LeadsHighs first self.now.highs) (λ top. IsAhead first self.now.highs top.key top.rank) }
    {
        let top = self.highs.greatest()?;
        let Some(first) = first else {
            return Some(top);
        };
        if stands_before(first, top.rank) {
            None
        } else {
            Some(top)
        }
    }

    /// The choice, where the bound is the k-th largest low: the viable object with an unknown grade that has the
    /// greatest high, and of these the smallest, if there is one. Renews a kept high only where none is greater.
    ///
    /// *Cost*: one bound and one change of an indexed heap for each object whose kept high is no less than the greatest
    /// present one. Of the objects that are tied at the cap of a list only the smallest is looked at.
    pub fn choose(
        &mut self,
        expr: &Expr,
        transcript: &Transcript,
        bound: Option<u64>,
    ) -> Option<u32>
        requires lists { transcript.now.lists ≡ list_count expr.now }
        requires kept { KeepsOpen expr.now transcript.now self.old }
        ensures chosen { (k : ℕ) → bound ≡ kth_low k (seen_items (value expr.now) transcript.now.lists transcript.now.accesses)
            → result ≡ choice (value expr.now) k transcript.now.lists transcript.now.accesses }
        ensures room { length self.new.highs ≡ length self.old.highs }
        ensures kept { KeepsOpen expr.now transcript.now self.new }
    {
        let mut first = self.first_of_ties(expr, transcript);
        while let Some(top) = self.ahead_of(first) {
            let KeptHigh { high: kept, object } = top.rank;
            if !exceeds(bound, kept) {
                return None;
            }
            let high = transcript.high(expr, object);
            if high == kept {
                return Some(object);
            }
            first = self.lower(expr, transcript, top.key, KeptHigh { high, object }, first);
        }
        let first = first?;
        if exceeds(bound, first.high) {
            Some(first.object)
        } else {
            None
        }
    }
}
