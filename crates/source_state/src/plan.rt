//! What is to be fetched next of a source.

ghost use Rattle.std.specs.Prelude.{◌≡◌, ◌≤◌};
ghost use Rattle.source_state.specs.State.{IsSound};
ghost use Rattle.source_state.specs.Looking.{reach_of};

use super::state::SourceState;
use topk_base::MAX_OBJECTS;

/// What is to be fetched next.
#[derive(Clone, Copy, Debug, PartialEq, Eq)]
pub enum Plan {
    /// Nothing.
    Idle,
    /// A page of `count` rows after the first `from`.
    Page { from: u32, count: u32 },
    /// The grade of an object.
    Grade { object: u32 },
}

/// How many rows are to be fetched of a list of `count` objects for a want: none where nothing is wanted, else those down to the
/// wanted depth, rounded up to whole pages, and `ahead` pages more, at most all.
pub fn reach(want: u32, page: u32, ahead: u32, count: u32) -> u32
    requires page { (1 ≤ page) × (page ≤ 10000) }
    requires ahead { ahead ≤ 100 }
    requires want { (want ≤ count) × (count ≤ MAX_OBJECTS) }
    ensures reach { result ≡ reach_of want page ahead count }
    ensures within { result ≤ count }
{
    if want == 0 {
        return 0;
    }
    let pages = (want + page - 1) / page;
    count.min(pages * page + ahead * page)
}

impl SourceState {
    ghost use Rattle.source_state.specs.Looking.{plan_of, Serves};

    /// What is to be fetched next: nothing where the state is paused, or where no ask is due and the rows reach as far as the want
    /// tells or are at fault; else the grade of the first pending object that the rows don't hold, or the next page.
    ///
    /// *Cost*: constant.
    pub fn plan(&self, page: u32, ahead: u32) -> Plan
        requires page { (1 ≤ page) × (page ≤ 10000) }
        requires ahead { ahead ≤ 100 }
        ensures plan { result ≡ plan_of self.now page ahead }
        ensures serves { Serves self.now page ahead result }
        ensures sound { IsSound self.now }
    {
        let count = self.count();
        if self.paused() {
            return Plan::Idle;
        }
        if let Some(object) = self.first_pending() {
            return Plan::Grade { object };
        }
        let from = self.rows();
        let reach = reach(self.want(), page, ahead, count);
        if from >= reach || self.row_fault().is_some() {
            return Plan::Idle;
        }
        Plan::Page {
            from,
            count: page.min(reach - from),
        }
    }
}
