//! Queries that are admitted.

ghost use Rattle.std.specs.Prelude.{◌≡◌, ◌≤◌, unwrap_or};
ghost use Rattle.query_core.specs.Ready.{IsReady};

use query_text::Query;

/// A query that is admitted over lists: contracts that take one ask for `IsReady`, which says that
/// `k` is at most `count`, that `count` is at most 200,000, that each list has its source and its
/// version, that of each it is told whether it can be read in order, and that `taz` has one that can.
#[derive(Drop)]
pub struct Ready {
    /// The query.
    pub query: Query,
    /// How many objects each of its lists has.
    pub count: u32,
    /// The numbers of the sources of its lists, in the order of the lists.
    pub sources: Vec<u32>,
    /// The versions that its lists had when they were opened, in the order of the lists.
    pub versions: Vec<u64>,
    /// Whether its lists can be read in order, in the order of the lists. Only `taz` goes by this: of every
    /// other algorithm the sources have to answer whatever it asks.
    pub sorted: Vec<bool>,
}

impl Ready {
    /// How many objects it may see: as many as it states, and without that all.
    pub(crate) fn room(&self) -> u32
        ensures room { result ≡ unwrap_or self.now.query.room self.now.count }
        ensures some { IsReady self.now → 1 ≤ result }
    {
        self.query.room.unwrap_or(self.count)
    }
}
