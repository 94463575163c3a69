//! What became of a query line.

use cert_text::{Outcome, Versions};
use query_text::Query;

/// What became of a query line: its query, where the line spells one and that was read; how many objects its lists have, 0 where it
/// wasn't ready to run; the versions that its lists had when they were opened, none where it wasn't ready; and the outcome.
#[derive(Drop)]
pub struct LineOutcome {
    pub query: Option<Query>,
    pub count: u32,
    pub versions: Versions,
    pub outcome: Outcome,
}
