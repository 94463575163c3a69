//! What admission answers.

use cert_text::Refusal;
use query_core::Ready;
use query_text::Query;

/// What a query line comes to before it runs.
#[derive(Drop)]
pub enum Admitted {
    /// The query of the line, ready to run.
    Ready(Ready),
    /// The line is refused. A refusal names lists by their numbers in the query, so the query stands
    /// beside it where the line spells one and that was read.
    Refused {
        refusal: Refusal,
        query: Option<Query>,
    },
}
