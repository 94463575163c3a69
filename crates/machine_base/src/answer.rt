//! What a query ends with.

use access_log::Transcript;
use ranked_list::Items;

/// The answer of a query, with the accesses that it made.
#[derive(Drop)]
pub struct Answer {
    pub items: Items,
    pub transcript: Transcript,
}
