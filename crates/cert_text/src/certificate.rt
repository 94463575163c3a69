//! Certificates.

use super::factor::Guarantee;
use super::versions::Versions;
use access_log::Items;
use query_text::Query;
use topk_base::Seq32;
use topk_theory::Access;

/// Accesses in order.
pub type Accesses = Seq32<Access>;

/// An answer to a query, with the accesses that it was found by.
#[derive(Drop)]
pub struct Certificate {
    /// The number of the query's line, from 1.
    pub line: u64,
    /// The query.
    pub query: Query,
    /// How many objects each list has, 1 to 200,000.
    pub count: u32,
    /// The version of each of the query's lists, in its order: 0 where the text gives none.
    pub versions: Versions,
    /// The objects of the answer with their bounds, in its order.
    pub items: Items,
    /// Within which factor of the best the answer is, where the query's algorithm guarantees one.
    pub guarantee: Option<Guarantee>,
    /// How many rows the deepest list was read.
    pub depth: u64,
    /// How many accesses were sorted.
    pub sorted: u64,
    /// How many accesses were random.
    pub random: u64,
    /// What the accesses cost.
    pub cost: u64,
    /// The accesses in their order.
    pub accesses: Accesses,
}

impl Certificate {
    /// Lets a certificate go. Who owns one lets it go by this call.
    pub fn let_go(self) {
        let Certificate {
            query,
            versions,
            items,
            accesses,
            ..
        } = self;
        query.let_go();
        drop(versions);
        drop(items);
        drop(accesses);
    }
}
