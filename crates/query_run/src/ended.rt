//! How queries end.

use machine_base::{Answer, CoreFault};
use source_state::LookFault;
use topk_base::Seq32;

/// Why a query is refused.
#[derive(Clone, Copy)]
pub enum Refusal {
    /// A row has an object for which the query has no room.
    Core { fault: CoreFault },
    /// What the query needs of this list, the lists of its expression counting from 0, can't be had.
    Look { list: u8, fault: LookFault },
}

/// How a query ended.
#[derive(Drop)]
pub enum Ended {
    /// It is answered.
    Answered(Answer),
    /// A row has an object for which the query has no room.
    Core { fault: CoreFault },
    /// What the query needed of this list can't be had.
    Look { list: u8, fault: LookFault },
}

/// How queries ended, in the order of the queries.
pub type Endings = Seq32<Ended>;
