//! Turns of whoever has the slot of a source: a fetcher, or a worker that would wait for the source.

ghost use Rattle.fetcher.specs.Serving.{IsServed};

use super::fetch::{counted, fetch_turn};
use super::slot::Slot;
use super::turned::{Fetched, Turned};
use keyed_lock::LockInvariant;
use source_api::Source;
use source_pool::Pool;
use std::alloc::Global;
use std::snapshot::Snapshot;
use std::sync::Wait;

/// What the turns of a run go on from: the pool, how the pages are cut, and the slots of all sources, in their order, as the run began.
#[derive(Drop)]
pub struct Began<S: Source> {
    /// The pool of the run.
    pub pool: Snapshot<Pool>,
    /// How many rows a page has at most, 1 to 10,000.
    pub page: u32,
    /// How many pages are read ahead, 0 to 100.
    pub ahead: u32,
    /// The slots, each with the feeder of its source.
    pub slots: Snapshot<Vec<Slot<S>>>,
}

impl<S: Source> LockInvariant for Slot<S> {
    ghost use Rattle.fetcher.specs.Serving.{IsServedFrom};

    type Key = Began<S>;

    ghost keeps = { λ began place slot. IsServedFrom S.list S.counts S.calls S.at_hand S.states began.pool.value began.page began.ahead began.slots.value.items place slot };
}

/// One turn by the feeder in a slot, as that of a fetcher: the source is called once at most, and what it gave is counted in the slot.
pub fn serve_turn<S: Source>(
    rt: &impl Wait,
    alloc: Global,
    pool: &Pool,
    slot: &mut Slot<S>,
    page: u32,
    ahead: u32,
) -> Turned
    requires { (before : Slot S) × IsServed S.list S.counts S.calls S.at_hand S.states pool.now page ahead before slot.old }
    ensures { (before : Slot S) → IsServed S.list S.counts S.calls S.at_hand S.states pool.now page ahead before slot.old
        → IsServed S.list S.counts S.calls S.at_hand S.states pool.now page ahead before slot.new }
{
    let Some(feeder) = &mut slot.feeder else {
        unreachable!();
    };
    let turned = fetch_turn(rt, alloc, pool, feeder, &mut slot.source, page, ahead);
    slot.fetched = counted(slot.fetched, turned);
    turned
}
