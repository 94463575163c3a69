//! Worlds that are worked out by hand.

ghost use Rattle.std.specs.Prelude.{◌<◌, ◌≤◌, ◌^◌, All, length};
ghost use Rattle.query_run.specs.Made.{IsReadyFor};

use super::acts::{Act, Sources, take_act};
use super::outcomes::{ends_of, world_of};
use super::world::World;
use query_core::Ready;
use std::alloc::Global;
use test_query_support::{Asked, Expected, are_small, let_go, readies_of};
use topk_base::MAX_OBJECTS;

/// Sources with how many objects they state, queries, steps that are taken first where they are lawful, how many turns a round
/// has then, and how the queries end.
#[derive(Clone, Copy)]
pub struct Case {
    pub sources: Sources,
    pub counts: &'static [u32],
    pub asked: &'static [Asked],
    pub acts: &'static [Act],
    pub workers: u32,
    pub ends: &'static [Expected],
}

/// Takes steps where they are lawful. False where one can't be made.
fn take_all(alloc: Global, world: &mut World, case: &Case) -> bool {
    for step in case.acts {
        if take_act(alloc, world, &case.sources, *step).is_none() {
            return false;
        }
    }
    true
}

/// Whether the queries of a world end as they are to, after the steps of a case.
fn end_as(alloc: Global, world: World, case: &Case) -> bool {
    let mut world = world;
    if !take_all(alloc, &mut world, case) {
        world.close();
        return false;
    }
    match ends_of(alloc, world, &case.sources, case.workers, case.ends) {
        Some(ends) => ends.so,
        None => false,
    }
}

/// Whether the queries of a case, which are ready, end as they are to.
fn end_so(alloc: Global, case: &Case, readies: &[Ready]) -> bool
    requires sources { length case.now.counts.now < 2 ^ 32 }
    requires counts { All (λ count. count ≤ MAX_OBJECTS) case.now.counts.now }
    requires queries { length readies.now < 2 ^ 32 }
    requires ready { All (IsReadyFor case.now.counts.now) readies.now }
{
    match world_of(alloc, case.counts, readies) {
        Some(world) => end_as(alloc, world, case),
        None => false,
    }
}

/// Whether the queries of a case, which has a few small sources, end as they are to.
fn ends_so(alloc: Global, case: &Case) -> bool {
    let Some(readies) = readies_of(alloc, case.counts, case.asked) else {
        return false;
    };
    let is_small = are_small(case.counts) && case.counts.len() <= 100 && readies.len() <= 100;
    let so = is_small && end_so(alloc, case, &readies);
    let_go(readies);
    so
}

/// The number of the first case whose queries end otherwise.
pub fn first_wrong(alloc: Global, cases: &[Case]) -> Option<usize> {
    for (number, case) in cases.iter().enumerate() {
        if !ends_so(alloc, case) {
            return Some(number);
        }
    }
    None
}
