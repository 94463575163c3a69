//! How the queries of a world end.

ghost use Rattle.std.specs.Prelude.{◌≡◌, ◌<◌, ◌≤◌, ◌^◌, true, All, length};
ghost use Rattle.query_run.specs.Inquiries.{is_ended};
ghost use Rattle.query_run.specs.Made.{IsReadyFor};

use super::acts::{Sources, end_by_rounds};
use super::world::World;
use query_core::Ready;
use query_run::{Ended, Endings};
use source_api::FailKind;
use source_state::LookFault;
use std::alloc::Global;
use test_query_support::{Expected, is_ended_so, let_endings_go};
use topk_base::MAX_OBJECTS;

/// How the queries of a world ended.
#[derive(Clone, Copy)]
pub struct Ends {
    /// Whether each ended as it was to.
    pub so: bool,
    /// The list of the first query for which a call failed, where that refused it.
    pub failed: Option<u8>,
}

/// Whether the queries ended so, in their order.
fn are_ended_so(endings: &Endings, expected: &[Expected]) -> bool {
    if endings.len() as usize != expected.len() {
        return false;
    }
    let mut place = 0;
    for one in expected {
        match endings.get(place) {
            Some(ended) if place < 100 && is_ended_so(ended, one) => place += 1,
            _ => return false,
        }
    }
    true
}

/// The list of the first query for which a call failed, where that refused it.
fn first_failed(endings: &Endings) -> Option<u8> {
    match endings.get(0) {
        Some(
            Ended::Look {
                list,
                fault: LookFault::Call(FailKind::Failed),
            },
        ) => Some(*list),
        _ => None,
    }
}

/// A world of queries that are ready. None without memory.
pub fn world_of(alloc: Global, counts: &[u32], readies: &[Ready]) -> Option<World>
    requires sources { length counts.now < 2 ^ 32 }
    requires counts { All (λ count. count ≤ MAX_OBJECTS) counts.now }
    requires queries { length readies.now < 2 ^ 32 }
    requires ready { All (IsReadyFor counts.now) readies.now }
{
    match World::make(alloc, counts, readies) {
        Ok(world) => Some(world),
        Err(_) => None,
    }
}

/// How the queries of a world end, after rounds of so many turns. None where they don't, or there is no memory.
pub fn ends_of(
    alloc: Global,
    world: World,
    sources: &Sources,
    workers: u32,
    expected: &[Expected],
) -> Option<Ends> {
    let mut world = world;
    match end_by_rounds(alloc, &mut world, sources, workers) {
        Some(()) => finish(world, expected),
        None => {
            world.close();
            None
        }
    }
}

/// How the queries of a world ended, all of which have ended. None without memory.
fn finish(world: World, expected: &[Expected]) -> Option<Ends>
    requires { All (λ query. is_ended query ≡ true) world.queries }
{
    let Ok(endings) = world.finish() else {
        return None;
    };
    let ends = Ends {
        so: are_ended_so(&endings, expected),
        failed: first_failed(&endings),
    };
    let_endings_go(endings);
    Some(ends)
}
