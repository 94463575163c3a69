//! How queries end after every list of lawful steps.

ghost use Rattle.std.specs.Prelude.{◌<◌, ◌≤◌, ◌^◌, All, length};
ghost use Rattle.query_run.specs.Made.{IsReadyFor};

use super::acts::{Act, take_act};
use super::none_is_wrong;
use super::outcomes::{Ends, ends_of, world_of};
use super::trials::{TRIALS, Trial};
use super::world::World;
use query_core::Ready;
use std::alloc::Global;
use test_query_support::{are_small, let_go, readies_of};
use topk_base::MAX_OBJECTS;

/// What comes of an order, which has for each step the place of its act among those of the trial.
enum Outcome {
    /// The queries end as they are to.
    Alike,
    /// They don't.
    Otherwise,
    /// From the place of one of its steps on, no act is lawful.
    Unlawful,
    /// A step can't be made, there is no memory, or the queries don't end.
    Unmade,
    /// It is behind the last order.
    Past,
}

/// Whether a source has all rows of a page.
fn is_whole(world: &World, act: Act) -> bool {
    match act {
        Act::Page(source, count) if source < world.sources() => {
            let state = world.state(source);
            count <= state.count().saturating_sub(state.rows())
        }
        _ => true,
    }
}

/// The next step of an order.
enum Next {
    /// The place of its act.
    Taken(u8),
    /// No act is lawful.
    Ended,
    /// It can't be made.
    Unmade,
}

/// Takes the first lawful step from a place on.
fn take_next(alloc: Global, world: &mut World, trial: &Trial, from: u8) -> Next {
    let mut place: u8 = 0;
    for act in trial.acts {
        if place >= from && is_whole(world, *act) {
            match take_act(alloc, world, &trial.sources, *act) {
                Some(true) => return Next::Taken(place),
                Some(false) => {}
                None => return Next::Unmade,
            }
        }
        place = place.saturating_add(1);
    }
    Next::Ended
}

/// Takes the steps of an order, as many as the trial says, for each the first lawful one from its place on, and tells how many there are.
/// None where one can't be made.
fn follow(alloc: Global, world: &mut World, trial: &Trial, order: &mut [u8]) -> Option<usize> {
    let mut taken: usize = 0;
    for place in order.iter_mut() {
        if taken == trial.steps {
            break;
        }
        match take_next(alloc, world, trial, *place) {
            Next::Taken(next) => *place = next,
            Next::Ended => break,
            Next::Unmade => return None,
        }
        taken = taken.saturating_add(1);
    }
    Some(taken)
}

/// The order after one that took so many steps: the last of them is another one.
fn advance(order: &mut [u8], taken: usize) {
    let mut step: usize = 0;
    for place in order.iter_mut() {
        step = step.saturating_add(1);
        if step == taken {
            *place = place.saturating_add(1);
        }
        if step > taken {
            *place = 0;
        }
    }
}

/// Whether a call for a source failed after a turn.
fn failed_after_turn(trial: &Trial, order: &[u8], source: u8) -> bool {
    let mut turned = false;
    for place in order {
        match trial.acts.get(usize::from(*place)) {
            Some(Act::Turn(_)) => turned = true,
            Some(Act::Fail(failed)) if turned && *failed == u32::from(source) => return true,
            _ => {}
        }
    }
    false
}

/// Whether an order went on behind so many steps.
fn is_tried(order: &[u8], taken: usize) -> bool {
    match order.get(taken) {
        Some(place) => *place > 0,
        None => false,
    }
}

/// What comes of an order that took so many steps of a world.
fn outcome_of(alloc: Global, world: World, trial: &Trial, order: &[u8], taken: usize) -> Outcome {
    if taken == 0 || is_tried(order, taken) {
        world.close();
        return if taken == 0 {
            Outcome::Past
        } else {
            Outcome::Unlawful
        };
    }
    match ends_of(alloc, world, &trial.sources, 1, trial.ends) {
        Some(ends) => outcome_by(ends, trial, order),
        None => Outcome::Unmade,
    }
}

/// What comes of an order after which the queries ended so: where they ended otherwise than they are to, the first query may be refused
/// because a call failed after one of its turns.
fn outcome_by(ends: Ends, trial: &Trial, order: &[u8]) -> Outcome {
    let late = match ends.failed {
        Some(list) => failed_after_turn(trial, order, list),
        None => false,
    };
    if ends.so || late {
        Outcome::Alike
    } else {
        Outcome::Otherwise
    }
}

/// Tries an order, and makes the next one of it.
fn try_order(alloc: Global, trial: &Trial, readies: &[Ready], order: &mut [u8]) -> Outcome
    requires sources { length trial.now.counts.now < 2 ^ 32 }
    requires counts { All (λ count. count ≤ MAX_OBJECTS) trial.now.counts.now }
    requires queries { length readies.now < 2 ^ 32 }
    requires ready { All (IsReadyFor trial.now.counts.now) readies.now }
{
    let Some(mut world) = world_of(alloc, trial.counts, readies) else {
        return Outcome::Unmade;
    };
    match follow(alloc, &mut world, trial, order) {
        Some(taken) => {
            let outcome = outcome_of(alloc, world, trial, order, taken);
            advance(order, taken);
            outcome
        }
        None => {
            world.close();
            Outcome::Unmade
        }
    }
}

/// How many orders of so many lawful steps there are. None where the queries end otherwise after one of them, where one can't be tried, or
/// where there are too many.
fn try_orders(alloc: Global, trial: &Trial, readies: &[Ready], order: &mut [u8]) -> Option<u32>
    requires sources { length trial.now.counts.now < 2 ^ 32 }
    requires counts { All (λ count. count ≤ MAX_OBJECTS) trial.now.counts.now }
    requires queries { length readies.now < 2 ^ 32 }
    requires ready { All (IsReadyFor trial.now.counts.now) readies.now }
{
    let mut orders: u32 = 0;
    for _ in 0..100_000 {
        match try_order(alloc, trial, readies, order) {
            Outcome::Alike => orders = orders.saturating_add(1),
            Outcome::Unlawful => {}
            Outcome::Past => return Some(orders),
            Outcome::Otherwise | Outcome::Unmade => return None,
        }
    }
    None
}

/// Whether a trial, whose queries are ready, has as many orders as it says, and the queries end as they are to after each.
fn are_alike(alloc: Global, trial: &Trial, readies: &[Ready]) -> bool
    requires sources { length trial.now.counts.now < 2 ^ 32 }
    requires counts { All (λ count. count ≤ MAX_OBJECTS) trial.now.counts.now }
    requires queries { length readies.now < 2 ^ 32 }
    requires ready { All (IsReadyFor trial.now.counts.now) readies.now }
{
    let mut order: [u8; 8] = [0; 8];
    match try_orders(alloc, trial, readies, &mut order) {
        Some(orders) => orders == trial.orders,
        None => false,
    }
}

/// The same of queries as plain data over a few small sources.
fn is_alike(alloc: Global, trial: &Trial) -> bool {
    let Some(readies) = readies_of(alloc, trial.counts, trial.asked) else {
        return false;
    };
    let is_small = are_small(trial.counts) && trial.counts.len() <= 100 && readies.len() <= 100;
    let alike = is_small && are_alike(alloc, trial, &readies);
    let_go(readies);
    alike
}

/// The number of the first trial that is otherwise.
fn first_otherwise(alloc: Global, trials: &[Trial]) -> Option<usize> {
    for (number, trial) in trials.iter().enumerate() {
        if !is_alike(alloc, trial) {
            return Some(number);
        }
    }
    None
}

/// All lists of so many lawful steps.
#[test]
fn queries_end_alike_in_every_order(rt: HostRuntime) {
    none_is_wrong(&rt, first_otherwise(rt.alloc(), &TRIALS));
}
