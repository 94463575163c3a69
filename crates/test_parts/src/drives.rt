ghost use Rattle.std.specs.Prelude.{◌≡◌, ◌≤◌, ◌<◌, None, All, IfSome};
ghost use Rattle.keyed_lock.specs.Hold.{IsPassOf};

use keyed_lock::{KeyedLock, LockInvariant, Pass};
use std::alloc::Global;
use std::sync::Wait;
use std::thread::{Threads, join_mut};

/// A count that never falls below where it began.
#[derive(Drop)]
pub struct Counter {
    pub count: u64,
}

impl LockInvariant for Counter {
    ghost use Rattle.std.specs.Prelude.{◌≤◌};

    type Key = u64;

    ghost keeps = { λ start _ counter. start ≤ counter.count };
}

/// Takes the counter at a place so many times, and counts one each time.
pub fn count_often(
    rt: &impl Wait,
    lock: &KeyedLock<Counter>,
    pass: &mut Pass<Counter>,
    place: usize,
    times: u32,
)
    requires own { IsPassOf lock.now pass.old }
    requires rests { pass.old.1.held ≡ None }
    requires place { place < lock.now.size }
    ensures { pass.new ≡ pass.old }
{
    for _ in 0..times {
        let mut counter = lock.take(rt, pass, place);
        counter.count = counter.count.saturating_add(1);
        lock.give(pass, place, counter);
    }
}

// Two passes at one place at once.
fn count_on_two<R: Threads + Wait + Sync>(
    rt: &R,
    lock: &KeyedLock<Counter>,
    one: &mut Pass<Counter>,
    other: &mut Pass<Counter>,
    place: usize,
    times: u32,
)
    requires own { IsPassOf lock.now one.old × IsPassOf lock.now other.old }
    requires rest { (one.old.1.held ≡ None) × (other.old.1.held ≡ None) }
    requires place { place < lock.now.size }
    ensures { (one.new ≡ one.old) × (other.new ≡ other.old) }
{
    join_mut(
        rt,
        &mut || count_often(rt, lock, one, place, times),
        &mut || count_often(rt, lock, other, place, times),
    );
}

// Two passes at the first place and two at the second, at once.
fn count_on_all<R: Threads + Wait + Sync>(
    rt: &R,
    lock: &KeyedLock<Counter>,
    first: &mut Pass<Counter>,
    second: &mut Pass<Counter>,
    third: &mut Pass<Counter>,
    fourth: &mut Pass<Counter>,
    times: u32,
)
    requires own { IsPassOf lock.now first.old × IsPassOf lock.now second.old × IsPassOf lock.now third.old × IsPassOf lock.now fourth.old }
    requires rest { (first.old.1.held ≡ None) × (second.old.1.held ≡ None) × (third.old.1.held ≡ None) × (fourth.old.1.held ≡ None) }
    requires places { 1 < lock.now.size }
    ensures { (first.new ≡ first.old) × (second.new ≡ second.old) × (third.new ≡ third.old) × (fourth.new ≡ fourth.old) }
{
    join_mut(
        rt,
        &mut ||
            requires { IsPassOf lock.now first.now × IsPassOf lock.now second.now × (first.now.1.held ≡ None) × (second.now.1.held ≡ None) × (0 < lock.now.size) }
        { count_on_two(rt, lock, first, second, 0, times) },
        &mut ||
            requires { IsPassOf lock.now third.now × IsPassOf lock.now fourth.now × (third.now.1.held ≡ None) × (fourth.now.1.held ≡ None) × (1 < lock.now.size) }
        { count_on_two(rt, lock, third, fourth, 1, times) },
    );
}

/// Four passes at once, two at each of two counters, each of which counts so many times: the counters at the close.
pub fn count_on_four<R: Threads + Wait + Sync>(
    rt: &R,
    alloc: Global,
    start: u64,
    times: u32,
) -> Option<Vec<Counter>>
    ensures { IfSome result (λ counters. All (λ counter. start ≤ counter.count) counters.items) }
{
    let mut counters = vec![in alloc; Counter { count: start }, Counter { count: start }].ok()?;
    let (lock, mut first) = KeyedLock::open(alloc, &start, &mut counters).ok()?;
    let mut second = lock.split(&mut first, 1);
    let mut third = lock.split(&mut first, 2);
    let mut fourth = lock.split(&mut third, 1);
    count_on_all(
        rt,
        &lock,
        &mut first,
        &mut second,
        &mut third,
        &mut fourth,
        times,
    );
    lock.join(&mut third, fourth);
    lock.join(&mut first, second);
    lock.join(&mut first, third);
    lock.close(first, &mut counters);
    Some(counters)
}

/// One pass takes the first of two counters, and another one tries to, before and after it is given back, and takes the second meanwhile:
/// whether each had its counter.
pub fn take_by_two(alloc: Global) -> Option<(bool, bool, bool, bool)> {
    let mut counters = vec![in alloc; Counter { count: 0 }, Counter { count: 1 }].ok()?;
    let (lock, mut one) = KeyedLock::open(alloc, &0, &mut counters).ok()?;
    let mut other = lock.split(&mut one, 1);
    let taken = lock.try_take(&mut one, 0);
    let first = taken.is_some();
    let early = lock.try_take(&mut other, 0);
    let before = early.is_some();
    if let Some(counter) = taken {
        lock.give(&mut one, 0, counter);
    }
    if before {
        return None;
    }
    let Some(counter) = lock.try_take(&mut other, 1) else {
        return Some((first, before, false, false));
    };
    let second = counter.count == 1;
    lock.give(&mut other, 1, counter);
    let late = lock.try_take(&mut other, 0).is_some();
    Some((first, before, second, late))
}
