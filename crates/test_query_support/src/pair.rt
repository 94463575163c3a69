//! A pool of two sources with a pass and both feeders.

ghost use Rattle.std.specs.Prelude.{◌≡◌, ◌≤◌, length, IfSome};
ghost use Rattle.test_query_support.specs.Pairs.{AreTheTwo, IsPair};

use source_pool::{Feeder, Feeders, Pool, PoolPass};
use std::alloc::Global;

/// A pool of two sources, a pass of it and its two feeders.
#[derive(Drop)]
pub struct Pair {
    pub pool: Pool,
    pub pass: PoolPass,
    pub first: Feeder,
    pub second: Feeder,
}

/// The feeders of a pool of two sources.
fn both(feeders: Feeders) -> Option<(Feeder, Feeder)>
    requires { length feeders ≡ 2 }
    ensures { IfSome result (AreTheTwo feeders) }
{
    let mut feeders = feeders.into_vec();
    let second = feeders.pop()?;
    let first = feeders.pop()?;
    Some((first, second))
}

impl Pair {
    /// A pool of two sources with so many objects each. None without memory.
    pub fn open(alloc: Global, count: u32) -> Option<Pair>
        requires { count ≤ 200000 }
        ensures { IfSome result (IsPair count) }
    {
        let Ok((pool, pass, feeders)) = Pool::open(alloc, &[count, count]) else {
            return None;
        };
        let Some((first, second)) = both(feeders) else {
            drop(pass);
            drop(pool);
            return None;
        };
        Some(Pair {
            pool,
            pass,
            first,
            second,
        })
    }

    /// Lets the pool go, with its pass and its feeders.
    pub fn let_go(self) {
        drop(self);
    }
}
