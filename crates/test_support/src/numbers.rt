//! Numbers that look random.

ghost use Rattle.std.specs.Prelude.{◌<◌};

use super::Unmade;
use std::alloc::Global;

/// Numbers that look random: those of the generator of Lehmer with Park and Miller's factor.
#[derive(Drop)]
pub struct Numbers {
    state: u64,
}

impl Numbers {
    /// The numbers from a start on, which is 1 to 2,147,483,646.
    pub fn from_start(start: u32) -> Numbers {
        Numbers {
            state: u64::from(start),
        }
    }

    /// The next number, below a bound.
    pub fn below(&mut self, bound: u32) -> u32
        requires { 0 < bound }
        ensures { result < bound }
    {
        self.state = self.state % 2_147_483_647 * 48_271 % 2_147_483_647;
        (self.state % u64::from(bound)) as u32
    }
}

/// The numbers below a count in a random order.
pub fn shuffled(alloc: Global, numbers: &mut Numbers, count: u32) -> Result<Vec<u32>, Unmade> {
    let mut objects = Vec::new(alloc);
    for object in 0..count {
        let place = numbers.below(object + 1) as usize;
        objects.push(object)?;
        let last = objects.len() - 1;
        if place < last {
            objects.swap(place, last);
        }
    }
    Ok(objects)
}
