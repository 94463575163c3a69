//! Numbers that two passes draw at once.

ghost use Rattle.std.specs.Prelude.{◌≡◌};

use std::alloc::Global;
use std::sync::Wait;
use std::thread::{Threads, join_mut};
use tickets::{TicketPass, Tickets};

/// Draws numbers below a limit until there is none.
pub fn draw_all(tickets: &Tickets, pass: &mut TicketPass, limit: u64)
    requires { pass.old.0 ≡ tickets.now }
    ensures { (pass.new.0 ≡ tickets.now) × (pass.new.1.parts ≡ pass.old.1.parts) }
{
    for _ in 0..limit {
        if tickets.draw(pass, limit).is_none() {
            return;
        }
    }
}

/// Two passes draw the numbers below a limit at once: how many were drawn.
pub fn draw_by_two<R: Threads + Wait + Sync>(rt: &R, alloc: Global, limit: u64) -> Option<u64> {
    let (tickets, mut one) = Tickets::open(alloc).ok()?;
    let mut other = tickets.split(&mut one, 1);
    join_mut(
        rt,
        &mut || draw_all(&tickets, &mut one, limit),
        &mut || draw_all(&tickets, &mut other, limit),
    );
    tickets.join(&mut one, other);
    Some(tickets.close(one))
}
