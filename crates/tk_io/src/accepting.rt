//! How a listener's connections are taken, one after another, whatever stands in the way for a time.

ghost use Rattle.std.specs.Prelude.{◌≡◌, IfOk, IfSome, IsSome};

use super::{Failed, NetLink};
use std::net::TcpListener;
use std::time::{Clock, Duration};
use std::{io, thread};
use topk_base::PORT_PAUSE_MILLIS;

/// What the system says where nobody listens: no such descriptor, a bad address, no listener, no socket.
const NOBODY_LISTENS: [i32; 4] = [9, 14, 22, 88];

/// What the system says of a connection that came to nothing, or of the network between: interrupted, refused by a
/// rule, none of its kind, a fault of the protocol, an option or call that it doesn't have, a network that is down or
/// out of reach, broken off, too late, a host that is down or out of reach.
const PASSES: [i32; 12] = [4, 1, 64, 71, 92, 95, 100, 101, 103, 110, 112, 113];

/// The next connection. One that came to nothing before it was accepted, or that takes no limit on how long it waits,
/// is passed over. Where descriptors, buffers or memory are wanting it waits, and tries again. It fails where nobody
/// listens.
pub(crate) fn accept_next<C: Clock + Copy + Drop>(
    listener: &Option<TcpListener>,
    clock: C,
) -> Result<Option<NetLink<C>>, Failed>
    ensures fresh { IfOk result (λ given. IfSome given (λ link. link ≡ record { read_faults = 0; write_faults = 0 })) }
    ensures given { IfOk result (λ given. IsSome given) }
{
    let Some(listener) = listener else {
        return Err(Failed);
    };
    for _ in 0..u64::MAX {
        match listener.accept() {
            Ok((stream, _)) => {
                if let Some(link) = NetLink::make(stream, clock) {
                    return Ok(Some(link));
                }
            }
            Err(error) => {
                if !goes_on(&error, &clock) {
                    break;
                }
            }
        }
    }
    Err(Failed)
}

/// Whether somebody still listens where this was said. Unless it passes by itself, a pause is made before the answer.
fn goes_on<C: Clock>(error: &io::Error, clock: &C) -> bool {
    let Some(code) = error.raw_os_error() else {
        return true;
    };
    if NOBODY_LISTENS.contains(&code) {
        return false;
    }
    if !PASSES.contains(&code) {
        thread::sleep(clock, Duration::from_millis(PORT_PAUSE_MILLIS));
    }
    true
}
