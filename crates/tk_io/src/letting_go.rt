//! How a connection is let go, so that all that was written to it arrives.

use super::std_intake::read_once;
use super::time_limit::TimeLimit;
use std::net::{Shutdown, TcpStream};
use std::time::{Clock, Duration};
use topk_base::{MAX_LINGER, MAX_LINGER_SECONDS, MAX_LINGER_WAIT_SECONDS};

/// How many bytes are read away at once.
const AWAY: usize = 4096;

/// Tells the peer that nothing more comes, and reads away what it still sends: until it has closed, a read waits or
/// all of them take too long, or too many bytes came. A connection that is closed over bytes that nobody read is
/// reset, and what the peer didn't take of the reply by then is lost to it.
pub(crate) fn read_away<C: Clock>(stream: &mut TcpStream, clock: &C) {
    let wait = Duration::from_secs(MAX_LINGER_WAIT_SECONDS);
    if stream.shutdown(Shutdown::Write).is_err() || stream.set_read_timeout(Some(wait)).is_err() {
        return;
    }
    let mut limit = TimeLimit::make(MAX_LINGER_SECONDS);
    let mut piece = [0; AWAY];
    let mut read: usize = 0;
    for _ in 0..MAX_LINGER {
        match read_once(stream, &mut piece) {
            Ok(count) if count > 0 => read = count.saturating_add(read),
            _ => return,
        }
        if read >= MAX_LINGER || !limit.admits(clock) {
            return;
        }
    }
}
