//! The real links, on this machine: one connection, with bytes in both directions.

use std::alloc::Global;
use std::cell::Cell;
use std::io;
use std::net::{IpAddr, Ipv4Addr, Ipv6Addr, Net, TcpListener, TcpStream};
use std::time::{Clock, Duration};
use tk_io::{Dial, Intake, Link, NetDial, NetPort, Port, Sink, read_text, write_text};

/// Whether what one link writes is what the other one reads next.
fn passes_on<A: Link, B: Link>(from: &mut A, to: &mut B, text: &[u8; 4]) -> bool {
    let mut piece = [0; 8];
    write_text(from, text).is_ok() && to.read(&mut piece) == Ok(4) && &piece[..4] == text.as_slice()
}

/// Whether a port and a dial have one connection, which is read to its end once the dial has closed it.
fn connects<P: Port, D: Dial>(alloc: Global, port: &mut P, dial: &mut D, number: u16) -> bool {
    let Ok(mut client) = dial.dial("127.0.0.1", number) else {
        return false;
    };
    let Ok(Some(mut server)) = port.accept() else {
        dial.hang_up(client);
        return false;
    };
    let asks = passes_on(&mut client, &mut server, b"asks");
    let says = passes_on(&mut server, &mut client, b"says");
    let is_sent = write_text(&mut client, b"rest").is_ok();
    dial.hang_up(client);
    let is_read = match read_text(alloc, &mut server, 100) {
        Ok(rest) => rest.as_slice() == b"rest".as_slice(),
        Err(_) => false,
    };
    port.hang_up(server);
    asks && says && is_sent && is_read
}

/// Whether a port at a free number is reached by a dial, and no longer once it is gone.
fn is_reached<R: Net<Listener = TcpListener, Stream = TcpStream> + Clock + Copy + Send + Drop>(
    alloc: Global,
    net: R,
) -> bool {
    let mut port = NetPort::make(net, net, IpAddr::V4(Ipv4Addr::LOCALHOST));
    let mut dial = NetDial::make(net, net);
    let is_deaf = port.accept().is_err();
    let listens = port.listen(0).is_ok();
    let Some(number) = port.number() else {
        return false;
    };
    let connects = connects(alloc, &mut port, &mut dial, number);
    drop(port);
    let is_gone = dial.dial("127.0.0.1", number).is_err();
    drop(dial);
    is_deaf && listens && connects && is_gone
}

#[test]
fn a_connection_goes_both_ways(rt: HostRuntime) {
    assert!(rt; is_reached(rt.alloc(), &rt));
}

/// Whether a client that sent more than was read of it has the whole reply, though the other end was given back.
fn is_whole<P: Port, D: Dial>(alloc: Global, port: &mut P, dial: &mut D, number: u16) -> bool {
    let text = [b't'; 100_000];
    let Ok(mut client) = dial.dial("127.0.0.1", number) else {
        return false;
    };
    let Ok(Some(mut server)) = port.accept() else {
        dial.hang_up(client);
        return false;
    };
    let is_sent = write_text(&mut client, &text).is_ok();
    let is_replied = write_text(&mut server, &text).is_ok();
    port.hang_up(server);
    let is_whole = match read_text(alloc, &mut client, 100_000) {
        Ok(reply) => reply.as_slice() == text.as_slice(),
        Err(_) => false,
    };
    dial.hang_up(client);
    is_sent && is_replied && is_whole
}

/// Whether a port at a free number gives whole replies.
fn gives_whole<R: Net<Listener = TcpListener, Stream = TcpStream> + Clock + Copy + Send + Drop>(
    alloc: Global,
    net: R,
) -> bool {
    let mut port = NetPort::make(net, net, IpAddr::V6(Ipv6Addr::UNSPECIFIED));
    let mut dial = NetDial::make(net, net);
    let listens = port.listen(0).is_ok();
    let Some(number) = port.number() else {
        return false;
    };
    let is_whole = is_whole(alloc, &mut port, &mut dial, number);
    listens && is_whole && dial.fault_count() == 0
}

#[test]
fn a_reply_comes_whole_over_bytes_that_nobody_read(rt: HostRuntime) {
    assert!(rt; gives_whole(rt.alloc(), &rt));
}

/// A clock that shows the seconds which a test sets.
#[derive(Clone, Copy, Drop)]
struct SetClock<'a> {
    seconds: &'a Cell<u64>,
}

impl<'a> Clock for SetClock<'a> {
    fn monotonic(&self) -> io::Result<Duration> {
        Ok(Duration::from_secs(self.seconds.get()))
    }

    fn since_1970(&self) -> io::Result<Duration> {
        Ok(Duration::from_secs(self.seconds.get()))
    }
}

/// Whether the reads of a link end 300 seconds after the first one, and its writes 300 after theirs. The
/// other end sends a byte whenever it is read.
fn ends_in_time<A: Link, B: Link>(seconds: &Cell<u64>, link: &mut A, other: &mut B) -> bool {
    let mut drips = |at| {
        seconds.set(at);
        write_text(other, b"d").is_ok() && link.read(&mut [0]) == Ok(1)
    };
    let reads = drips(1000) && drips(1299) && !drips(1300);
    let mut writes = |at| {
        seconds.set(at);
        link.write(b"w") == Ok(1)
    };
    reads && writes(1400) && writes(1699) && !writes(1700)
}

/// Whether a connection that goes on and on ends in time.
fn is_limited<R: Net<Listener = TcpListener, Stream = TcpStream> + Clock + Copy + Send + Drop>(
    net: R,
) -> bool {
    let seconds = Cell::new(0);
    let mut port = NetPort::make(net, net, IpAddr::V4(Ipv4Addr::LOCALHOST));
    let mut dial = NetDial::make(net, SetClock { seconds: &seconds });
    let listens = port.listen(0).is_ok();
    let Some(number) = port.number() else {
        return false;
    };
    let Ok(mut client) = dial.dial("127.0.0.1", number) else {
        return false;
    };
    let Ok(Some(mut server)) = port.accept() else {
        dial.hang_up(client);
        return false;
    };
    let ends = ends_in_time(&seconds, &mut client, &mut server);
    dial.hang_up(client);
    port.hang_up(server);
    listens && ends && dial.fault_count() == 2
}

#[test]
fn a_connection_ends_in_time(rt: HostRuntime) {
    assert!(rt; is_limited(&rt));
}
