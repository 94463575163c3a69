//! Connections to hosts.

ghost use Rattle.std.specs.Prelude.{◌≡◌, IfSome};

use super::answered::Answered;
use super::{Dial, Failed, NetLink};
use std::marker::Model;
use std::net::{Net, SocketAddr, TcpStream, ToSocketAddrs};
use std::time::{Clock, Duration};
use topk_base::MAX_CONNECT_SECONDS;

/// What connects to hosts of the outside. It tells no links. Contracts see it as its count of faults.
#[derive(Drop)]
pub struct NetDial<R: Net<Stream = TcpStream> + Copy + Drop, C: Clock + Copy + Drop> {
    net: R,
    clock: C,
    answered: Option<Answered>,
    faults: u64,
}

impl<R: Net<Stream = TcpStream> + Copy + Drop, C: Clock + Copy + Drop> Model for NetDial<R, C> {
    ghost use Rattle.std.specs.Prelude.{ℕ};

    ghost Value = { ℕ };

    ghost view = { λ d. d.faults };
}

impl<R: Net<Stream = TcpStream> + Copy + Drop, C: Clock + Copy + Drop> NetDial<R, C> {
    /// A dial of which no call failed yet. This clock tells how long its connections take.
    pub fn make(net: R, clock: C) -> NetDial<R, C>
        ensures { result ≡ 0 }
    {
        NetDial {
            net,
            clock,
            answered: None,
            faults: 0,
        }
    }

    /// A connection to the address at which this host answered last, and else to the first of its addresses that
    /// answers in time. Only then is the host looked up.
    fn connect(&mut self, host: &str, port: u16) -> Option<NetLink<C>>
        ensures fresh { IfSome result (λ link. link ≡ record { read_faults = 0; write_faults = 0 }) }
        ensures faults { self.new ≡ self.old }
    {
        let known = self
            .answered
            .as_ref()
            .and_then(|it| it.address_of(host, port));
        if let Some(address) = known {
            if let Some(link) = connect_to(&self.net, self.clock, address) {
                return Some(link);
            }
        }
        let (address, link) = connect_anew(&self.net, self.clock, host, port, known)?;
        self.answered = Answered::make(host, port, address);
        Some(link)
    }
}

impl<R: Net<Stream = TcpStream> + Copy + Drop, C: Clock + Copy + Drop> Dial for NetDial<R, C> {
    ghost use Rattle.std.specs.Prelude.{None, ⊤};

    type L = NetLink<C>;

    ghost links = { λ _. None };

    ghost closed = { λ _. None };

    ghost faults = { λ d. d };

    ghost may_close = { λ _. ⊤ };

    /// Connects to the address at which the host answered last, and else to the first of its addresses that answers in
    /// time.
    fn dial(&mut self, host: &str, port: u16) -> Result<NetLink<C>, Failed> {
        match self.connect(host, port) {
            Some(link) => Ok(link),
            None => {
                self.faults = self.faults.saturating_add(1);
                Err(Failed)
            }
        }
    }

    /// Closes the connection, and adds its faults.
    fn hang_up(&mut self, link: NetLink<C>) {
        self.faults = self.faults.saturating_add(link.read_faults());
        self.faults = self.faults.saturating_add(link.write_faults());
        drop(link);
    }

    fn fault_count(&self) -> u64 {
        self.faults
    }
}

/// The first of the host's addresses, but for one that was tried, that answers in time, and a connection to it.
fn connect_anew<R: Net<Stream = TcpStream>, C: Clock + Copy + Drop>(
    net: &R,
    clock: C,
    host: &str,
    port: u16,
    tried: Option<SocketAddr>,
) -> Option<(SocketAddr, NetLink<C>)>
    ensures { IfSome result (λ found. found.1 ≡ record { read_faults = 0; write_faults = 0 }) }
{
    for address in (host, port).to_socket_addrs(net).ok()? {
        if Some(address) != tried {
            if let Some(link) = connect_to(net, clock, address) {
                return Some((address, link));
            }
        }
    }
    None
}

/// A connection to this address, where it answers in time.
fn connect_to<R: Net<Stream = TcpStream>, C: Clock + Copy + Drop>(
    net: &R,
    clock: C,
    address: SocketAddr,
) -> Option<NetLink<C>>
    ensures { IfSome result (λ link. link ≡ record { read_faults = 0; write_faults = 0 }) }
{
    let limit = Duration::from_secs(MAX_CONNECT_SECONDS);
    match TcpStream::connect_timeout(net, &address, limit) {
        Ok(stream) => NetLink::make(stream, clock),
        Err(_) => None,
    }
}
