//! A listener as a port.

ghost use Rattle.std.specs.Prelude.{◌≡◌};

use super::accepting::accept_next;
use super::{Failed, NetLink, Port};
use libc::net::listen;
use std::io;
use std::marker::Model;
use std::net::{IpAddr, Ipv4Addr, Ipv6Addr, Net, SocketAddr, TcpListener, TcpStream};
use std::os::fd::AsRawFd;
use std::time::Clock;

/// What listens to the outside at one address. It tells no links, and never ends. Contracts see it as its
/// count of faults.
#[derive(Drop)]
pub struct NetPort<
    R: Net<Listener = TcpListener, Stream = TcpStream> + Copy + Send + Drop,
    C: Clock + Copy + Send + Drop,
> {
    net: R,
    clock: C,
    address: IpAddr,
    listener: Option<TcpListener>,
    faults: u64,
}

impl<
    R: Net<Listener = TcpListener, Stream = TcpStream> + Copy + Send + Drop,
    C: Clock + Copy + Send + Drop,
> Model for NetPort<R, C> {
    ghost use Rattle.std.specs.Prelude.{ℕ};

    ghost Value = { ℕ };

    ghost view = { λ p. p.faults };
}

impl<
    R: Net<Listener = TcpListener, Stream = TcpStream> + Copy + Send + Drop,
    C: Clock + Copy + Send + Drop,
> NetPort<R, C> {
    /// A port of this address that doesn't listen yet, and of which no call failed. Every address of IPv6 means
    /// those of IPv4 too. This clock tells how long its connections take.
    pub fn make(net: R, clock: C, address: IpAddr) -> NetPort<R, C>
        ensures { result ≡ 0 }
    {
        NetPort {
            net,
            clock,
            address,
            listener: None,
            faults: 0,
        }
    }

    /// The number that it listens at, where it listens: the one that the system chose where 0 was asked
    /// for.
    pub fn number(&self) -> Option<u16> {
        let listener = self.listener.as_ref()?;
        let found = listener.local_addr().ok()?;
        Some(found.port())
    }
}

impl<
    R: Net<Listener = TcpListener, Stream = TcpStream> + Copy + Send + Drop,
    C: Clock + Copy + Send + Drop,
> Port for NetPort<R, C> {
    ghost use Rattle.std.specs.Prelude.{None, ⊤};

    type L = NetLink<C>;

    ghost links = { λ _. None };

    ghost closed = { λ _. None };

    ghost faults = { λ p. p };

    ghost may_close = { λ _. ⊤ };

    /// Listens at the port of this number in place of the one before. That the system refuses it is a
    /// fault.
    fn listen(&mut self, number: u16) -> Result<(), Failed> {
        match bind_at(&self.net, self.address, number) {
            Ok(listener) => {
                self.listener = Some(listener);
                Ok(())
            }
            Err(_) => {
                self.faults = self.faults.saturating_add(1);
                Err(Failed)
            }
        }
    }

    /// Waits for a connection. That it doesn't listen is a fault.
    fn accept(&mut self) -> Result<Option<NetLink<C>>, Failed> {
        let accepted = accept_next(&self.listener, self.clock);
        if accepted.is_err() {
            self.faults = self.faults.saturating_add(1);
        }
        accepted
    }

    /// Lets the connection go.
    fn hang_up(&mut self, link: NetLink<C>) {
        link.let_go();
    }
}

/// A listener at the port of this number. At every address means those of IPv6 and of IPv4, by one listener; where
/// the system has no IPv6, or keeps the two apart, it means those of IPv4.
fn bind_at<R: Net<Listener = TcpListener, Stream = TcpStream>>(
    net: &R,
    address: IpAddr,
    number: u16,
) -> io::Result<TcpListener> {
    let asked = listen_at(net, address, number);
    if address != IpAddr::V6(Ipv6Addr::UNSPECIFIED) {
        return asked;
    }
    let every = IpAddr::V4(Ipv4Addr::UNSPECIFIED);
    let Ok(both) = asked else {
        return listen_at(net, every, number);
    };
    let number = both.local_addr()?.port();
    match listen_at(net, every, number) {
        Ok(apart) => Ok(apart),
        Err(_) => Ok(both),
    }
}

/// A listener whose queue is as long as the system allows. std makes it 128 long; a further call makes it longer, or
/// leaves it as it is.
fn listen_at<R: Net<Listener = TcpListener, Stream = TcpStream>>(
    net: &R,
    address: IpAddr,
    number: u16,
) -> io::Result<TcpListener> {
    let listener = TcpListener::bind(net, SocketAddr::new(address, number))?;
    listen(listener.as_raw_fd(), i32::MAX);
    Ok(listener)
}
