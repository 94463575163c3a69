//! The address at which a host answered last, so that its name isn't looked up for each connection.

use arrayvec::ArrayString;
use std::net::SocketAddr;
use topk_base::MAX_HOST;

/// A host, a port of it, and the address at which it answered.
#[derive(Drop)]
pub(crate) struct Answered {
    host: ArrayString<MAX_HOST>,
    port: u16,
    address: SocketAddr,
}

impl Answered {
    /// None where the name of the host is longer than a place may state.
    pub(crate) fn make(host: &str, port: u16, address: SocketAddr) -> Option<Answered> {
        let mut kept = ArrayString::new();
        kept.try_push_str(host).ok()?;
        Some(Answered {
            host: kept,
            port,
            address,
        })
    }

    /// The address, where it is that of this host and port.
    pub(crate) fn address_of(&self, host: &str, port: u16) -> Option<SocketAddr> {
        let is_it = self.port == port && self.host.as_str() == host;
        is_it.then_some(self.address)
    }
}
