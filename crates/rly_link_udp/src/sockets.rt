//! The sockets of a network.

use crate::udp_link::bound_at;
use rly_station::EndFault;
use std::net::{Net, SocketAddr, UdpSocket};

/// Opens sockets.
pub trait Sockets {
    /// A socket that receives on `listen`, and the first address that `remote` names. `Err`: the address that the system
    /// refused.
    fn bind(&self, listen: &str, remote: &str) -> Result<(UdpSocket, SocketAddr), EndFault>;
}

impl<'a, N: Net> Sockets for &'a N {
    fn bind(&self, listen: &str, remote: &str) -> Result<(UdpSocket, SocketAddr), EndFault> {
        bound_at(*self, listen, remote)
    }
}
