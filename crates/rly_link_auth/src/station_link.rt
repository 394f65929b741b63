//! The link to a neighbour, with a key or without.

ghost use Rattle.std.specs.Prelude.{◌≡◌};
ghost use Rattle.rly_link_auth.specs.StationLink.{keys_over, station_link, wrong_tags};

use crate::key::Key;
use crate::sealed::Sealed;
use rly_link::{Link, LinkFault, Sleep};

/// The link to a neighbour, with or without a key.
#[derive(Drop)]
pub enum StationLink<L: Link> {
    /// The link has no key: packets pass unchanged and unauthenticated.
    Open(L),
    /// The link has a key.
    Keyed(Sealed<L>),
}

impl<L: Link> StationLink<L> {
    /// Wraps a link in a key, if there is one.
    pub fn new(link: L, key: Option<Key>) -> StationLink<L>
        ensures { result ≡ station_link link key }
    {
        match key {
            Some(key) => StationLink::Keyed(Sealed::new(link, key)),
            None => StationLink::Open(link),
        }
    }

    /// The number of packets dropped for a wrong tag. The count stops at its last value.
    pub fn wrong_tags(&self) -> u64
        ensures { result ≡ wrong_tags self.now }
    {
        match self {
            StationLink::Open(_) => 0,
            StationLink::Keyed(sealed) => sealed.wrong_tags(),
        }
    }
}

impl<L: Link> Link for StationLink<L> {
    ghost use Rattle.rly_link_auth.specs.StationLink.{station_failed, station_heard, station_sent};

    ghost heard = { station_heard L.heard };

    ghost sent = { station_sent L.sent };

    ghost failed = { station_failed L.failed };

    fn recv(&mut self, sleep: Sleep, buffer: &mut [u8]) -> Result<Option<usize>, LinkFault> {
        match self {
            StationLink::Open(link) => link.recv(sleep, buffer),
            StationLink::Keyed(sealed) => sealed.recv(sleep, buffer),
        }
    }

    fn send(&mut self, packet: &[u8]) -> Result<(), LinkFault> {
        match self {
            StationLink::Open(link) => link.send(packet),
            StationLink::Keyed(sealed) => sealed.send(packet),
        }
    }

    fn failures(&self) -> u64 {
        match self {
            StationLink::Open(link) => link.failures(),
            StationLink::Keyed(sealed) => sealed.failures(),
        }
    }
}
