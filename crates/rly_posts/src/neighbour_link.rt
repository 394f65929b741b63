//! The link to a neighbour: a socket, or a folder that plays it.

ghost use Rattle.std.specs.Prelude.{◌≡◌, ◌↔◌, IsTrue};
ghost use Rattle.rly_posts.specs.Neighbour.{IsOpen, buffer_of, refusal_of};

use crate::incoming_link::IncomingLink;
use crate::outgoing_link::OutgoingLink;
use rly_link::{Link, LinkFault, Sleep};
use rly_link_auth::MeteredLink;
use rly_link_udp::{SocketLink, Sockets};
use rly_station::EndFault;
use std::fs::{File, Files};
use std::time::Clock;

/// The link of a worker to its neighbour.
#[derive(Drop)]
pub enum NeighbourLink<C: Clock + Sockets + Drop> {
    /// The neighbour is a station at a socket.
    Socket(SocketLink<C>),
    /// A folder plays the peer of a receiver.
    Incoming(IncomingLink<C>),
    /// A folder plays the hop of a sender.
    Outgoing(OutgoingLink<C>),
}

impl<C: AllocGlobal + Files<File = File> + Clock + Sockets + Clone + Drop> NeighbourLink<C> {
    /// The bytes of its receive buffer, if it is a socket and they are known.
    pub(crate) fn receive_buffer(&self) -> Option<u32>
        ensures { result ≡ buffer_of self.now }
    {
        match self {
            NeighbourLink::Socket(link) => link.receive_buffer(),
            NeighbourLink::Incoming(_) | NeighbourLink::Outgoing(_) => None,
        }
    }

    /// Why it wasn't open at the start: `None` if it was. A folder is.
    pub(crate) fn refusal(&self) -> Option<EndFault>
        ensures { result ≡ refusal_of self.now }
    {
        match self {
            NeighbourLink::Socket(link) => link.refusal(),
            NeighbourLink::Incoming(_) | NeighbourLink::Outgoing(_) => None,
        }
    }

    /// Whether it is a socket without a key.
    pub fn is_open(&self) -> bool
        ensures { IsTrue result ↔ IsOpen self.now }
    {
        match self {
            NeighbourLink::Socket(link) => link.is_open(),
            NeighbourLink::Incoming(_) | NeighbourLink::Outgoing(_) => false,
        }
    }
}

impl<C: AllocGlobal + Files<File = File> + Clock + Sockets + Clone + Drop> MeteredLink
    for NeighbourLink<C> {
    ghost use Rattle.std.specs.Prelude.{◌≡◌};
    ghost use Rattle.rly_posts.specs.Neighbour.{neighbour_heards, neighbour_wrong_tags};

    fn wrong_tags(&self) -> u64
        ensures { result ≡ neighbour_wrong_tags self.now }
    {
        match self {
            NeighbourLink::Socket(link) => link.wrong_tags(),
            NeighbourLink::Incoming(_) | NeighbourLink::Outgoing(_) => 0,
        }
    }

    fn heards_sent(&self) -> u64
        ensures { result ≡ neighbour_heards self.now }
    {
        match self {
            NeighbourLink::Socket(link) => link.heards_sent(),
            NeighbourLink::Incoming(_) | NeighbourLink::Outgoing(_) => 0,
        }
    }
}

impl<C: AllocGlobal + Files<File = File> + Clock + Sockets + Clone + Drop> Link
    for NeighbourLink<C> {
    ghost use Rattle.std.specs.Prelude.{◌≡◌, ◌≤◌, ◌∷◌, [], IfOk, IfSome, OnErr, OnOk, length};
    ghost use Rattle.rly_posts.specs.Neighbour.{neighbour_failed, neighbour_heard, neighbour_sent};
    ghost use Rattle.rly_link.specs.LinkHistory.{FailuresRose, TellsMore, new_hearing, packet_of};

    ghost heard = { λ l. neighbour_heard l };

    ghost sent = { λ l. neighbour_sent l };

    ghost failed = { λ l. neighbour_failed l };

    fn recv(&mut self, sleep: Sleep, buffer: &mut [u8]) -> Result<Option<usize>, LinkFault>
        ensures bound { IfOk result (λ found. IfSome found (λ count. count ≤ length buffer.new)) }
        ensures heard { TellsMore (neighbour_heard self.old) (neighbour_heard self.new)
            (new_hearing sleep (packet_of result buffer.new) ∷ []) }
        ensures sent { neighbour_sent self.new ≡ neighbour_sent self.old }
        ensures rise { OnErr result (FailuresRose (neighbour_failed self.old) (neighbour_failed self.new)) }
        ensures no_failure { OnOk result (neighbour_failed self.new ≡ neighbour_failed self.old) }
    {
        match self {
            NeighbourLink::Socket(link) => link.recv(sleep, buffer),
            NeighbourLink::Incoming(link) => link.recv(sleep, buffer),
            NeighbourLink::Outgoing(link) => link.recv(sleep, buffer),
        }
    }

    fn send(&mut self, packet: &[u8]) -> Result<(), LinkFault>
        ensures sent { TellsMore (neighbour_sent self.old) (neighbour_sent self.new) (packet.now ∷ []) }
        ensures heard { neighbour_heard self.new ≡ neighbour_heard self.old }
        ensures rise { OnErr result (FailuresRose (neighbour_failed self.old) (neighbour_failed self.new)) }
        ensures no_failure { OnOk result (neighbour_failed self.new ≡ neighbour_failed self.old) }
    {
        match self {
            NeighbourLink::Socket(link) => link.send(packet),
            NeighbourLink::Incoming(link) => link.send(packet),
            NeighbourLink::Outgoing(link) => link.send(packet),
        }
    }

    fn failures(&self) -> u64 {
        match self {
            NeighbourLink::Socket(link) => link.failures(),
            NeighbourLink::Incoming(link) => link.failures(),
            NeighbourLink::Outgoing(link) => link.failures(),
        }
    }
}
