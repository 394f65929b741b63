//! The link to a neighbour at a socket with all its layers: logs failed sends, wrong tags and what
//! else stops it, and has a reorder buffer.

ghost use Rattle.std.specs.Prelude.{◌≡◌, ◌↔◌, IsTrue, IsNone};
ghost use Rattle.rly_link_reorder.specs.ReorderedLink.{new_reordered};
ghost use Rattle.rly_link_auth.specs.StationLink.{keys_over, station_link};
ghost use Rattle.rly_link_udp.specs.LinkDuties.{socket_duty};
ghost use Rattle.rly_link_udp.specs.PatientLink.{refusal_in};
ghost use Rattle.rly_link_udp.specs.UdpOpener.{patient_addresses, patient_failures};
ghost use Rattle.rly_link_log.specs.LinkLog.{link_view};

use crate::link_reorder::LinkReorder;
use crate::patient_link::PatientLink;
use crate::sockets::Sockets;
use crate::udp_link::UdpLink;
use crate::udp_opener::UdpOpener;
use crate::wrong_tags::WrongTags;
use rly_link::{Link, LinkFault, Sleep};
use rly_link_auth::{Key, MeteredLink, StationLink};
use rly_link_log::LinkLog;
use rly_link_reorder::ReorderedLink;
use rly_station::{EndFault, moment_of};
use std::time::Clock;

/// The link to a socket, which is open or is opened later.
type UdpPatient<C> = PatientLink<UdpLink<C>, UdpOpener<C>>;

/// A link over UDP, sealed if it has a key, with a reorder buffer over the authenticated packets. It logs packets
/// of a wrong tag and what else its packets show of what stops it; the socket's link logs failed sends, and packets from
/// another address.
#[derive(Drop)]
pub struct SocketLink<C: Clock + Sockets + Drop> {
    link: ReorderedLink<StationLink<UdpPatient<C>>>,
    wrong_tags: WrongTags,
    log: LinkLog,
    clock: C,
    /// The bytes of its receive buffer at the start, if one was requested and the system says how many.
    buffer: Option<u32>,
    /// Why it wasn't open at the start, if it wasn't.
    refused: Option<EndFault>,
}

impl<C: Clock + Sockets + Drop> SocketLink<C> {
    /// A link over a socket, sealed with a key if there is one, with its logs and the clock of these.
    pub(crate) fn new(
        socket: UdpPatient<C>,
        key: Option<Key>,
        keeping: LinkReorder,
        wrong_tags: WrongTags,
        log: LinkLog,
        clock: C,
    ) -> SocketLink<C>
        ensures link { result.link ≡ new_reordered (station_link socket key) keeping.own keeping.peer keeping.early }
        ensures logs { (result.wrong_tags ≡ wrong_tags) × (result.log ≡ log) }
        ensures buffer { result.buffer ≡ socket.opener.granted }
        ensures refused { result.refused ≡ refusal_in socket.state }
        ensures duty { socket_duty result ≡ record {
          addresses = patient_addresses socket;
          keys = key;
          keeps = keeping;
          failures = patient_failures socket;
          tags = wrong_tags.worker;
          log = link_view log;
        } }
    {
        let LinkReorder { own, peer, early } = keeping;
        let buffer = socket.opener().granted();
        let refused = socket.refusal();
        SocketLink {
            link: ReorderedLink::new(StationLink::new(socket, key), own, peer, early),
            wrong_tags,
            log,
            clock,
            buffer,
            refused,
        }
    }

    /// The bytes of its receive buffer at the start, if they are known.
    pub fn receive_buffer(&self) -> Option<u32>
        ensures { result ≡ self.now.buffer }
    {
        self.buffer
    }

    /// Why it wasn't open at the start: `None` if it was.
    pub fn refusal(&self) -> Option<EndFault>
        ensures { result ≡ self.now.refused }
    {
        self.refused
    }

    /// The moment of the monotonic clock.
    fn moment(&self) -> u64 {
        moment_of(self.clock.monotonic().ok())
    }

    /// Whether it is unauthenticated.
    pub fn is_open(&self) -> bool
        ensures { IsTrue result ↔ IsNone (keys_over self.now.link.link) }
    {
        matches!(self.link.link(), StationLink::Open(_))
    }
}

impl<C: Clock + Sockets + Drop> MeteredLink for SocketLink<C> {
    ghost use Rattle.std.specs.Prelude.{◌≡◌};
    ghost use Rattle.rly_link_auth.specs.StationLink.{wrong_tags};

    fn wrong_tags(&self) -> u64
        ensures { result ≡ wrong_tags self.now.link.link }
    {
        self.link.link().wrong_tags()
    }

    fn heards_sent(&self) -> u64
        ensures { result ≡ self.now.link.heards }
    {
        self.link.heards_sent()
    }
}

impl<C: Clock + Sockets + Drop> Link for SocketLink<C> {
    ghost use Rattle.std.specs.Prelude.{◌≡◌, ◌≤◌, ◌∷◌, [], ℕ, IfOk, IfSome, OnErr, OnOk, length};
    ghost use Rattle.rly_link_udp.specs.SocketLink.{socket_failed, socket_heard, socket_sent};
    ghost use Rattle.rly_link_log.specs.LinkLog.{HasNotedReceive, HasNotedSent};
    ghost use Rattle.rly_link_udp.specs.WrongTags.{HasNotedTags};
    ghost use Rattle.rly_link_auth.specs.StationLink.{wrong_tags};
    ghost use Rattle.rly_link.specs.LinkHistory.{FailuresRose, TellsMore, new_hearing, packet_of};

    ghost heard = { λ l. socket_heard l };

    ghost sent = { λ l. socket_sent l };

    ghost failed = { λ l. socket_failed l };

    fn recv(&mut self, sleep: Sleep, buffer: &mut [u8]) -> Result<Option<usize>, LinkFault>
        ensures bound { IfOk result (λ found. IfSome found (λ count. count ≤ length buffer.new)) }
        ensures heard { TellsMore (socket_heard self.old) (socket_heard self.new)
            (new_hearing sleep (packet_of result buffer.new) ∷ []) }
        ensures sent { socket_sent self.new ≡ socket_sent self.old }
        ensures rise { OnErr result (FailuresRose (socket_failed self.old) (socket_failed self.new)) }
        ensures no_failure { OnOk result (socket_failed self.new ≡ socket_failed self.old) }
        // A wrong tag is counted and logged if due, and so is what a packet shows.
        ensures noted { (now : ℕ)
            × HasNotedTags (wrong_tags self.old.link.link) (wrong_tags self.new.link.link) now
            self.old.wrong_tags self.new.wrong_tags
            × HasNotedReceive (packet_of result buffer.new) now self.old.log self.new.log }
    {
        let before = self.link.link().wrong_tags();
        let outcome = self.link.recv(sleep, buffer);
        let now = self.moment();
        self.wrong_tags
            .note(before, self.link.link().wrong_tags(), now);
        if let Ok(Some(count)) = outcome {
            self.log.hear(&buffer[..count], now);
        }
        outcome
    }

    fn send(&mut self, packet: &[u8]) -> Result<(), LinkFault>
        ensures sent { TellsMore (socket_sent self.old) (socket_sent self.new) (packet.now ∷ []) }
        ensures heard { socket_heard self.new ≡ socket_heard self.old }
        ensures rise { OnErr result (FailuresRose (socket_failed self.old) (socket_failed self.new)) }
        ensures no_failure { OnOk result (socket_failed self.new ≡ socket_failed self.old) }
        ensures quiet { self.new.wrong_tags ≡ self.old.wrong_tags }
        // What the packet shows is counted, and logged if due, even if the send fails.
        ensures noted { (now : ℕ) × HasNotedSent packet.now now self.old.log self.new.log }
    {
        let now = self.moment();
        self.log.send(packet, now);
        self.link.send(packet)
    }

    fn failures(&self) -> u64 {
        self.link.failures()
    }
}
