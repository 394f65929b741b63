//! A link with a reorder buffer.

ghost use Rattle.std.specs.Prelude.{◌≡◌, ◌⊎◌, ◌≤◌, ◌++◌, ◌∷◌, [], if◌then◌else◌, IfNone, IfOk, IfSome, None, OnErr};
ghost use Rattle.std.specs.Prelude.{OnOk, Some, length};
ghost use Rattle.std.specs.Option.{option_map};
ghost use Rattle.rly_link_reorder.specs.ReorderedLink.{after_hearing, after_receive, after_sending, given_again};
ghost use Rattle.rly_link_reorder.specs.ReorderedLink.{HasSent, heards_after, new_reordered};
ghost use Rattle.rly_link_reorder.specs.ReorderBuffer.{after_giving, due_data, heard_bits, is_heard_due};
ghost use Rattle.rly_hop.specs.FixedBytes.{heard_packet};
ghost use Rattle.rly_link.specs.LinkHistory.{FailuresRose, TellsMore, new_hearing, packet_in, packet_of};
ghost use Rattle.rly_link.specs.Memory.{heard_of};

use crate::reorder_buffer::ReorderBuffer;
use http_server::Log;
use rly_hop::{HEARD_LENGTH, StationId, custody_number, data_number, heard_packet, refused_number};
use rly_link::{Link, LinkFault, PacketLog, Sleep, bytes_in};
use std::marker::Model;

/// A link with a peer over another link, which delivers early Data again when their turn comes, and sends a Heard after
/// a custody if Data came ahead of a gap. Its model: the link below, both stations, the reorder buffer, the packets
/// delivered, the packets passed to it to be sent, and the count of Heards that it sent.
#[derive(Drop)]
pub struct ReorderedLink<L: Link> {
    link: L,
    own: StationId,
    peer: StationId,
    early: ReorderBuffer,
    given: Log<Sleep, Option<PacketLog>>,
    passed: Log<PacketLog, ()>,
    /// Heards passed to the link below. The count stops at its last value.
    heards: u64,
}

impl<L: Link> Model for ReorderedLink<L> {
    ghost use Rattle.rly_link_reorder.specs.ReorderedLink.{ReorderedView};
    ghost use Rattle.rly_link.specs.Memory.{heard_of, sent_of};

    ghost Value = { ReorderedView L };

    ghost view = { λ a. record {
      link = a.link;
      own = a.own;
      peer = a.peer;
      early = a.early;
      given = heard_of a.given;
      passed = sent_of a.passed;
      heards = a.heards;
    } };
}

impl<L: Link> ReorderedLink<L> {
    /// This link with a peer, with a reorder buffer.
    pub fn new(link: L, own: StationId, peer: StationId, early: ReorderBuffer) -> ReorderedLink<L>
        ensures { result ≡ new_reordered link own peer early }
    {
        ReorderedLink {
            link,
            own,
            peer,
            early,
            given: Log::new(),
            passed: Log::new(),
            heards: 0,
        }
    }

    /// The link below.
    pub fn link(&self) -> &L
        ensures { result.now ≡ self.now.link }
    {
        &self.link
    }

    /// Unwraps the link below.
    pub fn into_link(self) -> L
        ensures { result ≡ self.link }
    {
        self.link
    }

    /// The number of Heards that it passed to the link below, also those whose send failed. The count stops at its
    /// last value of 64 bits.
    pub fn heards_sent(&self) -> u64
        ensures { result ≡ self.now.heards }
    {
        self.heards
    }

    /// Delivers the stored packet that is due, if there is one that fits.
    fn give(&mut self, sleep: Sleep, buffer: &mut [u8]) -> Option<usize>
        ensures bound { IfSome result (λ count. count ≤ length buffer.new) }
        ensures packet { packet_in result buffer.new
            ≡ option_map (λ k. k.packet) (due_data self.old.early (length buffer.old)) }
        ensures after { self.new ≡ record self.old {
          early = after_giving self.old.early (length buffer.old);
          given = given_again sleep (due_data self.old.early (length buffer.old)) self.old.given;
        } }
    {
        let count = self.early.give(buffer)?;
        self.tell(sleep, Some(count), buffer);
        Some(count)
    }

    /// Records the packet of a receive, and how long it might wait.
    fn tell(&mut self, sleep: Sleep, found: Option<usize>, buffer: &[u8])
        requires { IfSome found (λ count. count ≤ length buffer.now) }
        ensures { self.new
            ≡ record self.old { given = self.old.given ++ new_hearing sleep (packet_in found buffer.now) ∷ [] } }
    {
        let packet = match found {
            Some(count) => Some(bytes_in(&buffer[..count])),
            None => None,
        };
        self.given = self.given.and(&sleep, &packet);
    }

    /// Handles and records a receive of the link below.
    fn hear(&mut self, sleep: Sleep, found: Option<usize>, buffer: &[u8])
        requires { IfSome found (λ count. count ≤ length buffer.now) }
        ensures { self.new ≡ record self.old {
          early = after_hearing self.old.own self.old.peer self.old.early (packet_in found buffer.now);
          given = self.old.given ++ new_hearing sleep (packet_in found buffer.now) ∷ [];
        } }
    {
        if let Some(count) = found {
            self.keep(&buffer[..count]);
        }
        self.tell(sleep, found, buffer);
    }

    /// The Heard that is due, if one is.
    fn heard_due(&self) -> Option<[u8; HEARD_LENGTH]>
        ensures { result ≡ (if is_heard_due self.now.early
            then heard_packet self.now.own self.now.peer self.now.early.covered (heard_bits self.now.early) else None) }
    {
        let bits = self.early.heard_due()?;
        heard_packet(self.own, self.peer, self.early.covered(), bits)
    }

    /// Stores a packet, if it is an early Data of the peer.
    fn keep(&mut self, packet: &[u8])
        ensures { self.new
            ≡ record self.old { early = after_hearing self.old.own self.old.peer self.old.early (Some packet.now) } }
    {
        if let Some(number) = data_number(packet, self.peer, self.own) {
            self.early.hear(number, packet);
        }
    }
}

impl<L: Link> Link for ReorderedLink<L> {
    ghost use Rattle.rly_link_reorder.specs.ReorderedLink.{reordered_failures, reordered_heard, reordered_sent};

    ghost heard = { reordered_heard };

    ghost sent = { reordered_sent };

    ghost failed = { reordered_failures L.failed };

    fn recv(&mut self, sleep: Sleep, buffer: &mut [u8]) -> Result<Option<usize>, LinkFault>
        ensures bound { IfOk result (λ found. IfSome found (λ count. count ≤ length buffer.new)) }
        ensures heard { self.new.given ≡ self.old.given ++ new_hearing sleep (packet_of result buffer.new) ∷ [] }
        ensures sent { self.new.passed ≡ self.old.passed }
        ensures silent { L.sent self.new.link ≡ L.sent self.old.link }
        ensures uncounted { self.new.heards ≡ self.old.heards }
        ensures rise { OnErr result (FailuresRose (L.failed self.old.link) (L.failed self.new.link)) }
        ensures no_failure { OnOk result (L.failed self.new.link ≡ L.failed self.old.link) }
        // A stored packet that is due is delivered without a receive below. Otherwise the link below is asked once.
        ensures again { IfSome (due_data self.old.early (length buffer.old))
            (λ k. (packet_of result buffer.new ≡ Some k.packet) × (self.new.link ≡ self.old.link)) }
        ensures asked { IfNone (due_data self.old.early (length buffer.old))
            (TellsMore (L.heard self.old.link) (L.heard self.new.link)
            (new_hearing sleep (packet_of result buffer.new) ∷ [])) }
        ensures after { self.new.early ≡ after_receive self.old (length buffer.old) (packet_of result buffer.new) }
    {
        if let Some(count) = self.give(sleep, buffer) {
            return Ok(Some(count));
        }
        let outcome = self.link.recv(sleep, buffer);
        self.hear(sleep, outcome.ok().flatten(), buffer);
        outcome
    }

    fn send(&mut self, packet: &[u8]) -> Result<(), LinkFault>
        ensures sent { self.new.passed ≡ self.old.passed ++ packet.now ∷ [] }
        ensures heard { self.new.given ≡ self.old.given }
        ensures rise { OnErr result (FailuresRose (L.failed self.old.link) (L.failed self.new.link)) }
        ensures no_failure { OnOk result (L.failed self.new.link ≡ L.failed self.old.link) }
        ensures below { L.heard self.new.link ≡ L.heard self.old.link }
        // After a custody that went out it sends the Heard that is due, counts it, and sends nothing else of its own.
        ensures passes { OnOk result (HasSent L.sent self.old self.new packet.now (heards_after self.old packet.now)) }
        ensures fails { OnErr result (HasSent L.sent self.old self.new packet.now []
            ⊎ HasSent L.sent self.old self.new packet.now (heards_after self.old packet.now)) }
        ensures after { self.new.early ≡ after_sending self.old packet.now }
    {
        self.passed = self.passed.and(&bytes_in(packet), &());
        let Some(last) = custody_number(packet, self.own, self.peer) else {
            if let Some(number) = refused_number(packet, self.own, self.peer) {
                self.early.refuse(number);
            }
            return self.link.send(packet);
        };
        self.early.cover(last);
        let heard = self.heard_due();
        self.early.tell();
        self.link.send(packet)?;
        match heard {
            Some(heard) => {
                self.heards = self.heards.saturating_add(1);
                self.link.send(&heard)
            }
            None => Ok(()),
        }
    }

    fn failures(&self) -> u64 {
        self.link.failures()
    }
}
