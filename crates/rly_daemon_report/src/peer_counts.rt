ghost use Rattle.rly_daemon_report.specs.Counts.{after_heard, after_sent, no_counts};

use crate::counting::{counted_if, greatest_with, is_repeat, message_in};
use rly_hop::{Message, StationId, custody_number, data_number};

/// The counts of a peer's link since the station started. Each count stops at its last value of 64 bits.
#[derive(Clone, Copy, PartialEq, Eq)]
pub struct PeerCounts {
    /// Packets received.
    pub heard: u64,
    /// Custodies sent.
    pub custody: u64,
    /// Refusals sent.
    pub refused: u64,
    /// Packets received that hand over no datagram from the peer to this station.
    pub malformed: u64,
    /// Data received from the peer for this station whose number wasn't above `covered`.
    pub repeats: u64,
    /// The greatest number that custody was sent for: 0 before the first custody.
    pub covered: u64,
    /// The moment at which the last packet was received, in microseconds since the Unix epoch.
    pub last: Option<u64>,
}

impl PeerCounts {
    ghost use Rattle.std.specs.Prelude.{◌≡◌};

    /// All counts zero.
    pub fn new() -> PeerCounts
        ensures { result ≡ no_counts }
    {
        PeerCounts {
            heard: 0,
            custody: 0,
            refused: 0,
            malformed: 0,
            repeats: 0,
            covered: 0,
            last: None,
        }
    }

    /// Counts a packet received from a peer at a moment.
    pub fn hear(&mut self, own: StationId, peer: StationId, packet: &[u8], moment: u64)
        ensures { self.new ≡ after_heard own peer moment packet.now self.old }
    {
        let number = data_number(packet, peer, own);
        let is_wanted = number.is_some();
        self.heard = counted_if(true, self.heard);
        self.malformed = counted_if(!is_wanted, self.malformed);
        self.repeats = counted_if(is_repeat(self.covered, number), self.repeats);
        self.last = Some(moment);
    }

    /// Counts a packet sent to a peer, if it is a custody or a refusal.
    pub fn send(&mut self, own: StationId, peer: StationId, packet: &[u8])
        ensures { self.new ≡ after_sent own peer packet.now self.old }
    {
        match message_in(packet) {
            Some(Message::Custody { .. }) => self.custody = counted_if(true, self.custody),
            Some(Message::Refused { .. }) => self.refused = counted_if(true, self.refused),
            Some(Message::Data { .. }) | Some(Message::Heard { .. }) | None => {}
        }
        self.covered = greatest_with(self.covered, custody_number(packet, own, peer));
    }
}
