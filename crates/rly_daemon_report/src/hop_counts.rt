ghost use Rattle.std.specs.Prelude.{◌≡◌};
ghost use Rattle.rly_daemon_report.specs.Counts.{message_in};
ghost use Rattle.rly_daemon_report.specs.HopCounts.{hop_after_heard, hop_after_sent, is_heard_between, no_hop_counts};

use crate::counting::{counted_if, greatest_with, is_repeat, message_in};
use rly_hop::{Message, StationId, custody_number, data_number, refused_number};

/// The counts of a hop's link since the station started. Each count stops at its last value of 64 bits.
#[derive(Clone, Copy, PartialEq, Eq)]
pub struct HopCounts {
    /// Packets received.
    pub heard: u64,
    /// Custodies received from the hop's station for this one.
    pub custody: u64,
    /// Refusals received from the hop's station for this one.
    pub refused: u64,
    /// Heards received from the hop's station for this one.
    pub heards: u64,
    /// Packets received that are none of these three.
    pub malformed: u64,
    /// Data sent to the hop's station whose number wasn't above `sent`.
    pub repeats: u64,
    /// The greatest number of a Data that was sent: 0 before the first one.
    pub sent: u64,
    /// The moment at which the last packet was received, in microseconds since the Unix epoch.
    pub last: Option<u64>,
}

impl HopCounts {
    /// All counts zero.
    pub fn new() -> HopCounts
        ensures { result ≡ no_hop_counts }
    {
        HopCounts {
            heard: 0,
            custody: 0,
            refused: 0,
            heards: 0,
            malformed: 0,
            repeats: 0,
            sent: 0,
            last: None,
        }
    }

    /// Counts a packet received from a hop at a moment.
    pub fn hear(&mut self, own: StationId, hop: StationId, packet: &[u8], moment: u64)
        ensures { self.new ≡ hop_after_heard own hop moment packet.now self.old }
    {
        let is_custody = custody_number(packet, hop, own).is_some();
        let is_refusal = refused_number(packet, hop, own).is_some();
        let is_heard = is_heard_between(hop, own, packet);
        self.heard = counted_if(true, self.heard);
        self.custody = counted_if(is_custody, self.custody);
        self.refused = counted_if(is_refusal, self.refused);
        self.heards = counted_if(is_heard, self.heards);
        self.malformed = counted_if(!(is_custody || is_refusal || is_heard), self.malformed);
        self.last = Some(moment);
    }

    /// Counts a packet sent to a hop, if it is a Data that repeats a number.
    pub fn send(&mut self, own: StationId, hop: StationId, packet: &[u8])
        ensures { self.new ≡ hop_after_sent own hop packet.now self.old }
    {
        let number = data_number(packet, own, hop);
        self.repeats = counted_if(is_repeat(self.sent, number), self.repeats);
        self.sent = greatest_with(self.sent, number);
    }
}

/// Whether a packet is a Heard from one station to another.
fn is_heard_between(from: StationId, to: StationId, packet: &[u8]) -> bool
    ensures { result ≡ is_heard_between from to (message_in packet.now) }
{
    match message_in(packet) {
        Some(
            Message::Heard {
                from: source,
                to: target,
                ..
            },
        ) => source.0 == from.0 && target.0 == to.0,
        _ => false,
    }
}
