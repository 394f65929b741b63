ghost use Rattle.std.specs.Prelude.{◌≡◌};
ghost use Rattle.rly_daemon_report.specs.LinkCounts.{link_after_heard, link_after_sent, link_report, no_link_report};

use crate::hop_counts::HopCounts;
use crate::peer_counts::PeerCounts;
use rly_hop::StationId;

/// The counts of a neighbour's link.
#[derive(Clone, Copy, PartialEq, Eq)]
pub enum LinkCounts {
    /// Of a peer's.
    Peer(PeerCounts),
    /// Of a hop's.
    Hop(HopCounts),
}

impl LinkCounts {
    /// Counts a packet received from the neighbour's station at a moment.
    pub fn hear(&mut self, own: StationId, station: StationId, packet: &[u8], moment: u64)
        ensures { self.new ≡ link_after_heard own station moment packet.now self.old }
    {
        match self {
            LinkCounts::Peer(counts) => counts.hear(own, station, packet, moment),
            LinkCounts::Hop(counts) => counts.hear(own, station, packet, moment),
        }
    }

    /// Counts a packet sent to the neighbour's station.
    pub fn send(&mut self, own: StationId, station: StationId, packet: &[u8])
        ensures { self.new ≡ link_after_sent own station packet.now self.old }
    {
        match self {
            LinkCounts::Peer(counts) => counts.send(own, station, packet),
            LinkCounts::Hop(counts) => counts.send(own, station, packet),
        }
    }
}

/// A neighbour's link in a report.
#[derive(Clone, Copy, PartialEq, Eq)]
pub struct LinkReport {
    /// Packets received.
    pub heard: u64,
    /// Custodies, sent to a peer or received from a hop.
    pub custody: u64,
    /// Refusals, sent to a peer or received from a hop.
    pub refused: u64,
    /// Packets received that aren't Data from the peer to this station, or that are none of a custody, a refusal and a
    /// Heard from the hop's station to this one.
    pub malformed: u64,
    /// Packets dropped for a wrong tag: 0 if the link has no key.
    pub wrong: u64,
    /// Repeats of a Data, received from a peer or sent to a hop.
    pub repeats: u64,
    /// Heards, sent to a peer or received from a hop.
    pub heards: u64,
    /// The moment at which the last packet was received, in microseconds since the Unix epoch.
    pub last: Option<u64>,
}

impl LinkReport {
    /// The report of a link that wasn't used.
    pub fn new() -> LinkReport
        ensures { result ≡ no_link_report }
    {
        LinkReport {
            heard: 0,
            custody: 0,
            refused: 0,
            malformed: 0,
            wrong: 0,
            repeats: 0,
            heards: 0,
            last: None,
        }
    }

    /// The report of a link with these counts, of this many packets with a wrong tag, and of this many Heards sent.
    pub fn of(counts: &LinkCounts, wrong: u64, heards_sent: u64) -> LinkReport
        ensures { result ≡ link_report counts.now wrong heards_sent }
    {
        match counts {
            LinkCounts::Peer(counts) => LinkReport {
                heard: counts.heard,
                custody: counts.custody,
                refused: counts.refused,
                malformed: counts.malformed,
                wrong,
                repeats: counts.repeats,
                heards: heards_sent,
                last: counts.last,
            },
            LinkCounts::Hop(counts) => LinkReport {
                heard: counts.heard,
                custody: counts.custody,
                refused: counts.refused,
                malformed: counts.malformed,
                wrong,
                repeats: counts.repeats,
                heards: counts.heards,
                last: counts.last,
            },
        }
    }
}
