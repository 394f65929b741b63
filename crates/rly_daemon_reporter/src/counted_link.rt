//! A link with a neighbour that counts its packets.

ghost use Rattle.std.specs.Prelude.{◌≡◌, ◌≤◌, ◌++◌, ◌∷◌, [], Some, None, IfOk, IfSome, OnErr, OnOk, false, length};
ghost use Rattle.std.specs.Prelude.{true, ℕ};
ghost use Rattle.rly_daemon_reporter.specs.CountedLink.{counts_of, first_counts, heard_then, new_counted};
ghost use Rattle.rly_link.specs.LinkHistory.{FailuresRose, TellsMore, new_hearing, packet_in, packet_of};

use http_server::Log;
use rly_daemon_report::{HopCounts, LinkCounts, PeerCounts};
use rly_hop::StationId;
use rly_link::{Link, LinkFault, PacketLog, Sleep, Worker, bytes_in};
use std::marker::Model;
use std::time::{Clock, Duration};

/// The link of a worker over another link, which counts its packets. The model: the link below, the worker, this
/// station and the neighbour's, and the packets received, with their moments, and sent, in order.
#[derive(Drop)]
pub struct CountedLink<L: Link, C: Clock + Drop> {
    link: L,
    worker: Worker,
    own: StationId,
    station: StationId,
    counts: LinkCounts,
    clock: C,
    events: Log<PacketLog, Option<u64>>,
}

impl<L: Link, C: Clock + Drop> Model for CountedLink<L, C> {
    ghost use Rattle.std.specs.Prelude.{◌≡◌};
    ghost use Rattle.rly_daemon_reporter.specs.CountedLink.{CountedView, counts_of, events_in};

    ghost Value = { CountedView L };

    ghost view = { λ c. record {
      link = c.link;
      worker = c.worker;
      own = c.own;
      station = c.station;
      events = events_in c.events;
    } };

    ghost invariant = { λ c. c.counts ≡ counts_of c.worker c.own c.station (events_in c.events) };
}

impl<L: Link, C: Clock + Drop> CountedLink<L, C> {
    /// This link of a worker between this station and the neighbour's, which counts packets from now on.
    pub fn new(
        link: L,
        worker: Worker,
        own: StationId,
        station: StationId,
        clock: C,
    ) -> CountedLink<L, C>
        ensures { result ≡ new_counted link worker own station }
    {
        CountedLink {
            link,
            worker,
            own,
            station,
            counts: first_counts(worker),
            clock,
            events: Log::new(),
        }
    }

    /// The link below.
    pub fn link(&self) -> &L
        ensures { result.now ≡ self.now.link }
    {
        &self.link
    }

    /// Its worker.
    pub fn worker(&self) -> Worker
        ensures { result ≡ self.now.worker }
    {
        self.worker
    }

    /// The counts: each packet that the link below returned, and each that was passed to it to be sent.
    pub fn counts(&self) -> LinkCounts
        ensures { result ≡ counts_of self.now.worker self.now.own self.now.station self.now.events }
    {
        self.counts
    }

    /// Counts the packet that a receive copied to the front of a buffer, if it did.
    fn note(&mut self, found: Option<usize>, buffer: &[u8])
        requires { IfSome found (λ count. count ≤ length buffer.now) }
        ensures { (moment : ℕ)
            × (self.new ≡ record self.old {
              events = self.old.events
                  ++ heard_then moment (packet_in found buffer.now);
            }) }
    {
        let Some(count) = found else {
            return;
        };
        let packet = &buffer[..count];
        let moment = micros_of(self.clock.since_1970().ok());
        self.counts.hear(self.own, self.station, packet, moment);
        self.events = self.events.and(&bytes_in(packet), &Some(moment));
    }
}

impl<L: Link, C: Clock + Drop> Link for CountedLink<L, C> {
    ghost heard = { λ c. L.heard c.link };

    ghost sent = { λ c. L.sent c.link };

    ghost failed = { λ c. L.failed c.link };

    fn recv(&mut self, sleep: Sleep, buffer: &mut [u8]) -> Result<Option<usize>, LinkFault>
        ensures bound { IfOk result (λ found. IfSome found (λ count. count ≤ length buffer.new)) }
        ensures heard { TellsMore (L.heard self.old.link) (L.heard self.new.link)
            (new_hearing sleep (packet_of result buffer.new) ∷ []) }
        ensures sent { L.sent self.new.link ≡ L.sent self.old.link }
        ensures rise { OnErr result (FailuresRose (L.failed self.old.link) (L.failed self.new.link)) }
        ensures no_failure { OnOk result (L.failed self.new.link ≡ L.failed self.old.link) }
        // A returned packet is counted, and nothing else.
        ensures counted { (moment : ℕ)
            × (self.new.events ≡ self.old.events ++ heard_then moment (packet_of result buffer.new)) }
    {
        let found = self.link.recv(sleep, buffer)?;
        self.note(found, buffer);
        Ok(found)
    }

    fn send(&mut self, packet: &[u8]) -> Result<(), LinkFault>
        ensures sent { TellsMore (L.sent self.old.link) (L.sent self.new.link) (packet.now ∷ []) }
        ensures heard { L.heard self.new.link ≡ L.heard self.old.link }
        ensures rise { OnErr result (FailuresRose (L.failed self.old.link) (L.failed self.new.link)) }
        ensures no_failure { OnOk result (L.failed self.new.link ≡ L.failed self.old.link) }
        // It is counted, even if the send fails.
        ensures counted { self.new.events ≡ self.old.events ++ (packet.now, None) ∷ [] }
    {
        self.counts.send(self.own, self.station, packet);
        self.events = self.events.and(&bytes_in(packet), &None);
        self.link.send(packet)
    }

    fn failures(&self) -> u64 {
        self.link.failures()
    }
}

/// The counts of a worker's link before its first packet.
fn first_counts(worker: Worker) -> LinkCounts
    ensures { result ≡ first_counts worker }
{
    match worker {
        Worker::Receiver(_) => LinkCounts::Peer(PeerCounts::new()),
        Worker::Sender(_) => LinkCounts::Hop(HopCounts::new()),
    }
}

/// A clock's time in microseconds: 0 if it can't be read or is before its start, and the last of 64 bits if it is
/// later.
fn micros_of(time: Option<Duration>) -> u64 {
    match time {
        Some(time) => u64::try_from(time.as_micros()).unwrap_or(u64::MAX),
        None => 0,
    }
}
