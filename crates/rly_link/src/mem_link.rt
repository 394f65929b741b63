//! A link in memory, for tests. In proofs it records all its packets.

ghost use Rattle.std.specs.Prelude.{◌≡◌, ◌≤◌, ◌++◌, ◌∷◌, [], IfOk, IfSome, OnErr, OnOk, length};
ghost use Rattle.rly_link.specs.LinkHistory.{FailuresRose, new_hearing, packet_in};
ghost use Rattle.rly_link.specs.Memory.{heard_of, sent_of};

use crate::link::{Link, LinkFault, Sleep};
use crate::packet_log::{PacketLog, bytes_in};
use http_server::Log;
use std::alloc::Global;

/// A link in memory: each receive returns the next of a list of packets, or none, and sent packets are stored.
#[derive(Drop)]
pub struct MemLink {
    alloc: Global,
    coming: Vec<Option<Vec<u8>>>,
    next: usize,
    delivered: Vec<Vec<u8>>,
    calls: u64,
    waits: u64,
    fails_at: u64,
    failures: u64,
    heard: Log<Sleep, Option<PacketLog>>,
    sent: Log<PacketLog, ()>,
}

impl MemLink {
    /// A link whose receives return these, and then nothing. Counted from 1 over receives and sends, the call of
    /// number `fails_at` fails: none if it is 0.
    pub fn new(alloc: Global, coming: Vec<Option<Vec<u8>>>, fails_at: u64) -> MemLink
        ensures heard { heard_of result.heard ≡ [] }
        ensures sent { sent_of result.sent ≡ [] }
        ensures failures { result.failures ≡ 0 }
    {
        MemLink {
            alloc,
            coming,
            next: 0,
            delivered: Vec::new(alloc),
            calls: 0,
            waits: 0,
            fails_at,
            failures: 0,
            heard: Log::new(),
            sent: Log::new(),
        }
    }

    /// The packets that were sent without a failure, in order.
    pub fn deliveries(&self) -> &[Vec<u8>]
        ensures { result.now ≡ self.now.delivered.items }
    {
        &self.delivered
    }

    /// The number of calls.
    pub fn calls(&self) -> u64
        ensures { result ≡ self.now.calls }
    {
        self.calls
    }

    /// The number of receives that wait.
    pub fn waits(&self) -> u64
        ensures { result ≡ self.now.waits }
    {
        self.waits
    }

    /// Counts a call, and returns whether it fails.
    fn count(&mut self) -> bool
        ensures { self.new ≡ record self.old { calls = self.new.calls } }
    {
        self.calls = self.calls.saturating_add(1);
        self.calls == self.fails_at
    }

    /// Counts a failed call.
    fn fail(&mut self) -> LinkFault
        ensures same { self.new ≡ record self.old { failures = self.new.failures } }
        ensures rise { FailuresRose self.old.failures self.new.failures }
    {
        self.failures = self.failures.saturating_add(1);
        LinkFault
    }

    /// Copies the next packet to the front of a buffer. A receive that fails loses it.
    fn give_next(&mut self, buffer: &mut [u8]) -> Result<Option<usize>, LinkFault>
        ensures bound { IfOk result (λ found. IfSome found (λ count. count ≤ length buffer.new)) }
        ensures heard { self.new.heard ≡ self.old.heard }
        ensures sent { self.new.sent ≡ self.old.sent }
        ensures rise { OnErr result (FailuresRose self.old.failures self.new.failures) }
        ensures no_failure { OnOk result (self.new.failures ≡ self.old.failures) }
    {
        let place = self.next;
        self.next = place.saturating_add(1);
        if self.count() {
            return Err(self.fail());
        }
        match self.coming.get(place) {
            Some(Some(packet)) => Ok(Some(copied(packet, buffer))),
            Some(None) | None => Ok(None),
        }
    }

    /// Records the packet of a receive, and how long it might wait.
    fn tell(&mut self, sleep: Sleep, found: Option<usize>, buffer: &[u8])
        requires { IfSome found (λ count. count ≤ length buffer.now) }
        ensures heard { heard_of self.new.heard
            ≡ heard_of self.old.heard ++ new_hearing sleep (packet_in found buffer.now) ∷ [] }
        ensures same { self.new ≡ record self.old { heard = self.new.heard } }
    {
        let packet = match found {
            Some(count) => Some(bytes_in(&buffer[..count])),
            None => None,
        };
        self.heard = self.heard.and(&sleep, &packet);
    }
}

impl Link for MemLink {
    ghost use Rattle.std.specs.Prelude.{Some};
    ghost use Rattle.rly_link.specs.Memory.{heard_of, sent_of};

    ghost heard = { λ l. Some (heard_of l.heard) };

    ghost sent = { λ l. Some (sent_of l.sent) };

    ghost failed = { λ l. l.failures };

    fn recv(&mut self, sleep: Sleep, buffer: &mut [u8]) -> Result<Option<usize>, LinkFault> {
        if sleep != Sleep::No {
            self.waits = self.waits.saturating_add(1);
        }
        let outcome = self.give_next(buffer);
        self.tell(sleep, outcome.ok().flatten(), buffer);
        outcome
    }

    fn send(&mut self, packet: &[u8]) -> Result<(), LinkFault> {
        self.sent = self.sent.and(&bytes_in(packet), &());
        if self.count() {
            return Err(self.fail());
        }
        let Ok(bytes) = packet.to_vec(self.alloc) else {
            return Err(self.fail());
        };
        match self.delivered.push(bytes) {
            Ok(()) => Ok(()),
            Err(_) => Err(self.fail()),
        }
    }

    fn failures(&self) -> u64 {
        self.failures
    }
}

/// Copies as much of a packet as fits to the front of a buffer, and returns the number of bytes copied.
fn copied(packet: &[u8], buffer: &mut [u8]) -> usize
    ensures { result ≤ length buffer.new }
{
    let count = packet.len().min(buffer.len());
    buffer[..count].copy_from_slice(&packet[..count]);
    count
}
