ghost use Rattle.std.specs.Prelude.{◌≡◌, ◌+◌, ◌<◌, ◌≤◌, ◌^◌, [], All, OnErr, OnOk, Some, drop, length, map, max, take};
ghost use Rattle.std.specs.Prelude.{vec_capacity};
ghost use Rattle.std.specs.VecDeque.{deque_capacity, deque_len};
ghost use Rattle.rly_machine.specs.Expiry.{is_expired};
ghost use Rattle.rly_machine.specs.State.{bytes_of};

use crate::content::Content;
use crate::growth::reserve_one;
use crate::lane::QueueLane;
use crate::queue::Queue;
use crate::reply::{HopStatus, Ids, Reply};
use crate::room::Room;
use crate::rules::Rules;
use rly_codel::{CodelState, dequeue_with};
use std::alloc::{AllocError, Global};
use std::collections::VecDeque;

/// A datagram in custody.
#[derive(Drop)]
pub struct Item<C> {
    /// The sequence number of the command that stored it.
    pub id: u64,
    /// Its arrival time, in microseconds of the hop's link clock.
    pub stamp: u64,
    /// The longest time that it may wait, in microseconds of the hop's link clock; 0 for no limit.
    pub limit: u64,
    /// Its payload.
    pub payload: C,
}

/// The state of a spool for one next hop.
#[derive(Drop)]
pub struct Hop<C: Content> {
    /// The waiting datagrams, in order of arrival.
    pub queue: Queue<C>,
    /// The datagrams in flight, in order; the first has the custody number `released + 1`.
    pub flight: VecDeque<Item<C>>,
    /// CoDel's state.
    pub codel: CodelState,
    /// The last time of the link clock, in microseconds.
    pub moment: u64,
    /// Number of datagrams ever taken.
    pub taken: u64,
    /// Number of datagrams that CoDel dropped.
    pub dropped: u64,
    /// Number of datagrams that had expired when a Pick came.
    pub expired: u64,
    /// Number of datagrams that the next hop took custody of.
    pub released: u64,
}

impl<C: Content> Hop<C> {
    ghost use Rattle.rly_machine.specs.Kept.{hop_state};
    ghost use Rattle.rly_machine.specs.Pick.{is_idle};
    ghost use Rattle.rly_machine.specs.State.{new_hop, next_number};
    ghost use Rattle.rly_machine.specs.Query.{status_of};
    ghost use Rattle.rly_machine.specs.Take.{with_taken};

    /// Makes a new, empty hop. Allocates nothing.
    pub(crate) fn new(alloc: Global) -> Hop<C>
        ensures { hop_state result ≡ new_hop }
    {
        Hop {
            queue: Queue::new(alloc),
            flight: VecDeque::new(alloc),
            codel: CodelState::NEW,
            moment: 0,
            taken: 0,
            dropped: 0,
            expired: 0,
            released: 0,
        }
    }

    /// Returns all counters of the hop.
    pub(crate) fn status(&self) -> HopStatus
        ensures { result ≡ status_of (hop_state self.now) }
    {
        HopStatus {
            taken: self.taken,
            queued: self.queue.len() as u64,
            flight: self.flight.len() as u64,
            dropped: self.dropped,
            expired: self.expired,
            released: self.released,
            codel: self.codel,
            moment: self.moment,
        }
    }

    /// Reserves room for one more datagram in the queue. If the allocation fails, the hop is unchanged.
    pub(crate) fn reserve_queue(&mut self) -> Result<(), AllocError>
        ensures hop { hop_state self.new ≡ hop_state self.old }
        ensures room { OnOk result (0 < self.new.queue.spare) }
        ensures bounded { self.new.queue.spare ≤ max self.old.queue.spare (max 4 (length self.old.queue.items)) }
        ensures memory { OnErr result (self.old.queue.spare ≡ 0) }
    {
        self.queue.reserve_one()
    }

    /// Reserves room for one more datagram in flight. If the allocation fails, the hop is unchanged.
    pub(crate) fn reserve_flight(&mut self) -> Result<(), AllocError>
        ensures hop { hop_state self.new ≡ hop_state self.old }
        ensures room { OnOk result (deque_len self.new.flight < deque_capacity self.new.flight) }
        ensures bounded { deque_capacity self.new.flight ≤ max (deque_capacity self.old.flight)
            (deque_len self.old.flight + max 4 (deque_len self.old.flight)) }
        ensures memory { OnErr result (deque_capacity self.old.flight ≤ deque_len self.old.flight) }
    {
        reserve_one(&mut self.flight)
    }

    /// Returns the custody number of the next datagram that goes into flight.
    pub(crate) fn next_number(&self) -> u64
        requires { self.now.released + length self.now.flight.items + 1 < 2 ^ 64 }
        ensures { result ≡ next_number (hop_state self.now) }
    {
        self.released + self.flight.len() as u64 + 1
    }

    /// Returns true iff a pick would change nothing.
    pub(crate) fn is_idle(&self) -> bool
        ensures { result ≡ is_idle (hop_state self.now) }
    {
        self.queue.is_empty() && self.codel.first_above_time == 0 && !self.codel.dropping
    }

    /// Puts a datagram at the back of the queue. Its stamp is at least the hop's last time.
    pub(crate) fn take(&mut self, id: u64, stamp: u64, limit: u64, payload: C)
        requires room { 0 < self.old.queue.spare }
        requires count { self.old.taken + 1 < 2 ^ 64 }
        ensures { hop_state self.new ≡ with_taken (hop_state self.old) id stamp limit payload }
    {
        let stamp = stamp.max(self.moment);
        self.moment = stamp;
        self.taken += 1;
        self.queue.push_back_reserved(Item {
            id,
            stamp,
            limit,
            payload,
        });
    }
}

impl<C: Content> Hop<C> {
    ghost use Rattle.rly_machine.specs.Kept.{hop_state};
    ghost use Rattle.rly_machine.specs.Accepted.{max_seq};
    ghost use Rattle.rly_machine.specs.Expiry.{expired_count, with_expired};
    ghost use Rattle.rly_machine.specs.Pick.{after_pick, outcome_of, pick_outcome, pick_reply, picked_reply, with_sent};
    ghost use Rattle.rly_machine.specs.Sound.{IsSoundHop};
    ghost use Rattle.rly_machine.specs.Release.{with_released};
    ghost use Rattle.rly_machine.specs.Relocate.{carried_at, with_relocated};
    ghost use Rattle.rly_core.specs.Limits.{IsWithinLimits};
    ghost use Rattle.rly_machine.specs.State.{live_line};

    /// Returns the number of datagrams in flight and waiting.
    pub fn live_items(&self) -> u64
        requires { length (live_line (hop_state self.now)) < 2 ^ 64 }
        ensures { result ≡ length (live_line (hop_state self.now)) }
    {
        self.flight.len() as u64 + self.queue.len() as u64
    }

    /// Returns the number of payload bytes in flight and waiting.
    pub fn live_bytes(&self) -> u64
        requires { bytes_of C.length_of (live_line (hop_state self.now)) < 2 ^ 64 }
        ensures { result ≡ bytes_of C.length_of (live_line (hop_state self.now)) }
    {
        payload_bytes(&self.flight) + self.queue.bytes()
    }

    /// Replaces the content of a live datagram by other content of the same length. The index counts those in flight
    /// first.
    pub(crate) fn relocate(&mut self, index: usize, content: C)
        requires { carried_at C.length_of (live_line (hop_state self.old)) index ≡ Some (C.length_of content) }
        ensures { hop_state self.new ≡ with_relocated (hop_state self.old) index content }
    {
        let in_flight = self.flight.len();
        if index < in_flight {
            self.flight[index].payload = content;
        } else {
            self.queue.relocate(index - in_flight, content);
        }
    }

    /// Removes the first `count` in flight, and returns their number of payload bytes.
    pub(crate) fn release(&mut self, count: usize) -> u64
        requires flight { count ≤ length self.old.flight.items }
        requires bytes { bytes_of C.length_of self.old.flight.items < 2 ^ 64 }
        requires count_fits { self.old.released + count < 2 ^ 64 }
        ensures hop { hop_state self.new ≡ with_released (hop_state self.old) count }
        ensures bytes { result + bytes_of C.length_of self.new.flight.items
            ≡ bytes_of C.length_of self.old.flight.items }
    {
        let mut bytes = 0;
        for _item in 0..count {
            if let Some(item) = self.flight.pop_front() {
                bytes += item.payload.len() as u64;
            }
        }
        self.released += count as u64;
        bytes
    }

    /// Picks at `now`, or at the hop's last time if that is later: expired datagrams are removed, CoDel drops some of
    /// the rest, and the next one goes into flight. Returns the reply, and the number of datagrams and payload bytes
    /// that expired or were dropped.
    pub(crate) fn pick(&mut self, now: u64, rules: &Rules, room: Room) -> (Reply, Gone)
        requires params { IsWithinLimits rules.now }
        requires moment { now < 2 ^ 52 }
        requires sound { IsSoundHop C.length_of rules.now max_seq (hop_state self.old) }
        requires bytes { bytes_of C.length_of self.old.queue.items < 2 ^ 64 }
        requires flight { deque_len self.old.flight < deque_capacity self.old.flight }
        requires room { (expired_count (hop_state self.old) now ≤ room.expired)
            × ((pick_outcome C.length_of rules.now (hop_state self.old) now).dropped ≤ room.dropped) }
        ensures hop { hop_state self.new ≡ after_pick C.length_of rules.now (hop_state self.old) now }
        ensures reply { result.0 ≡ pick_reply (hop_state self.old) (expired_count (hop_state self.old) now)
            (pick_outcome C.length_of rules.now (hop_state self.old) now).dropped }
        ensures items { result.1.items ≡ expired_count (hop_state self.old) now
            + (pick_outcome C.length_of rules.now (hop_state self.old) now).dropped }
        ensures bytes { result.1.bytes ≡ bytes_of C.length_of (take (expired_count (hop_state self.old) now
            + (pick_outcome C.length_of rules.now (hop_state self.old) now).dropped) self.old.queue.items) }
    {
        let number = self.next_number();
        let late = self.expired_count(now);
        let (codel, drops) = self.decide(now, late, rules);
        self.codel = codel;
        self.moment = now.max(self.moment);
        let (mut expired, mut dropped) = room.into_lists();
        let first = self.take_front(late, &mut expired);
        self.expired += first.items;
        let second = self.take_front(drops, &mut dropped);
        self.dropped += second.items;
        (self.send(number, expired, dropped), first.and(second))
    }

    /// Returns the number of datagrams at the front of the queue that have expired at `now`, or at the hop's last time
    /// if that is later.
    pub(crate) fn expired_count(&self, now: u64) -> usize
        requires sound { All (λ item. item.stamp ≤ self.now.moment) self.now.queue.items }
        ensures count { result ≡ expired_count (hop_state self.now) now }
        ensures within { result ≤ length self.now.queue.items }
    {
        let moment = now.max(self.moment);
        for index in 0..self.queue.len() {
            if !is_expired(self.queue.item(index), moment) {
                return index;
            }
        }
        self.queue.len()
    }

    /// Returns CoDel's decision at `now`, or at the hop's last time if that is later, for the queue without its first
    /// `from` datagrams: the new state, and the number of drops. Changes nothing.
    pub(crate) fn decide(&self, now: u64, from: usize, rules: &Rules) -> (CodelState, usize)
        requires params { IsWithinLimits rules.now }
        requires moment { now < 2 ^ 52 }
        requires sound { IsSoundHop C.length_of rules.now max_seq (hop_state self.now) }
        requires bytes { bytes_of C.length_of self.now.queue.items < 2 ^ 64 }
        requires from { from ≤ length self.now.queue.items }
        ensures state { result.0
            ≡ (outcome_of C.length_of rules.now (with_expired (hop_state self.now) from) now).state }
        ensures dropped { result.1
            ≡ (outcome_of C.length_of rules.now (with_expired (hop_state self.now) from) now).dropped }
        ensures within { result.1 ≤ length (drop from self.now.queue.items) }
    {
        let now = now.max(self.moment);
        let mut codel = self.codel;
        let lane = QueueLane::new(&self.queue, from);
        let verdict = dequeue_with(&mut codel, &lane, now, &rules.params(), rules.steps());
        (codel, verdict.dropped)
    }

    /// Removes the first `count` from the queue, and lists their ids.
    fn take_front(&mut self, count: usize, ids: &mut Vec<u64>) -> Gone
        requires count { count ≤ length self.old.queue.items }
        requires bytes { bytes_of C.length_of self.old.queue.items < 2 ^ 64 }
        requires no_ids { ids.old.items ≡ [] }
        requires room { count ≤ vec_capacity ids.old }
        ensures hop { hop_state self.new ≡ record (hop_state self.old) { queue = drop count self.old.queue.items } }
        ensures capacity { deque_capacity self.new.flight ≡ deque_capacity self.old.flight }
        ensures ids { ids.new.items ≡ map (λ item. item.id) (take count self.old.queue.items) }
        ensures items { result.items ≡ count }
        ensures bytes { result.bytes ≡ bytes_of C.length_of (take count self.old.queue.items) }
    {
        let mut bytes = 0;
        for _item in 0..count {
            if let Some(item) = self.queue.pop_front() {
                ids.push_reserved(item.id);
                bytes += item.payload.len() as u64;
            }
        }
        Gone {
            items: count as u64,
            bytes,
        }
    }

    /// Moves the first of the queue, if there is one, into flight under a number.
    fn send(&mut self, number: u64, expired: Vec<u64>, dropped: Vec<u64>) -> Reply
        requires { deque_len self.old.flight < deque_capacity self.old.flight }
        ensures hop { hop_state self.new ≡ with_sent (hop_state self.old) }
        ensures reply { result ≡ picked_reply number expired.items dropped.items self.old.queue.items }
    {
        let Some(item) = self.queue.pop_front() else {
            return Reply::Nothing {
                expired: Ids::new(expired),
            };
        };
        let id = item.id;
        self.flight.push_back_reserved(item);
        Reply::Picked {
            number,
            id,
            expired: Ids::new(expired),
            dropped: Ids::new(dropped),
        }
    }
}

/// Returns true iff a datagram has expired at a time that is not before its arrival.
fn is_expired<C>(item: &Item<C>, now: u64) -> bool
    requires { item.now.stamp ≤ now }
    ensures { result ≡ is_expired now item.now }
{
    item.limit > 0 && now - item.stamp > item.limit
}

/// Returns the number of payload bytes of items.
fn payload_bytes<C: Content>(items: &VecDeque<Item<C>>) -> u64
    requires { bytes_of C.length_of items.now.items < 2 ^ 64 }
    ensures { result ≡ bytes_of C.length_of items.now.items }
{
    let count = items.len();
    let mut bytes = 0;
    for index in 0..count {
        bytes += items[index].payload.len() as u64;
    }
    bytes
}

/// The datagrams that left a queue at one pick without being sent.
#[derive(Clone, Copy, PartialEq, Eq)]
pub(crate) struct Gone {
    pub(crate) items: u64,
    pub(crate) bytes: u64,
}

impl Gone {
    /// Adds both.
    fn and(self, other: Gone) -> Gone
        requires items { self.items + other.items < 2 ^ 64 }
        requires bytes { self.bytes + other.bytes < 2 ^ 64 }
        ensures { (result.items ≡ self.items + other.items) × (result.bytes ≡ self.bytes + other.bytes) }
    {
        Gone {
            items: self.items + other.items,
            bytes: self.bytes + other.bytes,
        }
    }
}

impl<C: Content> Hop<C> {
    ghost use Rattle.std.specs.Prelude.{IfOk, replicate};
    ghost use Rattle.rly_machine.specs.Kept.{hop_state};
    ghost use Rattle.rly_machine.specs.State.{new_hop};

    /// Makes `count` new, empty hops.
    pub(crate) fn many(alloc: Global, count: u64) -> Result<Vec<Hop<C>>, AllocError>
        ensures { IfOk result (λ hops. map hop_state hops.items ≡ replicate count new_hop) }
    {
        let mut hops = Vec::with_capacity(alloc, count as usize)?;
        for _hop in 0..count {
            hops.push_reserved(Hop::new(alloc));
        }
        Ok(hops)
    }
}
