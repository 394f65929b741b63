ghost use Rattle.std.specs.Prelude.{◌≡◌, ◌+◌, ◌-◌, ◌<◌, ◌≤◌, Err, IfErr, IfOk, IsOk, IsTrue, MatchOption, Ok, OnErr};
ghost use Rattle.std.specs.Prelude.{OnOk, Some, false, length, map, slice_get, slice_index};
ghost use Rattle.std.specs.Option.{SomeIff};
ghost use Rattle.rly_core.specs.Limits.{IsWithinLimits};
ghost use Rattle.rly_machine.specs.HelpersMachine.{IsHopAt};
ghost use Rattle.rly_machine.specs.Kept.{hop_state};
ghost use Rattle.rly_machine.specs.Sound.{IsSound};
ghost use Rattle.rly_machine.specs.State.{has_hop, has_peer, hop_at, last_at, live_bytes, live_items, live_line};
ghost use Rattle.rly_machine.specs.State.{new_state};
ghost use Rattle.rly_machine.specs.Step.{HasRoom, NeedsRoom, drops_of, expires_of, listed_count, step};
ghost use Rattle.rly_machine.specs.Query.{item_of, show_reply, window_reply};
ghost use Rattle.rly_machine.specs.Take.{take_refusal, take_step};
ghost use Rattle.rly_machine.specs.Pick.{pick_refusal, pick_step};
ghost use Rattle.rly_machine.specs.Release.{covered_count, release_refusal, release_step};
ghost use Rattle.rly_machine.specs.Relocate.{carried_at, state_with_relocated};

use crate::command::{Ask, Command, Query};
use crate::content::{Content, Payload};
use crate::hop::{Hop, Item};
use crate::live::Live;
use crate::reply::Reply;
use crate::room::Room;
use crate::rules::Rules;
use rly_core::{HopId, Params, PeerId, Refusal, limits};
use std::alloc::{AllocError, Global};
use std::marker::Model;

/// A spool in memory, over payloads of type `C`. In contracts it is its state and the spare capacity of each queue and
/// flight.
#[derive(Drop)]
pub struct Machine<C: Content> {
    rules: Rules,
    hops: Vec<Hop<C>>,
    lasts: Vec<u64>,
    seq: u64,
    live_items: u64,
    live_bytes: u64,
}

impl<C: Content> Model for Machine<C> {
    ghost use Rattle.rly_machine.specs.HelpersMachine.{KeepsCounts};
    ghost use Rattle.rly_machine.specs.Kept.{flight_spare_of, queue_spare_of, state_of};
    ghost use Rattle.rly_machine.specs.State.{Spool};

    ghost Value = { Spool C };

    ghost view = { λ m.
        record {
          state = state_of m.rules m.hops m.lasts m.seq;
          queue_spare = queue_spare_of m.hops;
          flight_spare = flight_spare_of m.hops;
        } };

    ghost invariant = { λ m. KeepsCounts C.length_of
        (state_of m.rules m.hops m.lasts m.seq) m.live_items m.live_bytes };
}

impl<C: Content> Machine<C> {
    ghost use Rattle.rly_machine.specs.Kept.{state_of};

    /// Makes a new, empty spool.
    pub fn new(alloc: Global, params: Params) -> Result<Machine<C>, AllocError>
        requires { IsWithinLimits params }
        ensures { IfOk result (λ machine. machine.state ≡ new_state params) }
    {
        let hops = Hop::many(alloc, params.hops)?;
        let lasts = vec![in alloc; 0u64; params.peers as usize]?;
        Ok(Machine {
            rules: Rules::new(params),
            hops,
            lasts,
            seq: 0,
            live_items: 0,
            live_bytes: 0,
        })
    }

    /// Makes a spool of a state that was loaded from elsewhere, and counts its live datagrams and bytes. Allocates
    /// nothing, so it is always `Ok`.
    pub fn restore(
        params: Params,
        seq: u64,
        lasts: Vec<u64>,
        hops: Vec<Hop<C>>,
    ) -> Result<Machine<C>, AllocError>
        requires { IsSound C.length_of (state_of params hops lasts seq) }
        ensures succeeds { IsOk result }
        ensures state { IfOk result (λ machine. machine.state ≡ state_of params hops lasts seq) }
    {
        let live = Live::of(&hops);
        Ok(Machine {
            rules: Rules::new(params),
            hops,
            lasts,
            seq,
            live_items: live.items,
            live_bytes: live.bytes,
        })
    }

    /// The invariant of every machine's state, as a law.
    pub fn law_sound(&self)
        ensures { IsSound C.length_of self.now.state }
    {
        let _ = &self.rules;
    }

    /// Returns the spool's parameters.
    pub fn params(&self) -> Params
        ensures { result ≡ self.now.state.params }
    {
        self.rules.params()
    }

    /// Returns the number of accepted commands.
    pub fn seq(&self) -> u64
        ensures { result ≡ self.now.state.seq }
    {
        self.seq
    }

    /// Returns the number of live datagrams.
    pub fn item_count(&self) -> u64
        ensures { result ≡ live_items self.now.state }
    {
        self.live_items
    }

    /// Returns the number of live payload bytes.
    pub fn byte_count(&self) -> u64
        ensures { result ≡ live_bytes C.length_of self.now.state }
    {
        self.live_bytes
    }

    /// Returns the last number taken from each peer, in the order of the peers' numbers.
    pub fn lasts(&self) -> &[u64]
        ensures { result.now ≡ self.now.state.lasts }
    {
        self.lasts.as_slice()
    }

    /// Returns the hops with their datagrams, in the order of their numbers.
    pub fn hops(&self) -> &[Hop<C>]
        ensures { map hop_state result.now ≡ self.now.state.hops }
    {
        self.hops.as_slice()
    }

    /// Returns the last number taken from a peer.
    pub fn last(&self, peer: PeerId) -> u64
        requires { IsTrue (has_peer self.now.state peer) }
        ensures { result ≡ last_at self.now.state peer }
    {
        let place = peer.0 as usize - 1;
        self.lasts[place]
    }

    /// Returns a waiting item of a hop; index 0 is the front of its queue.
    pub fn queued(&self, hop: HopId, index: usize) -> &Item<C>
        requires there { IsTrue (has_hop self.now.state hop) }
        requires waits { index < length (hop_at self.now.state hop).queue }
        ensures { slice_get (hop_at self.now.state hop).queue index ≡ Some result.now }
    {
        self.hops[hop.0 as usize - 1].queue.item(index)
    }

    /// Replaces the content of a live item of a hop by other content of the same length, for example after its payload
    /// moved to another device address. The index counts the items in flight first, from 0, then those that wait.
    /// Allocates nothing.
    pub fn relocate(&mut self, hop: HopId, index: usize, content: C)
        requires there { IsTrue (has_hop self.old.state hop) }
        requires live { carried_at C.length_of (live_line (hop_at self.old.state hop)) index
            ≡ Some (C.length_of content) }
        ensures { self.new.state ≡ state_with_relocated self.old.state hop index content }
    {
        self.hops[hop.0 as usize - 1].relocate(index, content);
    }

    /// Allocates the memory that a command may need. If that fails, the state is unchanged.
    pub fn reserve_for(&mut self, alloc: Global, command: &Command<C>) -> Result<Room, AllocError>
        ensures state { self.new.state ≡ self.old.state }
        ensures room { IfOk result (λ room. HasRoom C.length_of self.new room command.now) }
        ensures bounded { IfOk result
            (λ room. room.expired + room.dropped ≤ listed_count C.length_of self.old.state command.now) }
        ensures memory { OnErr result (NeedsRoom C.length_of self.old command.now) }
    {
        match command {
            Command::Take {
                peer,
                number,
                hop,
                stamp,
                limit,
                payload,
            } => {
                let refusal = self.take_refusal(
                    *peer,
                    *number,
                    *hop,
                    *stamp,
                    *limit,
                    payload.len(),
                );
                if refusal.is_some() {
                    return Ok(Room::none(alloc));
                }
                self.reserve_take(*hop)?;
                Ok(Room::none(alloc))
            }
            Command::Pick { hop, now } => {
                if self.pick_refusal(*hop, *now).is_some() {
                    return Ok(Room::none(alloc));
                }
                let (expired, dropped) = self.reserve_pick(*hop, *now)?;
                Room::new(alloc, expired, dropped)
            }
            Command::Release { .. } => Ok(Room::none(alloc)),
        }
    }

    /// Applies a command. Allocates nothing.
    pub fn apply(&mut self, command: Command<C>, room: Room) -> Reply
        requires room { HasRoom C.length_of self.old room command }
        ensures state { self.new.state ≡ (step C.length_of self.old.state command).0 }
        ensures reply { result ≡ (step C.length_of self.old.state command).1 }
    {
        match command {
            Command::Take {
                peer,
                number,
                hop,
                stamp,
                limit,
                payload,
            } => self.take(peer, number, hop, stamp, limit, payload),
            Command::Pick { hop, now } => self.pick(hop, now, room),
            Command::Release { hop, number } => self.release(hop, number),
        }
    }

    /// Returns the item in flight under a custody number, or the refusal. Allocates nothing.
    pub fn item(&self, hop: HopId, number: u64) -> Result<&Item<C>, Refusal>
        ensures ok { IfOk result (λ item. item_of self.now.state hop number ≡ Ok item.now) }
        ensures err { IfErr result (λ refusal. item_of self.now.state hop number ≡ Err refusal) }
    {
        let Some(hop) = self.hop(hop) else {
            return Err(Refusal::NoSuchHop);
        };
        if number >= hop.next_number() {
            return Err(Refusal::NeverSent);
        }
        if number <= hop.released {
            return Err(Refusal::NotInFlight);
        }
        Ok(&hop.flight[(number - hop.released - 1) as usize])
    }

    /// Returns the custody numbers in flight, or that the hop doesn't exist. Allocates nothing.
    pub fn ask_window(&self, hop: HopId) -> Reply
        ensures { result ≡ window_reply self.now.state hop }
    {
        match self.hop(hop) {
            Some(hop) => {
                let next = hop.next_number();
                Reply::WindowIs {
                    first: hop.released + 1,
                    next,
                }
            }
            None => Reply::Refused(Refusal::NoSuchHop),
        }
    }

    /// Returns all counters of a hop, or that the hop doesn't exist. Allocates nothing.
    pub fn ask_show(&self, hop: HopId) -> Reply
        ensures { result ≡ show_reply self.now.state hop }
    {
        match self.hop(hop) {
            Some(hop) => Reply::Shown(hop.status()),
            None => Reply::Refused(Refusal::NoSuchHop),
        }
    }

    /// Returns a hop, if it exists.
    fn hop(&self, hop: HopId) -> Option<&Hop<C>>
        ensures { MatchOption result (has_hop self.now.state hop ≡ false)
            (λ found. IsHopAt C.length_of self.now.state hop found.now) }
    {
        let index = self.hop_index(hop)?;
        Some(&self.hops[index])
    }

    /// Returns the index of a hop, if it exists.
    fn hop_index(&self, hop: HopId) -> Option<usize>
        ensures { SomeIff result (IsTrue (has_hop self.now.state hop)) (hop.0 - 1) }
    {
        let index = (hop.0 as usize).checked_sub(1)?;
        (index < self.hops.len()).then_some(index)
    }

    /// Returns the index of a peer, if it exists.
    fn peer_index(&self, peer: PeerId) -> Option<usize>
        ensures { SomeIff result (IsTrue (has_peer self.now.state peer)) (peer.0 - 1) }
    {
        let index = (peer.0 as usize).checked_sub(1)?;
        (index < self.lasts.len()).then_some(index)
    }

    /// Reserves room for a Take at a hop.
    fn reserve_take(&mut self, hop: HopId) -> Result<(), AllocError>
        requires { IsTrue (has_hop self.old.state hop) }
        ensures state { self.new.state ≡ self.old.state }
        ensures room { OnOk result (0 < slice_index self.new.queue_spare (hop.0 - 1)) }
        ensures memory { OnErr result (slice_index self.old.queue_spare (hop.0 - 1) ≡ 0) }
    {
        self.hops[hop.0 as usize - 1].reserve_queue()
    }

    /// Reserves room in flight for a Pick that passes all checks, and returns the number of datagrams that it will
    /// expire, and the number that it will drop after those.
    fn reserve_pick(&mut self, hop: HopId, now: u64) -> Result<(usize, usize), AllocError>
        requires { pick_refusal self.old.state hop now ≡ None }
        ensures state { self.new.state ≡ self.old.state }
        ensures room { OnOk result (0 < slice_index self.new.flight_spare (hop.0 - 1)) }
        ensures expired { IfOk result (λ counts. counts.0 ≡ expires_of self.old.state hop now) }
        ensures drops { IfOk result (λ counts. counts.1 ≡ drops_of C.length_of self.old.state hop now) }
        ensures memory { OnErr result (slice_index self.old.flight_spare (hop.0 - 1) ≡ 0) }
    {
        let hop = &mut self.hops[hop.0 as usize - 1];
        let late = hop.expired_count(now);
        let (_, drops) = hop.decide(now, late, &self.rules);
        hop.reserve_flight()?;
        Ok((late, drops))
    }

    /// Takes a datagram.
    fn take(
        &mut self,
        peer: PeerId,
        number: u64,
        hop: HopId,
        stamp: u64,
        limit: u64,
        payload: C,
    ) -> Reply
        requires { take_refusal C.length_of self.old.state peer number hop stamp limit (C.length_of payload) ≡ None
            → 0 < slice_index self.old.queue_spare (hop.0 - 1) }
        ensures state { self.new.state ≡ (take_step C.length_of self.old.state peer number hop stamp limit payload).0 }
        ensures reply { result ≡ (take_step C.length_of self.old.state peer number hop stamp limit payload).1 }
    {
        if let Some(reply) = self.take_refusal(peer, number, hop, stamp, limit, payload.len()) {
            return reply;
        }
        self.accept_take(peer, number, hop, stamp, limit, payload)
    }

    /// Returns the first failed check of a Take.
    fn take_refusal(
        &self,
        peer: PeerId,
        number: u64,
        hop: HopId,
        stamp: u64,
        limit: u64,
        length: usize,
    ) -> Option<Reply>
        ensures { result ≡ take_refusal C.length_of self.now.state peer number hop stamp limit length }
    {
        let Some(from) = self.peer_index(peer) else {
            return Some(Reply::Refused(Refusal::NoSuchPeer));
        };
        if self.hop_index(hop).is_none() {
            return Some(Reply::Refused(Refusal::NoSuchHop));
        }
        if stamp >= limits::MOMENT_LIMIT {
            return Some(Reply::Refused(Refusal::BadMoment));
        }
        if limit >= limits::AGE_LIMIT {
            return Some(Reply::Refused(Refusal::BadMoment));
        }
        let length = length as u64;
        if length > self.rules.params().payload {
            return Some(Reply::Refused(Refusal::TooLong));
        }
        let last = self.lasts[from];
        if number <= last {
            return Some(Reply::Already(last));
        }
        if number > last + 1 {
            return Some(Reply::Refused(Refusal::Gap(last + 1)));
        }
        let params = self.rules.params();
        if self.live_items >= params.items || self.live_bytes + length > params.bytes {
            return Some(Reply::Refused(Refusal::Full));
        }
        if self.seq >= limits::MAX_SEQ {
            return Some(Reply::Refused(Refusal::Spent));
        }
        None
    }

    /// Takes a datagram after all checks passed.
    fn accept_take(
        &mut self,
        peer: PeerId,
        number: u64,
        hop: HopId,
        stamp: u64,
        limit: u64,
        payload: C,
    ) -> Reply
        requires room { 0 < slice_index self.old.queue_spare (hop.0 - 1) }
        requires accepted { take_refusal C.length_of self.old.state peer number hop stamp limit (C.length_of payload)
            ≡ None }
        ensures state { self.new.state ≡ (take_step C.length_of self.old.state peer number hop stamp limit payload).0 }
        ensures reply { result ≡ Reply.Taken (self.old.state.seq + 1) }
    {
        let id = self.seq + 1;
        self.seq = id;
        self.live_items += 1;
        self.live_bytes += payload.len() as u64;
        self.lasts[peer.0 as usize - 1] = number;
        self.hops[hop.0 as usize - 1].take(id, stamp, limit, payload);
        Reply::Taken(id)
    }

    /// Releases the datagrams in flight up to a number.
    fn release(&mut self, hop: HopId, number: u64) -> Reply
        ensures state { self.new.state ≡ (release_step self.old.state hop number).0 }
        ensures reply { result ≡ (release_step self.old.state hop number).1 }
    {
        if let Some(reply) = self.release_refusal(hop, number) {
            return reply;
        }
        self.accept_release(hop, number)
    }

    /// Returns the first failed check of a Release.
    fn release_refusal(&self, hop: HopId, number: u64) -> Option<Reply>
        ensures { result ≡ release_refusal self.now.state hop number }
    {
        let Some(hop) = self.hop(hop) else {
            return Some(Reply::Refused(Refusal::NoSuchHop));
        };
        if number >= hop.next_number() {
            return Some(Reply::Refused(Refusal::NeverSent));
        }
        if number <= hop.released {
            return Some(Reply::Unchanged);
        }
        if self.seq >= limits::MAX_SEQ {
            return Some(Reply::Refused(Refusal::Spent));
        }
        None
    }

    /// Releases after all checks passed.
    fn accept_release(&mut self, hop: HopId, number: u64) -> Reply
        requires { release_refusal self.old.state hop number ≡ None }
        ensures state { self.new.state ≡ (release_step self.old.state hop number).0 }
        ensures reply { result ≡ Reply.Released (covered_count (hop_at self.old.state hop) number) }
    {
        let hop = &mut self.hops[hop.0 as usize - 1];
        let count = number - hop.released;
        let bytes = hop.release(count as usize);
        self.seq += 1;
        self.live_items -= count;
        self.live_bytes -= bytes;
        Reply::Released(count)
    }

    /// Picks from a queue.
    fn pick(&mut self, hop: HopId, now: u64, room: Room) -> Reply
        requires { pick_refusal self.old.state hop now ≡ None
            → (0 < slice_index self.old.flight_spare (hop.0 - 1)) × (expires_of self.old.state hop now ≤ room.expired)
            × (drops_of C.length_of self.old.state hop now ≤ room.dropped) }
        ensures state { self.new.state ≡ (pick_step C.length_of self.old.state hop now).0 }
        ensures reply { result ≡ (pick_step C.length_of self.old.state hop now).1 }
    {
        if let Some(reply) = self.pick_refusal(hop, now) {
            return reply;
        }
        self.accept_pick(hop, now, room)
    }

    /// Returns the first failed check of a Pick.
    fn pick_refusal(&self, hop: HopId, now: u64) -> Option<Reply>
        ensures { result ≡ pick_refusal self.now.state hop now }
    {
        let Some(hop) = self.hop(hop) else {
            return Some(Reply::Refused(Refusal::NoSuchHop));
        };
        if now >= limits::MOMENT_LIMIT {
            return Some(Reply::Refused(Refusal::BadMoment));
        }
        if hop.flight.len() as u64 >= self.rules.params().window {
            return Some(Reply::Refused(Refusal::WindowFull));
        }
        if hop.is_idle() {
            return Some(Reply::Refused(Refusal::Empty));
        }
        if self.seq >= limits::MAX_SEQ {
            return Some(Reply::Refused(Refusal::Spent));
        }
        None
    }

    /// Picks after all checks passed.
    fn accept_pick(&mut self, hop: HopId, now: u64, room: Room) -> Reply
        requires accepted { pick_refusal self.old.state hop now ≡ None }
        requires room { (0 < slice_index self.old.flight_spare (hop.0 - 1))
            × (expires_of self.old.state hop now ≤ room.expired)
            × (drops_of C.length_of self.old.state hop now ≤ room.dropped) }
        ensures state { self.new.state ≡ (pick_step C.length_of self.old.state hop now).0 }
        ensures reply { result ≡ (pick_step C.length_of self.old.state hop now).1 }
    {
        let hop = &mut self.hops[hop.0 as usize - 1];
        let (reply, gone) = hop.pick(now, &self.rules, room);
        self.seq += 1;
        self.live_items -= gone.items;
        self.live_bytes -= gone.bytes;
        reply
    }
}
