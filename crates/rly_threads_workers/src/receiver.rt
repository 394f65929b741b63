ghost use Rattle.std.specs.Prelude.{◌≡◌, ◌<◌, ◌⊎◌, ◌↔◌, [], Bool, IfErr, IsTrue, List, OnOk, length, vec_capacity};
ghost use Rattle.std.specs.List.{zip};
ghost use Rattle.std.specs.Option.{option_map};
ghost use Rattle.rly_hop.specs.Payloads.{in_action_bytes, in_event_bytes, message_bytes};
ghost use Rattle.rly_hop.specs.Receiving.{receiver, receiving_step};
ghost use Rattle.rly_link.specs.declared.turn.Go.{Go as AGo};
ghost use Rattle.rly_link.specs.LinkHistory.{TellsMore};
ghost use Rattle.rly_threads_workers.specs.HelpersTurns.{AreWaiting, Did, HasAnswered, HasGathered, HasMore};
ghost use Rattle.rly_threads_workers.specs.HelpersTurns.{HasTakeRoom, HasNoTake, greater};
ghost use Rattle.rly_threads_workers.specs.ReceiverTurns.{Arrival, Arrivals, answer_in, custody_in, datagram_in};
ghost use Rattle.rly_threads_workers.specs.ReceiverTurns.{hop_of_payload, receiver_worker, receiver_done};
ghost use Rattle.rly_threads_workers.specs.ReceiverTurns.{receiver_event, is_taken, refusal_packets, take_ask};
ghost use Rattle.rly_threads_workers.specs.ReceiverTurns.{wanted_by};
ghost use Rattle.rly_threads_workers.specs.WorkerRuns.{HasReceived};
ghost use Rattle.rly_threads_workers.specs.Turns.{woken_if};

use crate::desk::Desk;
use crate::ends::{Buffer, Ends, message_in, sleep_at};
use rly_core::{HopId, PeerId, limits};
use rly_hop::{InAction, InEvent, Message, Receiving, StationId, TakeAnswer};
use rly_link::{Link, MAX_PACKET, Point, Sleep, Turn, Waker, Worker};
use rly_machine::{Answer, Ask, Command, Payload, Reply};
use rly_plan::Plan;
use std::alloc::{AllocError, Global};
use std::marker::Model;
use std::sync::Wait;

/// Maximum number of packets that a receiving worker takes per turn.
const MAX_PACKETS: usize = limits::MAX_ROUND as usize;

/// Receives from a peer of the plan, turn by turn, until it is stopped. Returns at once if the peer isn't in the
/// plan. If memory for the lists of 64 Takes is refused at its start, it takes one packet per turn.
pub fn receiver_run<R: Wait, L: Link, K: Desk, T: Turn, W: Waker>(
    rt: &R,
    alloc: Global,
    plan: &Plan,
    peer: PeerId,
    ends: &mut Ends<L, K, T, W>,
)
    // Its asks and sent packets are exactly those that its cores request on its inputs, in order.
    ensures turns { HasReceived plan.now peer ends.old ends.new }
{
    let Some(neighbour) = plan.peer(peer) else {
        return;
    };
    let intake = ReceiverWorker {
        plan,
        peer,
        own: StationId(plan.station()),
        station: StationId(neighbour.station),
    };
    let mut takes = Takes::reserve(alloc);
    let mut buffer = [0; MAX_PACKET];
    for _turn in rt.forever() {
        let go = ends.between(rt, Worker::Receiver(peer), Point::Start);
        if !go.on {
            return;
        }
        intake.turn(rt, alloc, &mut buffer, &mut takes, ends);
    }
}

/// A core whose Take is pending, and the hop of that datagram.
type WaitingCore = (Receiving, HopId);

/// The Takes of a turn, in order, which are submitted together. Between turns there are none.
#[derive(Drop)]
struct Takes {
    /// Maximum number of packets per turn: 64, or 1 if memory for the lists was refused.
    most: usize,
    asks: Vec<Ask>,
    waiting: Vec<WaitingCore>,
    answers: Vec<Answer>,
}

impl Takes {
    /// Room for 64 Takes if memory permits, or else for none.
    fn reserve(alloc: Global) -> Takes
        ensures most { (result.most ≡ 64) ⊎ (result.most ≡ 1) }
        ensures ready { HasNoTake result }
    {
        let asks = Vec::with_capacity(alloc, MAX_PACKETS);
        let waiting = Vec::with_capacity(alloc, MAX_PACKETS);
        let answers = Vec::with_capacity(alloc, MAX_PACKETS);
        match (asks, waiting, answers) {
            (Ok(asks), Ok(waiting), Ok(answers)) => Takes {
                most: MAX_PACKETS,
                asks,
                waiting,
                answers,
            },
            _ => Takes {
                most: 1,
                asks: Vec::new(alloc),
                waiting: Vec::new(alloc),
                answers: Vec::new(alloc),
            },
        }
    }

    /// Makes room for one more Take. Takes no memory if there is room for 64.
    fn make_room(&mut self) -> Result<(), AllocError>
        requires waiting { AreWaiting self.old }
        requires fewer { length self.old.asks.items < self.old.most }
        ensures waiting { AreWaiting self.new }
        ensures most { self.new.most ≡ self.old.most }
        ensures asks { self.new.asks.items ≡ self.old.asks.items }
        ensures waits { self.new.waiting.items ≡ self.old.waiting.items }
        ensures ok { OnOk result ((length self.new.asks.items < vec_capacity self.new.asks)
            × (length self.new.asks.items < vec_capacity self.new.waiting)
            × (length self.new.asks.items < vec_capacity self.new.answers)) }
        ensures err { IfErr result (λ _. self.old.most ≡ 1) }
    {
        if self.most == MAX_PACKETS {
            return Ok(());
        }
        self.asks.reserve(1)?;
        self.waiting.reserve(1)?;
        self.answers.reserve(self.asks.len().saturating_add(1))
    }
}

/// The identity and the routes of a receiving worker.
#[derive(Drop)]
struct ReceiverWorker<'a> {
    plan: &'a Plan,
    peer: PeerId,
    own: StationId,
    station: StationId,
}

impl<'a> ReceiverWorker<'a> {
    /// One turn, after its start: it submits the Takes of its first half together, if there are any, and passes their
    /// answers to its second half.
    fn turn<R: Wait, L: Link, K: Desk, T: Turn, W: Waker>(
        &self,
        rt: &R,
        alloc: Global,
        buffer: &mut Buffer,
        takes: &mut Takes,
        ends: &mut Ends<L, K, T, W>,
    )
        requires ready { HasNoTake takes.old }
        ensures ready { HasNoTake takes.new }
        ensures most { takes.new.most ≡ takes.old.most }
        ensures done { (given : Arrivals) × Did ends.old ends.new (receiver self.now.own self.now.station)
            (receiver_done (receiver_worker self.now.plan.now self.now.peer) takes.old.most
            (receiver self.now.own self.now.station) given) }
    {
        if !self.request(rt, alloc, buffer, takes, ends) {
            return;
        }
        let worker = Worker::Receiver(self.peer);
        let (_outcome, _go) = ends.call_all(rt, worker, &mut takes.asks, &mut takes.answers);
        // Those that weren't submitted remain.
        takes.asks.clear();
        self.answer(buffer, takes, ends);
    }

    /// The first half of a turn: receives packets, and lists the Takes that their cores request. Returns whether there are
    /// any.
    fn request<R: Wait, L: Link, K: Desk, T: Turn, W: Waker>(
        &self,
        rt: &R,
        alloc: Global,
        buffer: &mut Buffer,
        takes: &mut Takes,
        ends: &mut Ends<L, K, T, W>,
    ) -> bool
        requires ready { HasNoTake takes.old }
        ensures some { IsTrue result ↔ (0 < length takes.new.asks.items) }
        ensures waiting { AreWaiting takes.new }
        ensures requested { (packets : List Arrival) × (quiet : AGo)
            × HasGathered (receiver_worker self.now.plan.now self.now.peer)
            (receiver self.now.own self.now.station) ends.old ends.new takes.old takes.new packets quiet }
    {
        self.gather(rt, alloc, buffer, takes, ends);
        !takes.asks.is_empty()
    }

    /// Receives up to the turn's maximum of packets. The first receive waits, the others don't.
    fn gather<R: Wait, L: Link, K: Desk, T: Turn, W: Waker>(
        &self,
        rt: &R,
        alloc: Global,
        buffer: &mut Buffer,
        takes: &mut Takes,
        ends: &mut Ends<L, K, T, W>,
    )
        requires ready { HasNoTake takes.old }
        ensures waiting { AreWaiting takes.new }
        ensures gathered { (packets : List Arrival) × (quiet : AGo)
            × HasGathered (receiver_worker self.now.plan.now self.now.peer)
            (receiver self.now.own self.now.station) ends.old ends.new takes.old takes.new packets quiet }
    {
        for place in 0..takes.most {
            let worker = Worker::Receiver(self.peer);
            let sleep = sleep_at(place, Sleep::Woken);
            let (found, go) = ends.hear(rt, worker, sleep, buffer);
            let Some(count) = found else {
                return;
            };
            self.hear(alloc, go.now, message_in(buffer, Some(count)), takes);
        }
    }

    /// Passes a received message to a core of its own. The Take that this requests is queued, unless memory for it
    /// is refused: the core is then told so, and requests nothing.
    fn hear(&self, alloc: Global, now: u64, message: Option<Message<&[u8]>>, takes: &mut Takes)
        requires waiting { AreWaiting takes.old }
        requires fewer { length takes.old.asks.items < takes.old.most }
        ensures waiting { AreWaiting takes.new }
        ensures more { (refused : Bool)
            × HasMore takes.old takes.new (wanted_by (receiver_worker self.now.plan.now self.now.peer)
            takes.old.most (receiver self.now.own self.now.station) now refused
            (option_map message_bytes message.entry)) }
    {
        let Some(message) = message else {
            return;
        };
        let mut core = Receiving::new(self.own, self.station);
        let Some((number, limit, payload)) = datagram_in(core.step(InEvent::Heard(message))) else {
            return;
        };
        let Ok(()) = takes.make_room() else {
            return;
        };
        let Ok(payload) = Payload::copy_of(alloc, payload) else {
            return;
        };
        let hop = hop_of_payload(self.plan, self.station, payload.as_slice());
        let ask = self.take_ask(now, number, hop, limit, payload);
        takes.asks.push_reserved(ask);
        takes.waiting.push_reserved((core, hop));
    }

    /// The second half of a turn: passes each answer to the core that waits for it, in order, if the Takes were answered.
    /// Sends each refusal that a core requests, and after them the greatest of the custodies.
    fn answer<L: Link, K: Desk, T: Turn, W: Waker>(
        &self,
        buffer: &mut Buffer,
        takes: &mut Takes,
        ends: &mut Ends<L, K, T, W>,
    )
        requires each { (takes.old.answers.items ≡ [])
            ⊎ (length takes.old.answers.items ≡ length takes.old.waiting.items) }
        requires room { HasTakeRoom takes.old }
        requires asks { takes.old.asks.items ≡ [] }
        ensures ready { HasNoTake takes.new }
        ensures most { takes.new.most ≡ takes.old.most }
        ensures done { HasAnswered (receiver self.now.own self.now.station) ends.old ends.new
            (zip takes.old.waiting.items takes.old.answers.items) }
    {
        let Takes {
            waiting,
            answers,
            ..
        } = takes;
        // The last of the reversed list is the first pending one.
        waiting.reverse();
        let mut last = None;
        for answer in answers.drain(..) {
            let custody = self.tell(buffer, waiting.take_last(), &answer.reply, ends);
            last = greater(last, custody);
        }
        waiting.clear();
        let Some(last) = last else {
            return;
        };
        let custody = Message::Custody {
            from: self.own,
            to: self.station,
            last,
        };
        ends.send(custody, buffer);
    }

    /// Passes the reply of its Take to a core, wakes the hop's sender if the datagram was stored, and sends the
    /// refusal that the core requests. Returns the number of the custody that the core requests, if any.
    fn tell<L: Link, K: Desk, T: Turn, W: Waker>(
        &self,
        buffer: &mut Buffer,
        waiting: WaitingCore,
        reply: &Reply,
        ends: &mut Ends<L, K, T, W>,
    ) -> Option<u64>
        ensures custody { result ≡ custody_in (receiving_step waiting.0 (receiver_event reply.now)).1 }
        ensures sent { TellsMore ends.old.sent ends.new.sent
            (refusal_packets (receiving_step waiting.0 (receiver_event reply.now)).1) }
        ensures woken { TellsMore ends.old.woken ends.new.woken
            (woken_if (is_taken (receiver_event reply.now)) waiting.1) }
        ensures same { ends.new ≡ record ends.old { sent = ends.new.sent; woken = ends.new.woken } }
    {
        let (mut core, hop) = waiting;
        let event = receiver_event(reply);
        ends.wake_if(is_taken(&event), hop);
        match core.step(event) {
            Some(InAction::Send(Message::Custody { last, .. })) => Some(last),
            Some(InAction::Send(message)) => {
                ends.send(message, buffer);
                None
            }
            Some(InAction::Take { .. }) | None => None,
        }
    }

    /// The command that stores a received datagram for a hop, with its number and limit.
    fn take_ask(&self, now: u64, number: u64, hop: HopId, limit: u64, payload: Payload) -> Ask
        ensures { result ≡ take_ask (receiver_worker self.now.plan.now self.now.peer) now number hop limit payload }
    {
        Ask::Command(Command::Take {
            peer: self.peer,
            number,
            hop,
            stamp: self.plan.link(hop, now),
            limit,
            payload,
        })
    }
}

/// The datagram of a Take action, if it is one: its number, its limit and its payload.
fn datagram_in<'a>(action: Option<InAction<&'a [u8]>>) -> Option<(u64, u64, &'a [u8])>
    ensures { option_map (λ taken. (taken.0, taken.1, taken.2.now)) result
        ≡ datagram_in (option_map in_action_bytes action.entry) }
{
    match action {
        Some(
            InAction::Take {
                number,
                limit,
                payload,
            },
        ) => Some((number, limit, payload)),
        Some(InAction::Send(_)) => None,
        None => None,
    }
}

/// The greater of two numbers, of those that are present.
fn greater(last: Option<u64>, number: Option<u64>) -> Option<u64>
    ensures { result ≡ greater last number }
{
    match (last, number) {
        (Some(last), Some(number)) => Some(last.max(number)),
        (None, number) => number,
        (last, None) => last,
    }
}

/// The hop of a payload that the peer's station gives: hop 0, which doesn't exist, if the plan has none for it.
fn hop_of_payload(plan: &Plan, station: StationId, payload: &[u8]) -> HopId
    ensures { result ≡ hop_of_payload plan.now station payload.now }
{
    plan.hop_for(station.0, payload).unwrap_or(HopId(0))
}

/// The core's event for the reply to its Take.
fn receiver_event<'a>(reply: &Reply) -> InEvent<&'a [u8]>
    ensures { in_event_bytes result ≡ receiver_event reply.now }
{
    InEvent::Answered(answer_in(reply))
}

/// Whether a datagram was stored.
fn is_taken(event: &InEvent<&[u8]>) -> bool
    ensures { result ≡ is_taken (in_event_bytes event.now) }
{
    matches!(event, InEvent::Answered(TakeAnswer::Taken))
}

fn answer_in(reply: &Reply) -> TakeAnswer
    ensures { result ≡ answer_in reply.now }
{
    match reply {
        Reply::Taken(_) => TakeAnswer::Taken,
        Reply::Already(last) => TakeAnswer::Already(*last),
        Reply::Refused(refusal) => TakeAnswer::Refused(*refusal),
        _ => TakeAnswer::Other,
    }
}
