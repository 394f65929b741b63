ghost use Rattle.std.specs.Prelude.{◌≡◌, ◌<◌, ◌≤◌, ◌⊎◌, ◌↔◌, ◌+◌, ◌-◌, ◌*◌, ◌++◌, ◌∷◌, [], IfErr, IsTrue, List, None, Ok, Some};
ghost use Rattle.std.specs.Prelude.{false, fold, length, true, ℕ};
ghost use Rattle.std.specs.List.{filter_map};
ghost use Rattle.std.specs.Option.{option_map};
ghost use Rattle.rly_hop.specs.Payloads.{message_bytes, out_action_bytes, out_event_bytes};
ghost use Rattle.rly_core.specs.declared.ids.HopId.{HopId as AHop};
ghost use Rattle.rly_core.specs.declared.params.Params.{Params as AParams};
ghost use Rattle.rly_hop.specs.Sender.{Sender};
ghost use Rattle.rly_hop.specs.Spelling.{longest_message};
ghost use Rattle.rly_hop_pacing.specs.Rates.{burst, first_bucket};
ghost use Rattle.rly_link.specs.declared.turn.Go.{Go as AGo};
ghost use Rattle.rly_plan.specs.ContactPlan.{ContactPlan, is_open, rate, resend};
ghost use Rattle.rly_plan.specs.Sound.{IsSoundPlan};
ghost use Rattle.rly_threads_workers.specs.declared.sender_state.SenderState.{SenderState as Keeping};
ghost use Rattle.rly_threads_workers.specs.Asleep.{AsksOnlyPicks, Lasts};
ghost use Rattle.rly_threads_workers.specs.SenderTurns.{SenderWorker as Handing};
ghost use Rattle.rly_threads_workers.specs.SenderState.{first_sender_state, no_reports, send_room, sender_on_hearing};
ghost use Rattle.rly_threads_workers.specs.Strays.{IsEarly, is_of_nothing_more, is_on_flight};
ghost use Rattle.rly_threads_workers.specs.RateKept.{earliest, latest, left_by, sent_in, total_cost};
ghost use Rattle.rly_threads_workers.specs.SenderTurns.{call_count, calls_from, contact_left, core_count, core_requests};
ghost use Rattle.rly_threads_workers.specs.SenderTurns.{edge_moment, error_event, event_in, has_changed, is_at_rest};
ghost use Rattle.rly_threads_workers.specs.SenderTurns.{named_ask, or_pick};
ghost use Rattle.rly_threads_workers.specs.SenderTurns.{repeat_count, sender_done, sender_on_packet, sender_sleep};
ghost use Rattle.rly_threads_workers.specs.SenderTurns.{sender_turn, sender_worker, sleep_until, turn_calls};
ghost use Rattle.rly_threads_workers.specs.WorkerRuns.{HasSent};
ghost use Rattle.rly_threads_workers.specs.HelpersTurns.{AreListed, Did, HasCallRoom, HasHandedEvent, HasHeard, HasNumbers};
ghost use Rattle.rly_threads_workers.specs.HelpersTurns.{HasRequested, IsIdle, IsSameTurn, answers_in, asks_in};
ghost use Rattle.rly_threads_workers.specs.HelpersTurns.{outcome_events};
ghost use Rattle.rly_threads_workers.specs.Turns.{Given};

use crate::calls::{Calls, or_pick, repeat_count};
use crate::desk::Desk;
use crate::ends::{Buffer, Ends, message_in, sleep_at};
use crate::sender_state::{SenderState, sooner};
use rly_core::{HopId, Params, Refusal, limits};
use rly_hop::{Message, OutAction, OutEvent, Sending, StationId};
use rly_line::BatchError;
use rly_link::{Go, Link, MAX_PACKET, Point, Sleep, Turn, Waker, Worker};
use rly_machine::{Ask, Command, Query, Reply};
use rly_plan::Plan;
use std::alloc::Global;
use std::marker::Model;
use std::sync::Wait;

/// Maximum number of packets that it receives per turn.
const MAX_PACKETS: usize = limits::MAX_ROUND as usize;

/// The wait after a call that was refused, in microseconds.
const RETRY: u64 = 10_000;

/// Sends the datagrams of a hop of the plan, turn by turn, until it is stopped. Uses the spool's window, which is
/// the maximum number of datagrams in flight, and its longest payload, for the hop's rate. Returns at once if the
/// hop isn't in the plan. If memory for the lists of 64 calls is refused at its start, it submits one call per
/// turn.
pub fn sender_run<R: Wait, L: Link, K: Desk, T: Turn, W: Waker>(
    rt: &R,
    alloc: Global,
    plan: &Plan,
    hop: HopId,
    params: &Params,
    ends: &mut Ends<L, K, T, W>,
)
    // Its receives, asks and sent packets are exactly those that its core and its rules of waiting request on its
    // inputs, in order.
    ensures turns { HasSent plan.now params.now hop ends.old ends.new }
{
    let Some(neighbour) = plan.hop(hop) else {
        return;
    };
    let core = Sending::new(
        StationId(plan.station()),
        StationId(neighbour.station),
        params.window,
    );
    let pacing = SenderState::new(core, params, plan.resend(hop), plan.rate(hop));
    let mut outlet = SenderWorker { plan, hop, pacing };
    let mut calls = Calls::reserve(alloc);
    let mut buffer = [0; MAX_PACKET];
    for _turn in rt.forever() {
        let go = ends.between(rt, Worker::Sender(hop), Point::Start);
        if !go.on {
            return;
        }
        outlet.turn(rt, go, &mut buffer, &mut calls, ends);
    }
}

/// The rate limit of a hop: over any period of a sender's turns, the bytes of the sent packets, each with 28 more,
/// are at most the burst plus the rate times the length of the period, from the earliest moment at which calls of
/// these turns were answered to the latest. This holds for any earlier turns, any inputs, and whether or not the
/// clock falls. A key's tag isn't counted.
pub fn law_turns_keep_the_rate()
    ensures { (plan : ContactPlan) (hop : AHop) (params : AParams) (most bytes : ℕ) (core : Sender)
        (before : List Given) (first : Given) (later : List Given) →
        rate plan hop ≡ Some bytes →
        total_cost (sent_in (sender_worker plan hop) most
        (left_by (sender_worker plan hop) most
        (first_sender_state core params (resend plan hop) (rate plan hop)) before)
        (first ∷ later))
        ≤ burst (first_bucket bytes (longest_message params.payload) 0)
        + bytes * (latest first later - earliest first later) }
{}

/// No packet on a hop's port makes the sender send, except a Custody and a Heard of the number before the flight or of one in
/// it: a turn that receives another packet asks and sends as it would without it, at the same moments, and leaves the same
/// state. A Custody of the number before the flight, which covers nothing more, draws nothing before `resend` has passed since
/// the first number in flight was last sent and since custody last covered more: a turn that receives it asks and sends as it
/// would without it, unless a Timeout is due in it. After that it draws that first number alone (`law_custody_draws_one` of
/// `rly_hop_pacing`), which was then sent last in this turn.
pub fn law_strays_draw_nothing()
    ensures nothing { (w : Handing) (most : ℕ) (p : Keeping) (given : Given) (before later : List (List ℕ)) (packet : List ℕ) →
        given.packets ≡ before ++ packet ∷ later → length given.packets ≤ 64 → length (before ++ later) ≤ 64 →
        is_on_flight (fold sender_on_packet p before).core packet ≡ false →
        ((sender_turn w most p given).core ≡ (sender_turn w most p (record given { packets = before ++ later })).core)
        × ((sender_turn w most p given).sent ≡ (sender_turn w most p (record given { packets = before ++ later })).sent)
        × ((sender_turn w most p given).asked
        ≡ (sender_turn w most p (record given { packets = before ++ later })).asked) }
    ensures early { (w : Handing) (most : ℕ) (p : Keeping) (given : Given) (before later : List (List ℕ)) (packet : List ℕ) →
        given.packets ≡ before ++ packet ∷ later → length given.packets ≤ 64 → length (before ++ later) ≤ 64 →
        is_of_nothing_more (fold sender_on_packet p before).core packet ≡ true →
        IsEarly w p (before ++ later) given.heard →
        ((sender_turn w most p given).sent ≡ (sender_turn w most p (record given { packets = before ++ later })).sent)
        × ((sender_turn w most p given).asked
        ≡ (sender_turn w most p (record given { packets = before ++ later })).asked) }
{}

/// The sleep misses nothing. A turn to which no packet comes, at a moment before the end of its sleep, sends nothing and
/// asks nothing but Picks, and these only after a Pick that found nothing. So does one that only a wake-up ends. This
/// holds unless a call of the turn before was refused, or the contact has changed since; while the worker rests, a change
/// of its contact makes no difference. With a sound plan, the contact stays as it was at the turn before until the sleep
/// ends, if the wall clock rises no faster than the monotonic one.
pub fn law_sleep_misses_nothing()
    ensures nothing { (w : Handing) (most : ℕ) (p : Keeping) (given : Given) →
        p.failed ≡ false → p.reports ≡ no_reports → given.packets ≡ [] →
        given.start.since ≤ given.heard.since → Lasts (sender_sleep w p given.start) given.heard.since →
        (is_open w.plan w.hop given.heard.now ≡ p.pace.is_open) ⊎ (is_at_rest p ≡ true) →
        ((sender_turn w most p given).sent ≡ [])
        × AsksOnlyPicks w given.heard.now (sender_turn w most p given).asked
        × (p.drained ≡ false → (sender_turn w most p given).asked ≡ []) }
    ensures contact { (w : Handing) (p : Keeping) (start heard : AGo) →
        IsSoundPlan w.plan → p.failed ≡ false → is_at_rest p ≡ false → Lasts (sender_sleep w p start) heard.since →
        start.now ≤ heard.now → heard.now - start.now ≤ heard.since - start.since →
        is_open w.plan w.hop heard.now ≡ p.pace.is_open }
    // No turn leaves a Heard or a Custody to the next one.
    ensures reports { (w : Handing) (most : ℕ) (p : Keeping) (given : Given) →
        (sender_turn w most p given).core.reports ≡ no_reports }
{}

/// A sending worker between its turns.
#[derive(Drop)]
struct SenderWorker<'a> {
    plan: &'a Plan,
    hop: HopId,
    pacing: SenderState,
}

impl<'a> SenderWorker<'a> {
    /// One turn, after the tick at its start: it submits the calls of its first half, if there are any, and passes their
    /// outcome to its second half.
    fn turn<R: Wait, L: Link, K: Desk, T: Turn, W: Waker>(
        &mut self,
        rt: &R,
        start: Go,
        buffer: &mut Buffer,
        calls: &mut Calls,
        ends: &mut Ends<L, K, T, W>,
    )
        requires idle { IsIdle calls.old }
        ensures idle { IsIdle calls.new }
        ensures most { calls.new.most ≡ calls.old.most }
        ensures plan { self.new.plan ≡ self.old.plan }
        ensures hop { self.new.hop ≡ self.old.hop }
        ensures done { (given : Given) × (given.start ≡ start)
            × Did ends.old ends.new self.new.pacing
            (sender_done (sender_worker self.old.plan.now self.old.hop) calls.old.most self.old.pacing given) }
    {
        if !self.request(rt, start, buffer, calls, ends) {
            return;
        }
        let (outcome, go) = calls.submit(rt, Worker::Sender(self.hop), ends);
        self.answer(buffer, calls, outcome, go, ends);
    }

    /// The first half of a turn: receives packets, and lists the calls that its core requests then. Returns whether there
    /// are any.
    fn request<R: Wait, L: Link, K: Desk, T: Turn, W: Waker>(
        &mut self,
        rt: &R,
        start: Go,
        buffer: &mut Buffer,
        calls: &mut Calls,
        ends: &mut Ends<L, K, T, W>,
    ) -> bool
        requires idle { IsIdle calls.old }
        ensures some { IsTrue result ↔ (0 < length (asks_in calls.new)) }
        ensures same { self.new ≡ record self.old { pacing = self.new.pacing } }
        ensures most { calls.new.most ≡ calls.old.most }
        ensures requested { (packets : List (List ℕ)) × (heard : AGo)
            × HasRequested (sender_worker self.old.plan.now self.old.hop) calls.old.most ends.old ends.new
            self.old.pacing self.new.pacing calls.new start packets heard }
    {
        self.gather(self.sleep(start), buffer, ends);
        let go = ends.between(rt, Worker::Sender(self.hop), Point::Heard);
        let left = self.contact_left(go.now);
        self.pacing.left_is(left);
        self.pacing
            .moment(self.plan.is_open(self.hop, go.now), go.since);
        self.list_calls(go, calls);
        !calls.is_empty()
    }

    /// The second half of a turn, given the outcome of its calls and the tick after them: passes each answer to the core,
    /// in order, and sends the messages that it then requests, if a contact is open by then.
    fn answer<L: Link, K: Desk, T: Turn, W: Waker>(
        &mut self,
        buffer: &mut Buffer,
        calls: &mut Calls,
        outcome: Result<(), BatchError>,
        go: Go,
        ends: &mut Ends<L, K, T, W>,
    )
        requires room { HasCallRoom calls.old }
        requires asks { asks_in calls.old ≡ [] }
        requires none_given { IfErr outcome (λ _. answers_in calls.old ≡ []) }
        requires numbers { HasNumbers (out_action_bytes calls.old.named)
            (length (answers_in calls.old) - length calls.old.again.items) }
        ensures idle { IsIdle calls.new }
        ensures most { calls.new.most ≡ calls.old.most }
        ensures same { self.new ≡ record self.old { pacing = self.new.pacing } }
        ensures told { HasHandedEvent (is_open self.old.plan.now self.old.hop go.now) go.since ends.old ends.new
            self.old.pacing self.new.pacing (outcome_events calls.old outcome) }
    {
        let is_open = self.plan.is_open(self.hop, go.now);
        match outcome {
            Ok(()) => self.tell_all(buffer, is_open, go.since, calls, ends),
            Err(error) => self
                .pacing
                .tell(buffer, is_open, go.since, error_event(error), ends),
        }
    }

    /// How long a turn waits for its first packet, by the last tick.
    fn sleep(&self, last: Go) -> Sleep
        ensures { result ≡ sender_sleep (sender_worker self.now.plan.now self.now.hop) self.now.pacing last }
    {
        if self.pacing.failed {
            return Sleep::Until(last.since.saturating_add(RETRY));
        }
        if self.pacing.core.turn_action(false).is_some() || self.has_changed(last) {
            return Sleep::No;
        }
        let edge = self.edge_moment(last);
        sleep_until(
            last.since,
            sooner(self.pacing.work_moment(last.since), edge),
        )
    }

    /// How much is left of its contact while it is open, in microseconds; `None` if it has no end.
    fn contact_left(&self, now: u64) -> Option<u64>
        ensures { result ≡ contact_left (sender_worker self.now.plan.now self.now.hop) now }
    {
        let change = self.plan.next_change(self.hop, now)?;
        Some(change.saturating_sub(now))
    }

    /// Whether its contact began or ended since its last turn.
    fn has_changed(&self, last: Go) -> bool
        ensures { result ≡ has_changed (sender_worker self.now.plan.now self.now.hop) self.now.pacing last }
    {
        self.plan.is_open(self.hop, last.now) != self.pacing.pace.is_open()
    }

    /// The moment of the monotonic clock at which it looks at its contact again: never while it rests.
    fn edge_moment(&self, last: Go) -> Option<u64>
        ensures { result ≡ edge_moment (sender_worker self.now.plan.now self.now.hop) self.now.pacing last }
    {
        if self.pacing.is_at_rest() {
            return None;
        }
        let wait = self.plan.edge_wait(self.hop, last.now)?;
        Some(last.since.saturating_add(wait))
    }

    /// Receives up to 64 packets and passes the messages in them on. It waits for the first one.
    fn gather<L: Link, K: Desk, T: Turn, W: Waker>(
        &mut self,
        sleep: Sleep,
        buffer: &mut Buffer,
        ends: &mut Ends<L, K, T, W>,
    )
        ensures same { self.new ≡ record self.old { pacing = self.new.pacing } }
        ensures heard { (packets : List (List ℕ))
            × HasHeard sleep ends.old ends.new self.old.pacing self.new.pacing packets }
    {
        for place in 0..MAX_PACKETS {
            let found = ends.receive(sleep_at(place, sleep), buffer);
            let Some(count) = found else {
                return;
            };
            self.hear(message_in(buffer, Some(count)));
        }
    }

    /// Passes a received message on.
    fn hear(&mut self, message: Option<Message<&[u8]>>)
        ensures same { self.new ≡ record self.old { pacing = self.new.pacing } }
        ensures pacing { self.new.pacing
            ≡ sender_on_hearing self.old.pacing (option_map message_bytes message.entry) }
    {
        if let Some(message) = message {
            self.pacing.hear(message);
        }
    }

    /// Lists the calls of a turn at its time: the Fetches of the numbers to send again, and those that follow from the
    /// core's request.
    fn list_calls(&mut self, go: Go, calls: &mut Calls)
        requires idle { IsIdle calls.old }
        ensures same { self.new ≡ record self.old { pacing = self.new.pacing } }
        ensures most { calls.new.most ≡ calls.old.most }
        ensures state { self.new.pacing
            ≡ (core_requests calls.old.most (send_room self.old.pacing go.since) go.since self.old.pacing).state }
        ensures listed { AreListed (sender_worker self.old.plan.now self.old.hop) go.now calls.new
            (core_requests calls.old.most (send_room self.old.pacing go.since) go.since self.old.pacing).calls }
    {
        let room = self.pacing.room(go.since);
        let count = repeat_count(calls.most, room);
        calls.again.clear();
        self.pacing.pace.missing(count, go.since, &mut calls.again);
        self.pacing.add_spare(room, go.since, &mut calls.again);
        let is_open = (calls.again.len() as u64) < room;
        let action = self.pacing.core.step(OutEvent::Turn { is_open });
        self.pacing.drained = false;
        self.pacing.failed = false;
        self.list_action(go.now, room, action, calls);
    }

    /// Lists the Fetches of the numbers to send again, and the calls that follow from the core's request, if this many
    /// messages may be sent.
    fn list_action(
        &self,
        now: u64,
        room: u64,
        action: Option<OutAction<&'static [u8]>>,
        calls: &mut Calls,
    )
        requires idle { IsIdle calls.old }
        requires again { length calls.old.again.items ≤ repeat_count calls.old.most room }
        ensures most { calls.new.most ≡ calls.old.most }
        ensures listed { AreListed (sender_worker self.now.plan.now self.now.hop) now calls.new
            (turn_calls calls.old.most room self.now.pacing calls.old.again.items (option_map out_action_bytes action.entry)) }
    {
        let first = calls.again.len() as u64;
        let most = calls.most.saturating_sub(first);
        let count = first + self.core_count(room.saturating_sub(first), action, most);
        calls.named = or_pick(action);
        self.list(now, count, calls);
    }

    /// How many calls are submitted together for the core's request, if it has one and any may be.
    fn core_count(&self, room: u64, action: Option<OutAction<&[u8]>>, most: u64) -> u64
        ensures count { result ≡ core_count most room self.now.pacing (option_map out_action_bytes action.entry) }
        ensures numbers { HasNumbers (or_pick (option_map out_action_bytes action.entry)) result }
    {
        match action {
            Some(action) if most > 0 => self.count(room, action, most),
            _ => 0,
        }
    }

    /// How many calls are submitted together, given the core's request and how many messages may be sent.
    fn count(&self, room: u64, action: OutAction<&[u8]>, most: u64) -> u64
        ensures count { result ≡ call_count most room self.now.pacing (out_action_bytes action.entry) }
        ensures numbers { HasNumbers (out_action_bytes action.entry) result }
    {
        let core = &self.pacing.core;
        match action {
            OutAction::AskWindow => 1,
            OutAction::Release(number) => most.min(
                self.pacing.picks_beside(room, number).saturating_add(1),
            ),
            OutAction::Fetch(number) => most.min(room).min(core.next().saturating_sub(number)),
            OutAction::Pick => most.min(room.min(self.pacing.picks)).min(core.room()),
            OutAction::Send(_) => 0,
        }
    }

    /// Lists the asks of this many calls, in order.
    fn list(&self, now: u64, count: u64, calls: &mut Calls)
        requires idle { IsIdle calls.old }
        requires few { count ≤ calls.old.most }
        requires numbers { HasNumbers (out_action_bytes calls.old.named) (count - length calls.old.again.items) }
        ensures same { IsSameTurn calls.old calls.new }
        ensures answers { answers_in calls.new ≡ [] }
        ensures asks { asks_in calls.new
            ≡ filter_map (named_ask (sender_worker self.now.plan.now self.now.hop) now)
            (calls_from calls.old.again.items (out_action_bytes calls.old.named) count) }
    {
        for place in 0..count {
            if let Some(ask) = self.named_ask(now, calls.at(place)) {
                calls.push(ask);
            }
        }
    }

    /// Passes each answer to the core, in order, and sends the messages that it then requests.
    fn tell_all<L: Link, K: Desk, T: Turn, W: Waker>(
        &mut self,
        buffer: &mut Buffer,
        is_open: bool,
        at: u64,
        calls: &mut Calls,
        ends: &mut Ends<L, K, T, W>,
    )
        requires room { HasCallRoom calls.old }
        requires asks { asks_in calls.old ≡ [] }
        requires numbers { HasNumbers (out_action_bytes calls.old.named)
            (length (answers_in calls.old) - length calls.old.again.items) }
        ensures idle { IsIdle calls.new }
        ensures most { calls.new.most ≡ calls.old.most }
        ensures same { self.new ≡ record self.old { pacing = self.new.pacing } }
        ensures told { HasHandedEvent is_open at ends.old ends.new self.old.pacing self.new.pacing
            (outcome_events calls.old (Ok tt)) }
    {
        for place in 0..calls.begin_answers() {
            let Some(answer) = calls.next_answer() else {
                return;
            };
            let event = event_in(calls.at(place), &answer.reply);
            self.pacing.tell(buffer, is_open, at, event, ends);
        }
    }

    /// The ask of a call.
    fn named_ask(&self, now: u64, action: OutAction<&[u8]>) -> Option<Ask>
        ensures { result
            ≡ named_ask (sender_worker self.now.plan.now self.now.hop) now (out_action_bytes action.entry) }
    {
        let hop = self.hop;
        match action {
            OutAction::AskWindow => Some(Ask::Query(Query::Window { hop })),
            OutAction::Release(number) => Some(Ask::Command(Command::Release { hop, number })),
            OutAction::Fetch(number) => Some(Ask::Query(Query::Fetch { hop, number })),
            OutAction::Pick => Some(Ask::Command(Command::Pick {
                hop,
                now: self.plan.link(hop, now),
            })),
            OutAction::Send(_) => None,
        }
    }
}

/// The core's event if there are no answers.
fn error_event<'a>(error: BatchError) -> OutEvent<&'a [u8]>
    ensures { out_event_bytes result ≡ error_event error }
{
    match error {
        BatchError::Closed => OutEvent::Refused(Refusal::Closed),
        BatchError::Lost => OutEvent::Refused(Refusal::Lost),
    }
}

/// The core's event for a reply: a payload and its limit belong to the number that the core asked for.
fn event_in<'a>(action: OutAction<&[u8]>, reply: &'a Reply) -> OutEvent<&'a [u8]>
    ensures { out_event_bytes result ≡ event_in (out_action_bytes action.entry) reply.now }
{
    match (reply, action) {
        (Reply::WindowIs { first, next }, _) => OutEvent::WindowIs {
            first: *first,
            next: *next,
        },
        (Reply::Picked { number, .. }, _) => OutEvent::Picked(*number),
        (Reply::Nothing { .. }, _) => OutEvent::Nothing,
        (Reply::Bytes { payload, limit }, OutAction::Fetch(number)) => OutEvent::Fetched {
            number,
            limit: *limit,
            payload: payload.as_slice(),
        },
        (Reply::Released(_), _) => OutEvent::Released,
        (Reply::Unchanged, _) => OutEvent::Unchanged,
        (Reply::Refused(refusal), _) => OutEvent::Refused(*refusal),
        _ => OutEvent::Other,
    }
}

/// A wait until a moment, if there is one, at another one: none if it has come.
fn sleep_until(at: u64, moment: Option<u64>) -> Sleep
    ensures { result ≡ sleep_until at moment }
{
    match moment {
        Some(moment) if moment <= at => Sleep::No,
        Some(moment) => Sleep::Until(moment),
        None => Sleep::Woken,
    }
}
