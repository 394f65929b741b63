ghost use Rattle.std.specs.Prelude.{◌≡◌, ◌≤◌, [], is_some, length, option_map};
ghost use Rattle.rly_hop.specs.Payloads.{message_bytes, out_action_bytes, out_event_bytes};
ghost use Rattle.rly_hop.specs.Sending.{sending_step};
ghost use Rattle.rly_hop_pacing.specs.Moments.{sooner};
ghost use Rattle.rly_hop_pacing.specs.Rates.{first_bucket};
ghost use Rattle.rly_link.specs.LinkHistory.{TellsMore};
ghost use Rattle.rly_threads_workers.specs.SenderTurns.{after_out_event, again_numbers, held_back, is_at_rest, is_nothing};
ghost use Rattle.rly_threads_workers.specs.SenderTurns.{is_refusal};
ghost use Rattle.rly_threads_workers.specs.SenderTurns.{picks_after, picks_beside, sender_packets, sent_on, wants_room, work_moment};
ghost use Rattle.rly_threads_workers.specs.SenderState.{first_sender_state, let_out, lets_out, on_moment};
ghost use Rattle.rly_threads_workers.specs.SenderState.{action_on, control_on_answer, control_on_named, control_on_custody};
ghost use Rattle.rly_threads_workers.specs.SenderState.{control_on_release, control_on_report, or_else, repeat_on};
ghost use Rattle.rly_threads_workers.specs.SenderState.{rate_after, rate_after_one, send_room, set_back_if};
ghost use Rattle.rly_threads_workers.specs.SenderState.{no_reports, reports_after, sender_on_hearing, with_custody, with_left};
ghost use Rattle.rly_threads_workers.specs.SenderState.{with_reports};

use crate::desk::Desk;
use crate::ends::{Buffer, Ends};
use rly_core::{Params, Refusal, limits};
use rly_hop::{Message, OutAction, OutEvent, Sending, longest_message};
use rly_hop_pacing::{CongestionControl, Numbers, Rate};
use rly_link::{Link, MAX_PACKET, Turn, Waker};

/// Nothing was received in this turn.
const NO_REPORTS: Reports = Reports {
    custody: false,
    heard: None,
};

/// Maximum number of calls that a sending worker submits together.
pub(crate) const MAX_CALLS: u64 = limits::MAX_ROUND;

/// The state of a sending worker between turns: its core, its congestion control and its rate limit.
#[derive(Drop)]
pub(crate) struct SenderState {
    pub(crate) core: Sending,
    /// Whether a Pick of the last turn found nothing: its queue was empty, or became so.
    pub(crate) drained: bool,
    /// Whether another call of the last turn was refused.
    pub(crate) failed: bool,
    /// How many Picks may be submitted together.
    pub(crate) picks: u64,
    pub(crate) pace: CongestionControl,
    /// The token bucket of the hop's rate, if it has one.
    pub(crate) rate: Option<Rate>,
    /// What was received in this turn, until the turn's time.
    pub(crate) reports: Reports,
}

/// What a turn received of its flight.
#[derive(Clone, Copy)]
pub(crate) struct Reports {
    /// Whether a Custody came, of the number before the flight or of one in it.
    pub(crate) custody: bool,
    /// The Heard that came last.
    pub(crate) heard: Option<Report>,
}

/// The number that custody covers, and the bits of a Heard.
#[derive(Clone, Copy)]
pub(crate) struct Report {
    pub(crate) last: u64,
    pub(crate) bits: u64,
}

impl SenderState {
    /// Before the first turn, in a spool with these parameters, for a hop with this `resend`, in milliseconds, and
    /// this rate, in bytes a second, if it has one.
    pub(crate) fn new(core: Sending, params: &Params, resend: u32, rate: Option<u32>) -> SenderState
        ensures { result ≡ first_sender_state core params.now resend rate }
    {
        SenderState {
            core,
            drained: false,
            failed: false,
            picks: 1,
            pace: CongestionControl::new(resend, params.window, rate.is_some()),
            rate: full(rate, longest_message(params.payload) as u32),
            reports: NO_REPORTS,
        }
    }

    /// A message was received: the core gets it, and a Heard or a Custody on the flight is kept until the turn's time.
    pub(crate) fn hear(&mut self, message: Message<&[u8]>)
        ensures { self.new ≡ sender_on_hearing self.old (Some (message_bytes message.entry)) }
    {
        self.keep_report(message);
        let _nothing = self.core.step(OutEvent::Heard(message));
    }

    fn keep_report(&mut self, message: Message<&[u8]>)
        ensures { self.new ≡ record self.old { reports = reports_after self.old (message_bytes message.entry) } }
    {
        match message {
            Message::Heard {
                from,
                to,
                last,
                bits,
            } if self.core.reports_flight(from, to, last) => self.reports.heard = Some(Report {
                last,
                bits,
            }),
            Message::Custody { from, to, last } => self.reports.custody |= self
                .core
                .reports_flight(from, to, last),
            _ => {}
        }
    }

    /// How much is left of the contact, in microseconds, or that it has no end.
    pub(crate) fn left_is(&mut self, left: Option<u64>)
        ensures { self.new ≡ with_left left self.old }
    {
        self.pace.left_is(left);
    }

    /// Whether nothing waits, as far as it was told, and nothing is in flight.
    pub(crate) fn is_at_rest(&self) -> bool
        ensures { result ≡ is_at_rest self.now }
    {
        self.drained && self.core.is_idle()
    }

    /// The moment at which it has something to send, or a Timeout, if no packet comes.
    pub(crate) fn work_moment(&self, at: u64) -> Option<u64>
        ensures { result ≡ work_moment self.now at }
    {
        let wants = wants_room(self.drained, self.core.turn_action(true));
        let timeout = self.pace.next_timeout(at);
        held_back(&self.rate, at, timeout, self.pace.next_moment(at, wants))
    }

    /// The turn's time, by the monotonic clock, and whether a contact is open then.
    pub(crate) fn moment(&mut self, is_open: bool, at: u64)
        ensures { self.new ≡ on_moment self.old is_open at }
    {
        let opens = self.pace.contact(is_open);
        self.set_back(opens);
        self.hear_custody(at);
        self.hear_reports(at);
        self.pace.moment(at);
    }

    /// Gives the core a Timeout, if `is_due`.
    fn set_back(&mut self, is_due: bool)
        ensures { self.new ≡ set_back_if is_due self.old }
    {
        if is_due {
            let _nothing = self.core.step(OutEvent::Timeout);
        }
    }

    /// Custody of all up to the number to release was received.
    fn hear_custody(&mut self, at: u64)
        ensures { self.new ≡ with_custody self.old at }
    {
        let named = self.core.step(OutEvent::Turn { is_open: false });
        note_release(&mut self.pace, named, at);
    }

    /// The Heard and the Custody that were kept.
    fn hear_reports(&mut self, at: u64)
        ensures { self.new ≡ with_reports self.old at }
    {
        note_report(&mut self.pace, self.reports.heard, at);
        note_custody(&mut self.pace, self.reports.custody, at);
        self.reports = NO_REPORTS;
    }

    /// How many messages may be sent at a moment.
    pub(crate) fn room(&self, at: u64) -> u64
        ensures { result ≡ send_room self.now at }
    {
        let room = self.pace.room(at);
        match &self.rate {
            Some(rate) => room.min(rate.room(at)),
            None => room,
        }
    }

    /// If no number is missing, adds the one that may be sent again in spare room.
    pub(crate) fn add_spare(&self, room: u64, at: u64, again: &mut Numbers)
        ensures { again.new.items ≡ again_numbers self.now.pace room at again.old.items }
    {
        if room == 0 || !again.is_empty() {
            return;
        }
        if let Some(number) = self.pace.spare(at) {
            again.push(number);
        }
    }

    /// How many Picks are submitted with the release of all up to this number, if `room` messages may be sent.
    pub(crate) fn picks_beside(&self, room: u64, number: u64) -> u64
        ensures { result ≡ picks_beside room self.now number }
    {
        let left = room.saturating_sub(self.pace.unsent_count(self.core.next()));
        self.picks.min(self.core.room_after(number).min(left))
    }

    /// Passes an event to the core, and sends the message that it requests, or the repeat of a number that it has sent,
    /// if a contact is open and the rate permits it.
    pub(crate) fn tell<L: Link, K: Desk, T: Turn, W: Waker>(
        &mut self,
        buffer: &mut Buffer,
        is_open: bool,
        at: u64,
        event: OutEvent<&[u8]>,
        ends: &mut Ends<L, K, T, W>,
    )
        ensures state { self.new ≡ after_out_event is_open at self.old (out_event_bytes event.entry) }
        ensures sent { TellsMore ends.old.sent ends.new.sent
            (sent_on is_open at self.old (out_event_bytes event.entry)) }
        ensures ends { ends.new ≡ record ends.old { sent = ends.new.sent } }
    {
        self.drained |= is_nothing(&event);
        self.failed |= is_refusal(&event);
        self.picks = picks_after(self.picks, &event);
        note_answer(&mut self.pace, &event);
        let named = action_on(&mut self.core, event);
        note_named(&mut self.pace, named, at);
        send_named(is_open, at, named, buffer, &mut self.rate, ends);
    }
}

/// The token bucket of a rate at first, with its full burst, for messages of at most this many bytes.
fn full(rate: Option<u32>, longest: u32) -> Option<Rate>
    ensures { result ≡ option_map (λ r. first_bucket r longest 0) rate }
{
    match rate {
        Some(rate) => Some(Rate::new(rate, longest, 0)),
        None => None,
    }
}

/// Reports to the congestion control the custody of all up to the number that the core is to release, if any.
fn note_release(pace: &mut CongestionControl, named: Option<OutAction<&[u8]>>, at: u64)
    ensures { pace.new ≡ control_on_release pace.old (option_map out_action_bytes named.entry) at }
{
    if let Some(OutAction::Release(number)) = named {
        pace.on_covered(number, at);
    }
}

/// Reports a Heard to the congestion control, if there is one.
fn note_report(pace: &mut CongestionControl, report: Option<Report>, at: u64)
    ensures { pace.new ≡ control_on_report pace.old report at }
{
    if let Some(report) = report {
        pace.on_heard(report.last, report.bits, at);
    }
}

/// Reports a Custody to the congestion control, if one came.
fn note_custody(pace: &mut CongestionControl, is_custody: bool, at: u64)
    ensures { pace.new ≡ control_on_custody pace.old is_custody at }
{
    if is_custody {
        pace.on_custody(at);
    }
}

/// Reports to the congestion control the window, if it was answered.
fn note_answer(pace: &mut CongestionControl, event: &OutEvent<&[u8]>)
    ensures { pace.new ≡ control_on_answer pace.old (out_event_bytes event.now) }
{
    if let OutEvent::WindowIs { first, next } = event {
        if *first <= *next {
            pace.window_is(*first, *next);
        }
    }
}

/// Passes an event to the core. Returns the action that it requests, or the repeat of a number that it has sent, if the
/// event is the answer to a Fetch of it.
fn action_on<'a>(core: &mut Sending, event: OutEvent<&'a [u8]>) -> Option<OutAction<&'a [u8]>>
    ensures core { core.new ≡ (sending_step core.old (out_event_bytes event.entry)).0 }
    ensures action { option_map out_action_bytes result ≡ action_on core.old (out_event_bytes event.entry) }
{
    let repeat = repeat_on(core, &event);
    match core.step(event) {
        None => repeat,
        named => named,
    }
}

/// The repeat of a number that the core has sent, if an event is the answer to a Fetch of it.
fn repeat_on<'a>(core: &Sending, event: &OutEvent<&'a [u8]>) -> Option<OutAction<&'a [u8]>>
    ensures { option_map out_action_bytes result ≡ repeat_on core.now (out_event_bytes event.now) }
{
    match event {
        OutEvent::Fetched {
            number,
            limit,
            payload,
        } => core.repeat(*number, *limit, payload),
        _ => None,
    }
}

/// Reports to the congestion control the number that is sent, if any.
fn note_named(pace: &mut CongestionControl, named: Option<OutAction<&[u8]>>, at: u64)
    ensures { pace.new ≡ control_on_named pace.old (option_map out_action_bytes named.entry) at }
{
    if let Some(OutAction::Send(Message::Data { number, .. })) = named {
        pace.on_sent(number, at);
    }
}

/// Whether an answer says that there is nothing to pick.
fn is_nothing(event: &OutEvent<&[u8]>) -> bool
    ensures { result ≡ is_nothing (out_event_bytes event.now) }
{
    matches!(event, OutEvent::Nothing | OutEvent::Refused(Refusal::Empty))
}

/// Whether an answer is another refusal.
fn is_refusal(event: &OutEvent<&[u8]>) -> bool
    ensures { result ≡ is_refusal (out_event_bytes event.now) }
{
    match event {
        OutEvent::Refused(refusal) => *refusal != Refusal::Empty,
        _ => false,
    }
}

/// How many Picks may be submitted together after an answer.
fn picks_after(picks: u64, event: &OutEvent<&[u8]>) -> u64
    ensures { result ≡ picks_after picks (out_event_bytes event.now) }
{
    match event {
        OutEvent::Picked(_) => picks.saturating_add(1).min(MAX_CALLS),
        OutEvent::Nothing | OutEvent::Refused(_) => 1,
        _ => picks,
    }
}

/// Whether the core would send something new if it might: not after a Pick that found nothing.
fn wants_room(drained: bool, action: Option<OutAction<&[u8]>>) -> bool
    ensures { result ≡ wants_room drained (option_map out_action_bytes action.entry) }
{
    match action {
        None | Some(OutAction::Send(_)) => false,
        Some(OutAction::Pick) => !drained,
        Some(_) => true,
    }
}

/// The next moment at which there is something to do, of the Timeout's and the pace's. If that is now, but the rate lets
/// nothing out: as soon as it does, or the Timeout comes.
fn held_back(rate: &Option<Rate>, at: u64, timeout: Option<u64>, moment: Option<u64>) -> Option<u64>
    ensures { result ≡ held_back rate.now at timeout moment }
{
    let Some(rate) = rate else {
        return moment;
    };
    let moment = moment?;
    if moment <= at && rate.room(at) == 0 {
        sooner(timeout, Some(rate.next_moment(at)))
    } else {
        Some(moment)
    }
}

/// Sends the message of an action, if it has one, a contact is open and the rate permits it.
fn send_named<L: Link, K: Desk, T: Turn, W: Waker>(
    is_open: bool,
    at: u64,
    action: Option<OutAction<&[u8]>>,
    buffer: &mut Buffer,
    rate: &mut Option<Rate>,
    ends: &mut Ends<L, K, T, W>,
)
    ensures rate { rate.new
        ≡ rate_after rate.old (sender_packets is_open (option_map out_action_bytes action.entry)) at }
    ensures told { TellsMore ends.old.sent ends.new.sent
        (let_out rate.old (sender_packets is_open (option_map out_action_bytes action.entry)) at) }
    ensures same { ends.new ≡ record ends.old { sent = ends.new.sent } }
{
    match action {
        Some(OutAction::Send(message)) if is_open => ends.send_at(message, buffer, rate, at),
        Some(_) | None => {}
    }
}

/// Whether the rate permits a packet at a moment; if so, its cost is spent.
pub(crate) fn let_one_out(rate: &mut Option<Rate>, packet: &[u8], at: u64) -> bool
    requires { length packet.now ≤ MAX_PACKET }
    ensures state { rate.new ≡ rate_after_one rate.old packet.now at }
    ensures whether { result ≡ lets_out rate.old packet.now at }
{
    match rate {
        Some(rate) => rate.take(packet.len() as u32, at),
        None => true,
    }
}

/// The sooner of two moments, of those that there are.
pub(crate) fn sooner(one: Option<u64>, other: Option<u64>) -> Option<u64>
    ensures { result ≡ sooner one other }
{
    match (one, other) {
        (Some(one), Some(other)) => Some(one.min(other)),
        (None, other) => other,
        (one, None) => one,
    }
}
