//! The log of what stops a link to a socket.

ghost use Rattle.std.specs.Prelude.{◌≡◌, ◌<◌, []};
ghost use Rattle.rly_link_log.specs.HeardData.{no_data};
ghost use Rattle.rly_link_log.specs.LinkLog.{HasCounted, HasNotedHeard, HasNotedSent, custody_in, first_cause, kind_of};
ghost use Rattle.rly_link_log.specs.LinkLog.{link_view, new_link_view, second_cause, sent_after, silence_after};
ghost use Rattle.rly_link_log.specs.SentData.{none_sent};
ghost use Rattle.rly_link_log.specs.Silence.{no_silence};
ghost use Rattle.rly_station.specs.Warnings.{logged_warnings};

use crate::back_routes::BackRoutes;
use crate::heard_data::HeardData;
use crate::link_causes::cause_heard;
use crate::seen::{Seen, seen_in};
use crate::sent_data::SentData;
use crate::silence::Silence;
use rly_hop::StationId;
use rly_link::Worker;
use rly_station::{KindCount, LinkCause, Logger, Warning};

/// The refusals that are kinds of their own; those with a greater number are one more.
const REFUSALS: usize = 32;

/// The number of kinds: the refusals that are sent, those that are heard, and the other causes.
const KINDS: usize = 2 * REFUSALS + 6;

/// Logs what stops a worker's link at a socket, as far as its packets show it: of each kind the first, and each thousandth.
#[derive(Drop)]
pub struct LinkLog {
    worker: Worker,
    own: StationId,
    peer: StationId,
    /// The link has no key.
    is_open: bool,
    backs: BackRoutes,
    kinds: [KindCount; KINDS],
    silence: Silence,
    heard: HeardData,
    sent: SentData,
    teller: Logger,
}

impl LinkLog {
    /// The log of a worker's link from station `peer` to station `own`, with a key or without, and with the plan's routes that
    /// lead back to the peer: nothing yet.
    pub fn new(
        worker: Worker,
        own: StationId,
        peer: StationId,
        is_open: bool,
        backs: BackRoutes,
        teller: Logger,
    ) -> LinkLog
        requires { logged_warnings teller ≡ [] }
        ensures { link_view result ≡ new_link_view worker own peer is_open backs.routes.items }
    {
        LinkLog {
            worker,
            own,
            peer,
            is_open,
            backs,
            kinds: [KindCount::new(); KINDS],
            silence: Silence::new(),
            heard: HeardData::new(),
            sent: SentData::new(),
            teller,
        }
    }

    /// The link heard a packet at a moment, in microseconds of the monotonic clock.
    pub fn hear(&mut self, packet: &[u8], now: u64)
        ensures { HasNotedHeard packet.now now self.old self.new }
    {
        let seen = seen_in(self.peer, self.own, packet);
        let cause = cause_heard(self.is_open, self.own, self.peer, &self.backs, packet, seen);
        self.silence.end(custody_in(seen));
        self.sent.hear(seen);
        self.heard.hear(seen);
        self.count(cause, now);
    }

    /// The link sends a packet at a moment, in microseconds of the monotonic clock.
    pub fn send(&mut self, packet: &[u8], now: u64)
        ensures { HasNotedSent packet.now now self.old self.new }
    {
        let seen = seen_in(self.own, self.peer, packet);
        let first = first_cause(&mut self.silence, &self.heard, seen, now);
        let second = second_cause(&mut self.sent, seen);
        self.count(first, now);
        self.count(second, now);
    }

    /// Counts a cause, if one was seen, and logs it if it is due.
    fn count(&mut self, cause: Option<LinkCause>, now: u64)
        ensures { HasCounted self.old self.new cause now }
    {
        let Some(cause) = cause else {
            return;
        };
        let worker = self.worker;
        if let Some(count) = self.kinds[kind_of(cause)].add(now) {
            self.teller.log(Warning::Link {
                worker,
                cause,
                count,
            });
        }
    }
}

/// A packet goes out at a moment. Returns the refusal that it is, with its datagram's destination, or what it shows of a
/// silence.
fn first_cause(silence: &mut Silence, heard: &HeardData, seen: Seen, now: u64) -> Option<LinkCause>
    ensures cause { result ≡ first_cause silence.old heard.now seen now }
    ensures after { silence.new ≡ silence_after silence.old seen now }
{
    match seen {
        Seen::Data(data) => silence.note_data(data.number, now),
        Seen::Refused { number, refusal } => Some(LinkCause::Refuses {
            number,
            refusal,
            destination: heard.destination(number),
        }),
        Seen::Custody(_) | Seen::Heard { .. } | Seen::Strange { .. } | Seen::Other => None,
    }
}

/// A packet goes out. Returns what it shows of a Data that is lost while shorter ones arrive.
fn second_cause(sent: &mut SentData, seen: Seen) -> Option<LinkCause>
    ensures cause { result ≡ second_cause sent.old seen }
    ensures after { sent.new ≡ sent_after sent.old seen }
{
    match seen {
        Seen::Data(data) => sent.send(data),
        _ => None,
    }
}

/// The custody in a message that is heard, if it is one.
fn custody_in(seen: Seen) -> Option<u64>
    ensures { result ≡ custody_in seen }
{
    match seen {
        Seen::Custody(last) => Some(last),
        _ => None,
    }
}

/// The kind of a cause.
fn kind_of(cause: LinkCause) -> usize
    ensures kind { result ≡ kind_of cause }
    ensures bound { result < 70 }
{
    let others = 2 * REFUSALS;
    match cause {
        LinkCause::Refuses { refusal, .. } => usize::from(refusal).min(REFUSALS - 1),
        LinkCause::IsRefused { refusal, .. } => {
            REFUSALS + usize::from(refusal).min(REFUSALS - 1)
        }
        LinkCause::OtherStations { .. } => others,
        LinkCause::Tagged => others + 1,
        LinkCause::OtherAddress { .. } => others + 2,
        LinkCause::Silent { .. } => others + 3,
        LinkCause::Stalled { .. } => others + 4,
        LinkCause::LedBack { .. } => others + 5,
    }
}
