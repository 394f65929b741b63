//! A Data that goes out again and again while shorter ones after it arrive.

ghost use Rattle.std.specs.Prelude.{◌≡◌, ◌%◌, set};
ghost use Rattle.rly_link_log.specs.SentData.{after_message, after_sending, is_marked, is_stalled, no_sending, none_sent};
ghost use Rattle.rly_link_log.specs.SentData.{passes_shorter, stalled_cause, times_after};

use crate::heard_data::seat_of;
use crate::seen::{Seen, SeenData};
use rly_hop::marks;
use rly_station::LinkCause;

/// How many Data are kept: as many as are in flight at most.
const SEATS: usize = 64;

/// How often a Data goes out before that is shown.
const TIMES: u64 = 10;

/// A payload of at most this many bytes fits the packets of each link uncut.
const UNCUT: usize = 512;

/// A Data that went out: its number, the length of its payload in bytes, and how many times it went out.
#[derive(Clone, Copy)]
pub(crate) struct Sending {
    number: u64,
    length: usize,
    times: u64,
}

/// The last 64 Data that went out, each at its number modulo 64, and the neighbour's last Heard.
#[derive(Clone, Copy)]
pub(crate) struct SentData {
    seats: [Sending; SEATS],
    /// The last number that the neighbour stored, and the marks of those after it.
    last: u64,
    bits: u64,
}

/// None.
const NO_SENDING: Sending = Sending {
    number: 0,
    length: 0,
    times: 0,
};

impl SentData {
    /// None yet.
    pub(crate) fn new() -> SentData
        ensures { result ≡ none_sent }
    {
        SentData {
            seats: [NO_SENDING; SEATS],
            last: 0,
            bits: 0,
        }
    }

    /// A message of the neighbour is heard. A Data that it refused did arrive, and is counted anew.
    pub(crate) fn hear(&mut self, seen: Seen)
        ensures { self.new ≡ after_message self.old seen }
    {
        match seen {
            Seen::Heard { last, bits } => {
                self.last = last;
                self.bits = bits;
            }
            Seen::Refused { number, .. } => self.seats[seat_of(number)] = NO_SENDING,
            Seen::Data(_) | Seen::Custody(_) | Seen::Strange { .. } | Seen::Other => {}
        }
    }

    /// A Data goes out. Returns what that shows.
    pub(crate) fn send(&mut self, datum: SeenData) -> Option<LinkCause>
        ensures cause { result ≡ stalled_cause self.old datum }
        ensures after { self.new ≡ after_sending self.old datum }
    {
        let times = self.times_after(datum.number);
        self.seats[seat_of(datum.number)] = Sending {
            number: datum.number,
            length: datum.length,
            times,
        };
        if times >= TIMES && self.is_stalled(datum) {
            return Some(LinkCause::Stalled {
                number: datum.number,
                length: datum.length,
            });
        }
        None
    }

    /// How many times the Data of a number went out, with one more.
    fn times_after(&self, number: u64) -> u64
        ensures { result ≡ times_after self.now number }
    {
        let before = self.seats[seat_of(number)];
        if before.number == number {
            return before.times.saturating_add(1);
        }
        1
    }

    /// Whether a Data is long enough to be cut, and the first that the neighbour lacks, while a shorter one arrived.
    fn is_stalled(&self, datum: SeenData) -> bool
        ensures { result ≡ is_stalled self.now datum }
    {
        datum.length > UNCUT
            && datum.number > self.last
            && datum.number - self.last == 1
            && self.passes_shorter(datum.length)
    }

    /// Whether a Data that is shorter arrived.
    fn passes_shorter(&self, length: usize) -> bool
        ensures { result ≡ passes_shorter self.now length }
    {
        self.seats.iter().any(|sending| sending.length < length && self.is_marked(sending.number))
    }

    /// Whether the neighbour's last Heard says that the Data of a number arrived.
    fn is_marked(&self, number: u64) -> bool
        ensures { result ≡ is_marked self.now number }
    {
        number > self.last && marks(self.bits, number - self.last - 1)
    }
}
