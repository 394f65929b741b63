//! What was sent to a hop, and what was heard of it.

ghost use Rattle.std.specs.Prelude.{◌≡◌, ◌+◌, ◌<◌, ◌^◌, ◌==◌};
ghost use Rattle.rly_hop_pacing.specs.Scoreboards.{after_heard, after_sending, empty_board, forgotten, heard_if};
ghost use Rattle.rly_hop_pacing.specs.Scoreboards.{heard_one, is_after_timeout, is_unanswered};
ghost use Rattle.rly_hop_pacing.specs.Scoreboards.{is_heard, is_passed, is_reordered, is_repeated_before, is_told};
ghost use Rattle.rly_hop_pacing.specs.Scoreboards.{last_sent, last_sent_at, on_opening, passed_after, repeated_after};
ghost use Rattle.rly_hop_pacing.specs.Scoreboards.{slot_of, with_late, with_newest};

use crate::moment::moment_after;
use rly_hop::marks;

/// How many numbers have a slot. No window is longer.
pub(crate) const SLOTS: usize = 64;

/// The last sending of a number.
#[derive(Clone, Copy)]
pub(crate) struct Sent {
    /// The number, or 0 if the slot has none.
    pub(crate) number: u64,
    /// The moment, in microseconds.
    pub(crate) at: u64,
    /// Its place among all sendings to the hop, from 1 on.
    pub(crate) order: u64,
    /// Whether the number was sent before.
    pub(crate) again: bool,
    /// The epoch in which the number was last heard, or 0.
    pub(crate) heard: u64,
}

/// The last sending of each number in flight, and the numbers that the hop's station has heard (RFC 6675). A number's
/// slot is its remainder modulo 64.
#[derive(Drop)]
pub(crate) struct Scoreboard {
    pub(crate) slots: [Sent; SLOTS],
    /// How many sendings there were.
    pub(crate) count: u64,
    /// The number that was sent last.
    pub(crate) last: u64,
    /// Numbers count as heard if they were heard in this epoch. A Timeout begins another one.
    pub(crate) epoch: u64,
    /// The latest sending that was heard, by its order; 0 if none was in this epoch.
    pub(crate) newest: u64,
    /// How long it took until that sending was heard, in microseconds.
    pub(crate) trip: u64,
    /// Whether this is the time of a number that was sent once and not heard before (Karn's rule).
    pub(crate) is_sample: bool,
    /// How many numbers were ever heard, each counted once.
    pub(crate) news: u64,
    /// How many of them had been sent once when they were heard.
    pub(crate) firsts: u64,
    /// The last sending before the last Timeout, by its order.
    pub(crate) lost: u64,
    /// The last sending before the last Timeout at which nothing had been heard since the one before, by its order.
    pub(crate) silent: u64,
    /// The greatest number that was heard.
    pub(crate) ahead: u64,
    /// The epoch in which a number last came late, after a greater one; 0 if none did.
    pub(crate) late: u64,
}

impl Scoreboard {
    /// Nothing was sent.
    pub(crate) fn new() -> Scoreboard
        ensures { result ≡ empty_board }
    {
        Scoreboard {
            slots: [NOT_SENT; SLOTS],
            count: 0,
            last: 0,
            epoch: 1,
            newest: 0,
            trip: 0,
            is_sample: false,
            news: 0,
            firsts: 0,
            lost: 0,
            silent: 0,
            ahead: 0,
            late: 0,
        }
    }

    /// The last sending of a number. If its slot has another number, it is the sending of that one.
    fn slot(&self, number: u64) -> Sent
        ensures { result ≡ last_sent self.now number }
    {
        self.slots[slot_of(number)]
    }

    /// Whether a number was heard in this epoch.
    pub(crate) fn is_heard(&self, number: u64) -> bool
        ensures { result ≡ is_heard self.now number }
    {
        let sent = self.slot(number);
        sent.number == number && sent.heard == self.epoch
    }

    /// Whether a number that was sent later was heard, at least `slack` after this one should have been.
    pub(crate) fn is_passed(&self, number: u64, at: u64, slack: u64) -> bool
        ensures { result ≡ is_passed self.now number at slack }
    {
        let sent = self.slot(number);
        sent.order < self.newest && self.trip.saturating_add(slack) <= at.saturating_sub(sent.at)
    }

    /// The moment from which this holds, if it doesn't yet and one that was sent later was heard.
    pub(crate) fn passed_after(&self, number: u64, at: u64, slack: u64) -> Option<u64>
        ensures { result ≡ passed_after self.now number at slack }
    {
        let sent = self.slot(number);
        if sent.order < self.newest {
            moment_after(sent.at, self.trip.saturating_add(slack), at)
        } else {
            None
        }
    }

    /// Whether a number was last sent after the last Timeout.
    pub(crate) fn is_after_timeout(&self, number: u64) -> bool
        ensures { result ≡ is_after_timeout self.now number }
    {
        self.lost < self.slot(number).order
    }

    /// Whether a number was never heard.
    pub(crate) fn is_unheard(&self, number: u64) -> bool
        ensures { result ≡ ((last_sent self.now number).heard == 0) }
    {
        self.slot(number).heard == 0
    }

    /// Whether a number was last sent before a Timeout, and nothing was heard between that and the one before.
    pub(crate) fn is_unanswered(&self, number: u64) -> bool
        ensures { result ≡ is_unanswered self.now number }
    {
        self.slot(number).order <= self.silent
    }

    /// Whether a number was sent more than once, the last time at least `wait` ago.
    pub(crate) fn is_repeated_before(&self, number: u64, at: u64, wait: u64) -> bool
        ensures { result ≡ is_repeated_before self.now number at wait }
    {
        let sent = self.slot(number);
        sent.again && wait <= at.saturating_sub(sent.at)
    }

    /// The moment from which this holds, if it doesn't yet and the number was sent more than once.
    pub(crate) fn repeated_after(&self, number: u64, at: u64, wait: u64) -> Option<u64>
        ensures { result ≡ repeated_after self.now number at wait }
    {
        let sent = self.slot(number);
        if sent.again {
            moment_after(sent.at, wait, at)
        } else {
            None
        }
    }

    /// When a number was last sent.
    pub(crate) fn last_sent_at(&self, number: u64) -> u64
        ensures { result ≡ last_sent_at self.now number }
    {
        self.slot(number).at
    }

    /// Whether a number was sent more than once.
    pub(crate) fn was_repeated(&self, number: u64) -> bool
        ensures { result ≡ (last_sent self.now number).again }
    {
        self.slot(number).again
    }

    /// A number is sent.
    pub(crate) fn on_sent(&mut self, number: u64, at: u64)
        ensures { self.new ≡ after_sending self.old number at }
    {
        let before = self.slot(number);
        let is_same = before.number == number;
        self.count = self.count.saturating_add(1);
        self.last = number;
        self.slots[slot_of(number)] = Sent {
            number,
            at,
            order: self.count,
            again: is_same,
            heard: if is_same { before.heard } else { 0 },
        };
    }

    /// The hop's station reports that it has heard the numbers up to `last`, and those after it whose bits are set:
    /// those of them among the `count` numbers after `covered` count as heard.
    pub(crate) fn hear(
        &mut self,
        covered: u64,
        count: u64,
        last: u64,
        bits: u64,
        at: u64,
        trip: u64,
    )
        requires { covered + count < 2 ^ 64 }
        ensures { self.new ≡ after_heard self.old (is_told last bits) at trip covered count }
    {
        for place in 0..count {
            let number = covered + place + 1;
            self.hear_if(is_told(last, bits, number), number, at, trip);
        }
    }

    /// A number was heard, or not.
    fn hear_if(&mut self, is_told: bool, number: u64, at: u64, trip: u64)
        ensures { self.new ≡ heard_if is_told self.old at trip number }
    {
        if is_told {
            self.hear_one(number, at, trip);
        }
    }

    /// A number was heard, at this moment and with this round trip.
    fn hear_one(&mut self, number: u64, at: u64, trip: u64)
        ensures { self.new ≡ heard_one self.old at trip number }
    {
        let sent = self.slot(number);
        if sent.number != number || sent.heard == self.epoch {
            return;
        }
        self.note_newest(sent, at, trip);
        self.note_late(sent);
        if sent.heard == 0 {
            self.news = self.news.saturating_add(1);
            self.firsts = self.firsts.saturating_add(u64::from(!sent.again));
        }
        self.slots[slot_of(number)] = Sent {
            heard: self.epoch,
            ..sent
        };
    }

    /// A sending was heard: the latest, if it was sent after the latest before. If the number was sent more than once,
    /// an earlier sending may have been heard: it counts only if a round trip fits, an eighth less at most (RFC 8985,
    /// section 6.2).
    fn note_newest(&mut self, sent: Sent, at: u64, trip: u64)
        ensures { self.new ≡ with_newest self.old sent at trip }
    {
        let passed = at.saturating_sub(sent.at);
        if self.newest < sent.order && (!sent.again || trip - trip / 8 <= passed) {
            self.newest = sent.order;
            self.trip = passed;
            self.is_sample = !sent.again && sent.heard == 0;
        }
    }

    /// A sending was heard. If it is the first of its number, which is less than one that was heard before, the link
    /// reorders.
    fn note_late(&mut self, sent: Sent)
        ensures { self.new ≡ with_late self.old sent }
    {
        if !sent.again && sent.heard == 0 && sent.number < self.ahead {
            self.late = self.epoch;
        }
        self.ahead = self.ahead.max(sent.number);
    }

    /// Whether a number came late in this epoch.
    pub(crate) fn is_reordered(&self) -> bool
        ensures { result ≡ is_reordered self.now }
    {
        self.late == self.epoch
    }

    /// Forgets which numbers were heard, and the latest sending of them.
    pub(crate) fn forget(&mut self, is_answered: bool)
        ensures { self.new ≡ forgotten self.old is_answered }
    {
        if self.newest == 0 && !is_answered {
            self.silent = self.count;
        }
        self.lost = self.count;
        self.epoch = self.epoch.saturating_add(1);
        self.newest = 0;
    }

    /// A contact opens: forgets which numbers were heard. No earlier sending counts as the latest.
    pub(crate) fn begin(&mut self)
        ensures { self.new ≡ on_opening self.old }
    {
        self.epoch = self.epoch.saturating_add(1);
        self.newest = self.count;
    }
}

/// A slot without a number.
const NOT_SENT: Sent = Sent {
    number: 0,
    at: 0,
    order: 0,
    again: false,
    heard: 0,
};

/// The slot of a number.
fn slot_of(number: u64) -> usize
    ensures { result ≡ slot_of number }
{
    (number % 64) as usize
}

/// Whether a report of the numbers up to `last` and of the bits after it is about this number.
fn is_told(last: u64, bits: u64, number: u64) -> bool
    ensures { result ≡ is_told last bits number }
{
    number <= last || marks(bits, number - last - 1)
}
