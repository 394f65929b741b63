ghost use Rattle.std.specs.Prelude.{◌≡◌, ◌+◌, ◌<◌, ◌&&◌, ◌∷◌, ◌++◌, [], if◌then◌else◌, length, nat_lt, Some, None};
ghost use Rattle.rly_hop_pacing.specs.CongestionControl.{ControlView, first_control, first_round, is_due_number, is_missing};
ghost use Rattle.rly_hop_pacing.specs.Flights.{sent_count};
ghost use Rattle.rly_hop_pacing.specs.CongestionControl.{first_option, is_closed, is_on_way, is_recovering, is_spare};
ghost use Rattle.rly_hop_pacing.specs.CongestionControl.{is_opening, is_stopped, is_timeout, is_wide, on_contact, on_covered};
ghost use Rattle.rly_hop_pacing.specs.CongestionControl.{ends_doubling, on_custody, on_left};
ghost use Rattle.rly_hop_pacing.specs.CongestionControl.{on_heard, on_report, on_sent, on_time, on_window, open_room};
ghost use Rattle.rly_hop_pacing.specs.CongestionControl.{probe_number, repeats, slack, spare_number, spare_of, unrated_room};
ghost use Rattle.rly_hop_pacing.specs.CongestionControl.{may_time_out, probe_wait, quiet_if_probe, unsent_count};
ghost use Rattle.rly_hop_pacing.specs.CongestionControl.{waiting_since, way_count, window_room, with_round_over};

mod next_moment;

use crate::congestion::{Congestion, Round};
use crate::flight::Flight;
use crate::pacer::Pacer;
use crate::round_trip::longest_wait;
use crate::scoreboard::{SLOTS, Scoreboard};
use crate::timer::Timer;
use arrayvec::ArrayVec;
use std::marker::Model;

/// How many new numbers a further Timeout lets out, to a station that never sent a Heard.
const FURTHER: u64 = 4;

/// How many numbers go out again if Timeouts follow each other and the window is full.
const STOPPED: u64 = 8;

/// Numbers to send again, in ascending order.
pub type Numbers = ArrayVec<u64, SLOTS>;

/// The congestion control of a hop's core: what is sent again, how much may be sent, and when
/// (`docs/ARCHITECTURE.md`, "The pace of a hop"). The caller reports the numbers that are sent, the messages received and
/// the state of the contact, in order. Times are microseconds of a monotonic clock; if the clock falls, no time has
/// passed.
#[derive(Drop)]
pub struct CongestionControl {
    is_open: bool,
    flight: Flight,
    board: Scoreboard,
    timer: Timer,
    congestion: Congestion,
    pacer: Pacer,
    round: Round,
    covered_at: u64,
    news_at: Option<u64>,
    is_due: bool,
    recover: u64,
    is_reporting: bool,
    is_answered: bool,
}

impl Model for CongestionControl {
    ghost use Rattle.rly_hop_pacing.specs.CongestionControl.{ControlView};

    ghost Value = { ControlView };

    ghost view = { λ p. record {
      is_open = p.is_open;
      flight = p.flight;
      board = p.board;
      timer = p.timer;
      congestion = p.congestion;
      pacer = p.pacer;
      round = p.round;
      covered_at = p.covered_at;
      news_at = p.news_at;
      is_due = p.is_due;
      recover = p.recover;
      is_reporting = p.is_reporting;
      is_answered = p.is_answered;
    } };
}

impl CongestionControl {
    /// The congestion control of a hop with this `resend`, in milliseconds, and this window, before a contact is open.
    /// `is_rated` tells whether the hop has a rate, by which the caller limits what is sent.
    pub fn new(resend: u32, window: u64, is_rated: bool) -> CongestionControl
        ensures { result ≡ first_control resend window is_rated }
    {
        CongestionControl {
            is_open: false,
            flight: Flight {
                covered: 0,
                reached: 0,
                highest: 0,
            },
            board: Scoreboard::new(),
            timer: Timer::new(u64::from(resend) * 1_000),
            congestion: Congestion::begin(window, is_rated),
            pacer: Pacer::new(),
            round: Round {
                mark: 0,
                began: 0,
                news: 0,
                repeats: 0,
                is_limited: false,
            },
            covered_at: 0,
            news_at: None,
            is_due: false,
            recover: 0,
            is_reporting: false,
            is_answered: false,
        }
    }

    /// Whether a contact was open when it was told last.
    pub fn is_open(&self) -> bool
        ensures { result ≡ self.now.is_open }
    {
        self.is_open
    }

    /// Reports whether a contact is open; called first in each turn. Returns true if one has just opened: the caller
    /// then gives the core a Timeout, so that it sends again from the start of its flight.
    pub fn contact(&mut self, is_open: bool) -> bool
        ensures state { self.new ≡ on_contact self.old is_open }
        ensures opening { result ≡ is_opening self.old is_open }
    {
        let opens = is_open && !self.is_open;
        self.is_open = is_open;
        if opens {
            self.flight.set_back();
            self.board.begin();
            self.timer.begin();
            self.congestion = Congestion::begin(
                u64::from(self.congestion.window),
                self.congestion.is_rated,
            );
            self.round.mark = self.board.count;
            self.news_at = None;
            self.is_due = false;
            self.recover = 0;
        }
        opens
    }

    /// Reports how many microseconds are left of the contact, or that it has no end. A Timeout doubles the wait up to a sixteenth
    /// of it, at least 10 seconds and at most 60.
    pub fn left_is(&mut self, left: Option<u64>)
        ensures { self.new ≡ on_left self.old left }
    {
        self.timer.longest = longest_wait(left);
    }

    /// Reports a custody of the numbers up to `last`, from the hop's station to the own one. One that covers no number
    /// in flight changes nothing.
    pub fn on_covered(&mut self, last: u64, at: u64)
        ensures { self.new ≡ on_covered self.old last at }
    {
        if self.flight.covers(last) {
            let was_recovering = self.is_recovering();
            self.report(last, 0, at);
            self.flight.cover(last);
            if self.timer.trip.is_some() {
                self.timer.begin();
            } else if was_recovering {
                self.timer.limit(at.saturating_sub(self.covered_at));
            }
            self.covered_at = at;
            self.news_at = Some(at);
            self.is_due = self.is_recovering();
        }
    }

    /// Whether what was sent before a Timeout isn't covered yet, by a station that never sent a Heard: it may have kept
    /// none of it. So it gets that again one by one, each as the one before is covered, and new numbers, of which one makes
    /// a station that knows Heards send one. Only a Timeout after news begins this: one before was perhaps too early.
    fn is_recovering(&self) -> bool
        ensures { result ≡ is_recovering self.now }
    {
        !self.is_reporting && self.flight.covered < self.recover.min(self.flight.reached)
    }

    /// Reports a Custody from the hop's station to the own one, of the number before the flight or of one in it; called after
    /// `on_covered`. The station is at work, so the wait is no longer doubled. If the wait that isn't doubled has passed, the
    /// first number in flight goes out again, and so isn't drawn by another one before that wait has passed once more.
    pub fn on_custody(&mut self, at: u64)
        ensures { self.new ≡ on_custody self.old at }
    {
        if !self.ends_doubling() {
            return;
        }
        let was_timeout = self.is_timeout(at);
        self.timer.begin();
        self.is_answered = true;
        self.is_due |= self.is_timeout(at) && !was_timeout;
    }

    /// Whether a Custody ends the doubling: not while the answers to copies of a number that took long may come, before a
    /// round trip was measured.
    fn ends_doubling(&self) -> bool
        ensures { result ≡ ends_doubling self.now }
    {
        self.timer.trip.is_some() || self.news_at.is_none()
    }

    /// Reports a Heard from the hop's station to the own one. One from before the last custody changes nothing.
    pub fn on_heard(&mut self, last: u64, bits: u64, at: u64)
        ensures { self.new ≡ on_heard self.old last bits at }
    {
        if self.flight.covered <= last && last <= self.flight.highest {
            self.is_reporting = true;
            self.report(last, bits, at);
        }
    }

    /// The hop's station has the numbers up to `last`, and those after it whose bits are set.
    fn report(&mut self, last: u64, bits: u64, at: u64)
        ensures { self.new ≡ on_report self.old last bits at }
    {
        let trip = u64::from(self.timer.round_trip());
        let (news, firsts) = (self.board.news, self.board.firsts);
        let count = self.flight.in_flight();
        self.board
            .hear(self.flight.covered, count, last, bits, at, trip);
        if news < self.board.news {
            self.news_at = Some(at);
        }
        if firsts < self.board.firsts && self.timer.trip.is_some() {
            self.timer.begin();
        }
        if self.round.mark < self.board.newest {
            self.end_round(at);
        }
    }

    /// A round ends, and another begins.
    fn end_round(&mut self, at: u64)
        ensures { self.new ≡ with_round_over self.old at }
    {
        if self.board.is_sample {
            self.timer.sample(self.board.trip);
        }
        let sent = self.board.count.saturating_sub(self.round.mark);
        let is_limited = self.round.is_limited || u64::from(self.congestion.allowed) <= sent;
        self.congestion.end_round(
            self.board.news.saturating_sub(self.round.news),
            at.saturating_sub(self.round.began),
            self.round.repeats,
            self.board.trip,
            is_limited,
        );
        self.begin_round(at);
    }

    fn begin_round(&mut self, at: u64)
        ensures { self.new ≡ record self.old { round = first_round self.old.board at } }
    {
        self.round = Round {
            mark: self.board.count,
            began: at,
            news: self.board.news,
            repeats: 0,
            is_limited: false,
        };
    }

    /// The turn's time. If the wait has passed since custody last covered more and since the first number in flight was
    /// last sent, that number goes out again, and what was heard is forgotten.
    pub fn moment(&mut self, at: u64)
        ensures { self.new ≡ on_time self.old at }
    {
        if self.is_timeout(at) {
            if self.news_at.is_some() {
                self.recover = self.flight.reached.saturating_add(1);
            } else if self.is_recovering() && !self.is_answered {
                self.recover = self.flight.reached.saturating_add(FURTHER);
            }
            self.board.forget(self.is_answered);
            self.timer.time_out();
            self.begin_round(at);
            self.news_at = None;
            self.is_due = true;
            self.is_answered = false;
        }
        self.round.is_limited |= self.is_open && self.room(at) == 0;
    }

    /// Whether the wait has passed.
    fn is_timeout(&self, at: u64) -> bool
        ensures { result ≡ is_timeout self.now at }
    {
        match self.waiting_since() {
            None => false,
            Some(since) => self.timer.is_past(since, at),
        }
    }

    /// Since when a Timeout is waited for, if one will come.
    fn waiting_since(&self) -> Option<u64>
        ensures { result ≡ (if may_time_out self.now then Some (waiting_since self.now) else None) }
    {
        let Flight {
            covered,
            reached,
            ..
        } = self.flight;
        if !self.is_open || self.is_due || covered >= reached {
            return None;
        }
        Some(self.board.last_sent_at(covered + 1).max(self.covered_at))
    }

    /// How many numbers may be sent now, those that are sent again among them: 0 while the contact is closed. With a
    /// rate, as many as the hop's window has. If it is not 0, the core may get a turn with its contact open, and may
    /// fetch or pick that many datagrams to send.
    pub fn room(&self, at: u64) -> u64
        ensures { result ≡ open_room self.now at }
    {
        if !self.is_open {
            0
        } else if self.is_recovering() {
            u64::from(self.is_due) + u64::from(self.flight.reached < self.recover)
        } else if self.congestion.is_rated {
            u64::from(self.congestion.window)
        } else {
            self.unrated_room(at)
        }
    }

    /// How many numbers may be sent to a hop whose rate isn't known.
    fn unrated_room(&self, at: u64) -> u64
        ensures { result ≡ unrated_room self.now at }
    {
        let paced = self
            .pacer
            .room(self.congestion.allowed, self.congestion.shortest(), at);
        self.window_room(at).min(paced)
    }

    /// How many more numbers may be on the way to such a hop. The number that a Timeout sends again is one of them,
    /// however many are on the way.
    fn window_room(&self, at: u64) -> u64
        ensures { result ≡ window_room self.now at }
    {
        let left = u64::from(self.congestion.allowed).saturating_sub(self.way_count(at));
        left.max(u64::from(self.is_due))
    }

    /// How many numbers in flight were sent since the core was last set back.
    fn sent_count(&self) -> u64
        ensures { result ≡ sent_count self.now.flight }
    {
        self.flight.sent_count()
    }

    /// The number at a place among them.
    fn sent_number(&self, place: u64) -> u64
        requires { place < sent_count self.now.flight }
        ensures { result ≡ self.now.flight.covered + 1 + place }
    {
        self.flight.sent_number(place)
    }

    /// How many numbers are on the way.
    fn way_count(&self, at: u64) -> u64
        ensures { result ≡ way_count self.now at }
    {
        let mut count = 0;
        for place in 0..self.sent_count() {
            let number = self.sent_number(place);
            count = self.with_way(count, number, at);
        }
        count
    }

    /// One more if a number is on the way.
    fn with_way(&self, count: u64, number: u64, at: u64) -> u64
        requires { count < 64 }
        ensures { result ≡ count + (if is_on_way self.now at number then 1 else 0) }
    {
        if self.is_on_way(number, at) {
            count + 1
        } else {
            count
        }
    }

    /// Whether a number that was sent since the last Timeout is neither heard nor missing.
    fn is_on_way(&self, number: u64, at: u64) -> bool
        ensures { result ≡ is_on_way self.now at number }
    {
        !self.board.is_heard(number)
            && !self.is_missing(number, at)
            && self.board.is_after_timeout(number)
    }

    /// Whether a number that was sent goes out again: a Timeout asks for it, or it isn't heard, although one that was
    /// sent later is, and some time has passed since (RFC 8985), or Timeouts follow each other. A station that never
    /// sent a Heard may have it ahead of a gap: it gets it again by Timeouts alone.
    fn is_missing(&self, number: u64, at: u64) -> bool
        ensures { result ≡ is_missing self.now at number }
    {
        self.is_due_number(number)
            || self.is_reporting
                && !self.board.is_heard(number)
                && (self.board.is_passed(number, at, self.slack()) || self.is_stopped(number))
    }

    /// How long a number may come after one that was sent later: a sixteenth of the round trip, and a quarter if the
    /// link reorders.
    fn slack(&self) -> u64
        ensures { result ≡ slack self.now }
    {
        let trip = u64::from(self.timer.round_trip());
        if self.board.is_reordered() {
            trip / 4
        } else {
            trip / 16
        }
    }

    /// Whether the window is full, so that no new number may go out, and its first number was never heard: it isn't
    /// refused by a full station.
    fn is_closed(&self) -> bool
        ensures { result ≡ is_closed self.now }
    {
        u64::from(self.congestion.window) <= self.flight.sent_count()
            && self.board.is_unheard(self.flight.covered.saturating_add(1))
    }

    /// Whether a number is one of the first of a window that is full, and nothing was heard between two Timeouts since it
    /// was sent.
    fn is_stopped(&self, number: u64) -> bool
        ensures { result ≡ is_stopped self.now number }
    {
        self.is_closed()
            && self.board.is_unanswered(number)
            && number.saturating_sub(self.flight.covered) <= STOPPED
    }

    /// Whether a Timeout asks for a number.
    fn is_due_number(&self, number: u64) -> bool
        ensures { result ≡ is_due_number self.now number }
    {
        self.is_due && number.saturating_sub(1) == self.flight.covered
    }

    /// Lists the numbers that go out again now, at most `most`.
    pub fn missing(&self, most: u64, at: u64, numbers: &mut Numbers)
        requires empty { numbers.old.items ≡ [] }
        ensures { numbers.new.items ≡ repeats self.now most at }
    {
        for place in 0..self.sent_count() {
            let number = self.sent_number(place);
            self.add_missing(most, number, at, numbers);
        }
    }

    /// Adds a number if it goes out again and fewer than `most` are listed.
    fn add_missing(&self, most: u64, number: u64, at: u64, numbers: &mut Numbers)
        requires { length numbers.old.items < 64 }
        ensures { numbers.new.items
            ≡ (if nat_lt (length numbers.old.items) most && is_missing self.now at number
            then numbers.old.items ++ number ∷ [] else numbers.old.items) }
    {
        if (numbers.len() as u64) < most && self.is_missing(number, at) {
            numbers.push(number);
        }
    }

    /// A number that goes out again if nothing else does: with a rate, one that was sent again before, if the window is
    /// full; or the last one, if nothing was heard for two round trips (a tail loss probe, RFC 8985).
    pub fn spare(&self, at: u64) -> Option<u64>
        ensures { result ≡ spare_number self.now at }
    {
        let found = if self.is_wide(at) {
            self.repeated_before(at)
        } else {
            None
        };
        found.or(self.probe(at))
    }

    /// Whether the hop has a rate, its window is full, and something was heard within two round trips.
    fn is_wide(&self, at: u64) -> bool
        ensures { result ≡ is_wide self.now at }
    {
        let Some(news_at) = self.news_at else {
            return false;
        };
        let passed = at.saturating_sub(news_at);
        self.congestion.is_rated
            && u64::from(self.congestion.window) <= self.flight.sent_count()
            && passed <= 2 * u64::from(self.timer.round_trip())
    }

    /// The first number that was sent more than once, the last time a quarter of the round trip ago, and isn't heard.
    fn repeated_before(&self, at: u64) -> Option<u64>
        ensures { result ≡ spare_of self.now at }
    {
        let mut found = None;
        for place in 0..self.sent_count() {
            let number = self.sent_number(place);
            found = self.first_spare(found, number, at);
        }
        found
    }

    /// The first spare number: the one that was found, or else this one, if it is spare.
    fn first_spare(&self, found: Option<u64>, number: u64, at: u64) -> Option<u64>
        ensures { result ≡ first_option found (if is_spare self.now at number then Some number else None) }
    {
        let wait = u64::from(self.timer.round_trip() / 4);
        if found.is_none()
            && !self.board.is_heard(number)
            && self.board.is_repeated_before(number, at, wait)
        {
            Some(number)
        } else {
            found
        }
    }

    /// The tail loss probe: the number that was sent last, once, if nothing was heard for two round trips, and at least
    /// for the hop's `resend`.
    fn probe(&self, at: u64) -> Option<u64>
        ensures { result ≡ probe_number self.now at }
    {
        let since = self.quiet_since()?;
        if self.probe_wait() <= at.saturating_sub(since) {
            Some(self.board.last)
        } else {
            None
        }
    }

    /// Since when nothing was heard, if there may be a probe.
    fn quiet_since(&self) -> Option<u64>
        ensures { result ≡ quiet_if_probe self.now self.now.news_at }
    {
        let news_at = self.news_at?;
        let number = self.board.last;
        if self.is_open
            && self.flight.covered < number
            && number <= self.flight.reached
            && !self.board.is_heard(number)
            && !self.board.was_repeated(number)
        {
            Some(self.board.last_sent_at(number).max(news_at))
        } else {
            None
        }
    }

    /// How long nothing is heard before a probe, in microseconds.
    fn probe_wait(&self) -> u64
        ensures { result ≡ probe_wait self.now }
    {
        (2 * u64::from(self.timer.round_trip())).max(self.timer.resend)
    }

    /// How many of the numbers in flight, those below `next`, weren't sent since the core last started again. They are
    /// sent before any new one.
    pub fn unsent_count(&self, next: u64) -> u64
        ensures { result ≡ unsent_count self.now next }
    {
        next.saturating_sub(self.flight.reached).saturating_sub(1)
    }

    /// Reports that a number is sent, whether or not the packet leaves.
    pub fn on_sent(&mut self, number: u64, at: u64)
        ensures { self.new ≡ on_sent self.old number at }
    {
        if self.flight.reached <= self.flight.covered {
            self.begin_round(at);
        } else if number <= self.flight.reached {
            self.round.repeats = self.round.repeats.saturating_add(1);
        }
        self.pacer
            .spend(self.congestion.allowed, self.congestion.shortest(), at);
        self.is_due &= !self.is_due_number(number);
        self.board.on_sent(number, at);
        self.flight.sent(number);
    }

    /// Reports the window: the numbers from `first` to `next - 1` are in flight, and are sent from the first on.
    pub fn window_is(&mut self, first: u64, next: u64)
        ensures { self.new ≡ on_window self.old first next }
    {
        let covered = first.saturating_sub(1);
        self.flight = Flight {
            covered,
            reached: covered,
            highest: self.flight.highest.max(next.saturating_sub(1)),
        };
        self.board.begin();
        self.round.mark = self.board.count;
        self.news_at = None;
        self.is_due = false;
        self.recover = 0;
    }
}
