//! A link that hears nothing while Data are in flight.

ghost use Rattle.std.specs.Prelude.{◌≡◌};
ghost use Rattle.rly_link_log.specs.Silence.{after_data, after_packet, begins, in_flight, is_silent, no_silence};
ghost use Rattle.rly_link_log.specs.Silence.{silent_cause};

use rly_station::LinkCause;

/// The time in which nothing is heard that is logged, in microseconds.
const MINUTE: u64 = 60_000_000;

/// Data that go out later than this after the ones before them aren't sent again for want of an answer: the contact was
/// closed between them. In microseconds; a Data in flight is sent again once a minute at least.
const PAUSE: u64 = 120_000_000;

/// The Data that a link sent above the custody that it heard, and since when nothing was heard. Moments are in
/// microseconds of the monotonic clock.
#[derive(Clone, Copy, PartialEq, Eq)]
pub(crate) struct Silence {
    /// The least and the greatest number of a Data that was sent: 0 if none was.
    least: u64,
    greatest: u64,
    /// The greatest custody that was heard.
    covered: u64,
    /// A Data was sent since the last packet was heard.
    waits: bool,
    /// The moment of the first of these, or of the last silence that was shown.
    since: u64,
    /// The moment of the last Data.
    last: u64,
}

impl Silence {
    /// Nothing was sent or heard yet.
    pub(crate) fn new() -> Silence
        ensures { result ≡ no_silence }
    {
        Silence {
            least: 0,
            greatest: 0,
            covered: 0,
            waits: false,
            since: 0,
            last: 0,
        }
    }

    /// A packet is heard, and the custody in it, if it is one.
    pub(crate) fn end(&mut self, custody: Option<u64>)
        ensures { self.new ≡ after_packet self.old custody }
    {
        self.waits = false;
        if let Some(custody) = custody {
            self.covered = self.covered.max(custody);
        }
    }

    /// The Data of a number goes out at a moment. Returns what that shows.
    pub(crate) fn note_data(&mut self, number: u64, now: u64) -> Option<LinkCause>
        ensures cause { result ≡ silent_cause self.old number now }
        ensures after { self.new ≡ after_data self.old number now }
    {
        let begins = self.begins(now);
        let is_silent = self.is_silent(now);
        self.note_number(number);
        self.waits = true;
        self.last = now;
        if begins || is_silent {
            self.since = now;
        }
        let in_flight = self.in_flight();
        if is_silent && in_flight > 0 {
            return Some(LinkCause::Silent { in_flight });
        }
        None
    }

    fn note_number(&mut self, number: u64)
        ensures { self.new ≡ record self.old {
          least = (after_data self.old number 0).least;
          greatest = (after_data self.old number 0).greatest;
        } }
    {
        self.least = match self.greatest {
            0 => number,
            _ => self.least.min(number),
        };
        self.greatest = self.greatest.max(number);
    }

    /// Whether the Data that go out unanswered begin with one at this moment.
    fn begins(&self, now: u64) -> bool
        ensures { result ≡ begins self.now now }
    {
        !self.waits || now.saturating_sub(self.last) > PAUSE
    }

    /// Whether nothing was heard for a minute in which Data went out.
    fn is_silent(&self, now: u64) -> bool
        ensures { result ≡ is_silent self.now now }
    {
        !self.begins(now) && now.saturating_sub(self.since) >= MINUTE
    }

    /// How many numbers are in flight.
    fn in_flight(&self) -> u64
        ensures { result ≡ in_flight self.now }
    {
        if self.greatest == 0 {
            return 0;
        }
        let covered = self.covered.max(self.least.saturating_sub(1));
        self.greatest.saturating_sub(covered)
    }
}
