ghost use Rattle.std.specs.Prelude.{◌≡◌, Some};
ghost use Rattle.rly_hop_pacing.specs.Timers.{first_timer, is_past, round_trip, timer_anew};
ghost use Rattle.rly_hop_pacing.specs.Timers.{timer_limited, timer_moment, timer_on_sample, timer_on_timeout};

use crate::moment::moment_after;
use crate::round_trip::{FIRST_WAIT, LONGEST_DOUBLED, RoundTrip, doubled_wait, plain_wait};

/// The retransmission timer of a hop (RFC 6298), in microseconds.
#[derive(Clone, Copy)]
pub(crate) struct Timer {
    /// The hop's `resend`: the minimum wait.
    pub(crate) resend: u64,
    /// The round-trip estimate, if there is one.
    pub(crate) trip: Option<RoundTrip>,
    /// The wait before the next Timeout.
    pub(crate) wait: u64,
    /// Up to this a Timeout doubles the wait.
    pub(crate) longest: u64,
}

impl Timer {
    /// The initial timer of a hop.
    pub(crate) fn new(resend: u64) -> Timer
        ensures { result ≡ first_timer resend }
    {
        Timer {
            resend,
            trip: None,
            wait: plain_wait(resend, None),
            longest: LONGEST_DOUBLED,
        }
    }

    /// The round trip: a second before the first sample.
    pub(crate) fn round_trip(&self) -> u32
        ensures { result ≡ round_trip self.now }
    {
        match self.trip {
            None => FIRST_WAIT as u32,
            Some(trip) => trip.smoothed,
        }
    }

    /// A round trip was measured.
    pub(crate) fn sample(&mut self, passed: u64)
        ensures { self.new ≡ timer_on_sample self.old passed }
    {
        self.trip = Some(RoundTrip::after_sample(self.trip, passed));
        self.begin();
    }

    /// Ends the doubling of the wait.
    pub(crate) fn begin(&mut self)
        ensures { self.new ≡ timer_anew self.old }
    {
        self.wait = plain_wait(self.resend, self.trip);
    }

    /// A hop that gets its numbers one by one covered one more, this long after the one before: a doubled wait is at most
    /// twice as long.
    pub(crate) fn limit(&mut self, passed: u64)
        ensures { self.new ≡ timer_limited self.old passed }
    {
        let plain = plain_wait(self.resend, self.trip);
        self.wait = plain.max(self.wait.min(passed.saturating_mul(2)));
    }

    /// Whether the wait has passed since a moment.
    pub(crate) fn is_past(&self, since: u64, at: u64) -> bool
        ensures { result ≡ is_past self.now since at }
    {
        self.wait <= at.saturating_sub(since)
    }

    /// The moment at which it will have passed, if it hasn't.
    pub(crate) fn moment(&self, since: u64, at: u64) -> Option<u64>
        ensures { result ≡ timer_moment self.now since at }
    {
        moment_after(since, self.wait, at)
    }

    /// The timer expired.
    pub(crate) fn time_out(&mut self)
        ensures { self.new ≡ timer_on_timeout self.old }
    {
        self.wait = doubled_wait(self.wait, self.longest);
    }
}
