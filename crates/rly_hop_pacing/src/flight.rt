ghost use Rattle.std.specs.Prelude.{◌≡◌, ◌+◌, ◌<◌, ◌^◌};
ghost use Rattle.rly_hop_pacing.specs.Flights.{covers, flight_on_covered, flight_on_sent, in_flight_count, sent_count, set_back};

use crate::scoreboard::SLOTS;

/// The numbers in flight to a hop.
#[derive(Clone, Copy)]
pub(crate) struct Flight {
    /// The greatest number that is covered.
    pub(crate) covered: u64,
    /// The greatest number that was sent since the core was last set back, and `covered` if none was.
    pub(crate) reached: u64,
    /// The greatest number that was ever sent, or that may have been.
    pub(crate) highest: u64,
}

impl Flight {
    /// A number was sent.
    pub(crate) fn sent(&mut self, number: u64)
        ensures { self.new ≡ flight_on_sent self.old number }
    {
        self.reached = self.reached.max(number);
        self.highest = self.highest.max(number);
    }

    /// The flight is sent again from its first number on.
    pub(crate) fn set_back(&mut self)
        ensures { self.new ≡ set_back self.old }
    {
        self.reached = self.covered;
    }

    /// Numbers up to `last` are covered.
    pub(crate) fn cover(&mut self, last: u64)
        ensures { self.new ≡ flight_on_covered self.old last }
    {
        self.covered = last;
        self.reached = self.reached.max(last);
    }

    /// Whether a custody of the numbers up to `last` covers a number in flight.
    pub(crate) fn covers(&self, last: u64) -> bool
        ensures { result ≡ covers self.now last }
    {
        self.covered < last && last <= self.highest
    }

    /// How many numbers are in flight, of at most 64.
    pub(crate) fn in_flight(self) -> u64
        ensures count { result ≡ in_flight_count self }
        ensures fits { self.covered + result < 2 ^ 64 }
    {
        self.highest.saturating_sub(self.covered).min(SLOTS as u64)
    }

    /// How many of them were sent since the core was last set back.
    pub(crate) fn sent_count(&self) -> u64
        ensures { result ≡ sent_count self.now }
    {
        self.reached.saturating_sub(self.covered).min(SLOTS as u64)
    }

    /// The number at a place among those.
    pub(crate) fn sent_number(self, place: u64) -> u64
        requires { place < sent_count self }
        ensures { result ≡ self.covered + 1 + place }
    {
        self.covered + 1 + place
    }
}
