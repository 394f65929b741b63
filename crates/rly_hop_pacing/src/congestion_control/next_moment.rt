//! When a sending worker has something to do by itself.

ghost use Rattle.std.specs.Prelude.{◌≡◌, if◌then◌else◌, Some, None};
ghost use Rattle.rly_hop_pacing.specs.CongestionControl.{first_option, is_missing};
ghost use Rattle.rly_hop_pacing.specs.Moments.{sooner};
ghost use Rattle.rly_hop_pacing.specs.NextMoments.{again_after, can_send, credit_after, first_missing, has_to_send};
ghost use Rattle.rly_hop_pacing.specs.NextMoments.{has_work, is_paced, missing_after, next_moment, number_after};
ghost use Rattle.rly_hop_pacing.specs.NextMoments.{probe_after, spare_after, next_timeout};

use crate::congestion_control::CongestionControl;
use crate::moment::{moment_after, sooner};

impl CongestionControl {
    /// The next moment at which a turn may have something to do if no packet comes, in microseconds: a Timeout comes, or
    /// something may be sent. It is `at` if that is so already, and `None` if it never is. Asked after a turn at `at` in
    /// which nothing was sent. `wants` tells whether the caller's core would send something new if there were room. The
    /// hop's rate isn't looked at: where it alone holds back what may be sent, `Rate::next_moment` and `next_timeout` say
    /// how long.
    pub fn next_moment(&self, at: u64, wants: bool) -> Option<u64>
        ensures { result ≡ next_moment self.now at wants }
    {
        if !self.is_open {
            None
        } else if self.has_work(at, wants) {
            Some(at)
        } else {
            let sent = sooner(self.probe_after(at), self.credit_after(at, wants));
            sooner(self.next_timeout(at), sooner(self.again_after(at), sent))
        }
    }

    /// The moment of the next Timeout, in microseconds: `None` if one is due, or if none will come without more being sent.
    pub fn next_timeout(&self, at: u64) -> Option<u64>
        ensures { result ≡ next_timeout self.now at }
    {
        let since = self.waiting_since()?;
        self.timer.moment(since, at)
    }

    /// Whether a turn at this moment has something to do if no packet comes.
    fn has_work(&self, at: u64, wants: bool) -> bool
        ensures { result ≡ has_work self.now at wants }
    {
        self.is_timeout(at) || self.can_send(at, wants)
    }

    /// Whether something may be sent at this moment.
    fn can_send(&self, at: u64, wants: bool) -> bool
        ensures { result ≡ can_send self.now at wants }
    {
        self.has_to_send(at, wants) && self.room(at) > 0
    }

    /// Whether something is to be sent if there is room: a number again, or a new one.
    fn has_to_send(&self, at: u64, wants: bool) -> bool
        ensures { result ≡ has_to_send self.now at wants }
    {
        wants || self.first_missing(at).is_some() || self.spare(at).is_some()
    }

    /// The first number that goes out again now.
    fn first_missing(&self, at: u64) -> Option<u64>
        ensures { result ≡ first_missing self.now at }
    {
        let mut found = None;
        for place in 0..self.sent_count() {
            let number = self.sent_number(place);
            found = self.found_or_missing(found, number, at);
        }
        found
    }

    /// The number that was found, or else this one, if it is missing.
    fn found_or_missing(&self, found: Option<u64>, number: u64, at: u64) -> Option<u64>
        ensures { result ≡ first_option found (if is_missing self.now at number then Some number else None) }
    {
        if found.is_none() && self.is_missing(number, at) {
            Some(number)
        } else {
            found
        }
    }

    /// The first moment after this one at which a number begins to be missing or spare.
    fn again_after(&self, at: u64) -> Option<u64>
        ensures { result ≡ again_after self.now at }
    {
        let mut first = None;
        for place in 0..self.sent_count() {
            let number = self.sent_number(place);
            first = self.sooner_number(first, number, at);
        }
        first
    }

    /// The moment that was found, or the one of this number, if it is earlier.
    fn sooner_number(&self, first: Option<u64>, number: u64, at: u64) -> Option<u64>
        ensures { result ≡ sooner first (number_after self.now at number) }
    {
        let again = sooner(self.missing_after(number, at), self.spare_after(number, at));
        sooner(first, again)
    }

    /// The moment at which a number begins to be missing.
    fn missing_after(&self, number: u64, at: u64) -> Option<u64>
        ensures { result ≡ missing_after self.now at number }
    {
        if !self.is_reporting || self.board.is_heard(number) {
            return None;
        }
        self.board.passed_after(number, at, self.slack())
    }

    /// The moment at which a number begins to be spare, if the window is full then, and something was heard within two
    /// round trips.
    fn spare_after(&self, number: u64, at: u64) -> Option<u64>
        ensures { result ≡ spare_after self.now at number }
    {
        if self.board.is_heard(number) {
            return None;
        }
        let wait = u64::from(self.timer.round_trip() / 4);
        let moment = self.board.repeated_after(number, at, wait)?;
        if self.is_wide(moment) {
            Some(moment)
        } else {
            None
        }
    }

    /// The moment of the probe.
    fn probe_after(&self, at: u64) -> Option<u64>
        ensures { result ≡ probe_after self.now at }
    {
        moment_after(self.quiet_since()?, self.probe_wait(), at)
    }

    /// The moment at which the pacer has room, if that alone holds back what is to be sent.
    fn credit_after(&self, at: u64, wants: bool) -> Option<u64>
        ensures { result ≡ credit_after self.now at wants }
    {
        if !self.has_to_send(at, wants) || !self.is_paced(at) {
            return None;
        }
        self.pacer
            .moment(self.congestion.allowed, self.congestion.shortest(), at)
    }

    /// Whether the pacer alone may hold back what is to be sent.
    fn is_paced(&self, at: u64) -> bool
        ensures { result ≡ is_paced self.now at }
    {
        !self.congestion.is_rated && !self.is_recovering() && self.window_room(at) > 0
    }
}
