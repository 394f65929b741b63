//! The count of one kind of warning, and the rule by which it is logged.

ghost use Rattle.std.specs.Prelude.{◌≡◌, List, ℕ};
ghost use Rattle.rly_station.specs.Kinds.{AreApart, after_one, due_number, is_due, lines_of, no_kind};

/// The number of one kind per log line, after the first.
const LOGGED_EVERY: u64 = 1_000;

/// The minimum time between two lines of a kind, in microseconds.
const SECOND: u64 = 1_000_000;

/// The time after which one of a kind is logged as a first is, in microseconds.
const HOUR: u64 = 3_600_000_000;

/// The warnings of one kind so far: their number, the moment of the last, and that of the last one logged. The moments
/// are those of the monotonic clock, in microseconds.
#[derive(Clone, Copy, PartialEq, Eq)]
pub struct KindCount {
    count: u64,
    last: u64,
    told: u64,
}

impl KindCount {
    /// None yet.
    pub fn new() -> KindCount
        ensures { result ≡ no_kind }
    {
        KindCount {
            count: 0,
            last: 0,
            told: 0,
        }
    }

    /// Counts one at a moment. Returns its number if it is to be logged: the first, the first after an hour, and each
    /// thousandth unless one was logged less than a second ago.
    pub fn add(&mut self, now: u64) -> Option<u64>
        ensures number { result ≡ due_number self.old now }
        ensures after { self.new ≡ after_one self.old now }
    {
        let is_due = self.is_due(now);
        self.count = self.count.saturating_add(1);
        self.last = self.last.max(now);
        if is_due {
            self.told = now;
            return Some(self.count);
        }
        None
    }

    /// Whether one at this moment is to be logged.
    fn is_due(&self, now: u64) -> bool
        ensures { result ≡ is_due self.now now }
    {
        if self.count == 0 || now.saturating_sub(self.last) >= HOUR {
            return true;
        }
        let is_one_of_many = self.count.saturating_add(1) % LOGGED_EVERY == 0;
        is_one_of_many && now.saturating_sub(self.told) >= SECOND
    }

    /// Lines of a kind are at least a second apart, whatever the moments.
    pub fn law_lines_are_apart()
        ensures { (moments : List ℕ) → AreApart (lines_of no_kind moments) }
    {}
}
