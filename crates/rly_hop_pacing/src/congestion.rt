ghost use Rattle.std.specs.Prelude.{◌≡◌, ◌-◌, ◌≤◌};
ghost use Rattle.rly_hop_pacing.specs.Windows.{faster, first_congestion, first_span, fitting, is_full, numbers_of};
ghost use Rattle.rly_hop_pacing.specs.Windows.{on_round, passed_in, shortest, span_with, widened, with_step};

use crate::round_trip::LONGEST;
use crate::scoreboard::SLOTS;

/// The initial window, in datagrams (RFC 6928).
const FIRST_WINDOW: u32 = 10;

/// The least window after the first, in datagrams.
const LEAST_WINDOW: u32 = 4;

/// How many rounds a span has.
const SPAN: u64 = 8;

/// After this many rounds without a repeat the window grows by one in each.
const CALM: u64 = 64;

/// By how many microseconds round trips differ though no buffer of the link fills (RFC 9406): both ends write to their
/// disks and wake their threads meanwhile.
const JITTER: u32 = 4_000;

/// How many numbers were heard in a time.
#[derive(Clone, Copy)]
pub(crate) struct DeliveryRate {
    pub(crate) numbers: u16,
    pub(crate) micros: u32,
}

/// Several rounds: the greatest rate and the shortest duration among them.
#[derive(Clone, Copy)]
pub(crate) struct Span {
    pub(crate) rate: DeliveryRate,
    pub(crate) shortest: u32,
}

/// A round: from one sending until it, or a later one, is heard. A round trip, if nothing is lost.
#[derive(Clone, Copy)]
pub(crate) struct Round {
    /// The last sending before it, by its order.
    pub(crate) mark: u64,
    pub(crate) began: u64,
    /// How many numbers were ever heard before it.
    pub(crate) news: u64,
    /// How many numbers were sent again in it.
    pub(crate) repeats: u64,
    /// Whether a turn had no room in it.
    pub(crate) is_limited: bool,
}

/// How many numbers may be on the way to a hop whose rate isn't known: as many as it takes to keep the greatest rate at
/// which they are heard (after BBR). With a known rate, the hop's window.
#[derive(Clone, Copy)]
pub(crate) struct Congestion {
    /// The hop's window.
    pub(crate) window: u32,
    /// Whether the hop has a rate.
    pub(crate) is_rated: bool,
    /// How many numbers may be on the way.
    pub(crate) allowed: u32,
    /// Whether the window still doubles.
    pub(crate) is_starting: bool,
    pub(crate) span: Span,
    /// The span before.
    pub(crate) before: Span,
    /// How many rounds of this span are over.
    pub(crate) rounds: u64,
    /// How many rounds there were since the last with a repeat.
    pub(crate) calm: u64,
}

impl DeliveryRate {
    /// The faster of two.
    fn faster(self, other: DeliveryRate) -> DeliveryRate
        ensures { result ≡ faster self other }
    {
        let own = u64::from(self.numbers) * u64::from(other.micros);
        let others = u64::from(other.numbers) * u64::from(self.micros);
        if own < others { other } else { self }
    }

    /// How many numbers are heard in this many microseconds at this many sixteenths of the rate, rounded up.
    fn passed_in(self, micros: u32, sixteenths: u64) -> u64
        requires { sixteenths ≤ 32 }
        ensures { result ≡ passed_in self micros sixteenths }
    {
        let whole = 16 * u64::from(self.micros.max(1));
        (u64::from(self.numbers) * u64::from(micros) * sixteenths + (whole - 1)) / whole
    }
}

impl Span {
    /// No round.
    fn new() -> Span
        ensures { result ≡ first_span }
    {
        Span {
            rate: DeliveryRate {
                numbers: 0,
                micros: 1,
            },
            shortest: u32::MAX,
        }
    }

    /// One round more.
    fn with(self, rate: DeliveryRate) -> Span
        ensures { result ≡ span_with self rate }
    {
        Span {
            rate: self.rate.faster(rate),
            shortest: self.shortest.min(rate.micros),
        }
    }
}

impl Congestion {
    /// At the start, and when a contact opens.
    pub(crate) fn begin(window: u64, is_rated: bool) -> Congestion
        ensures { result ≡ first_congestion window is_rated }
    {
        let window = window.min(SLOTS as u64) as u32;
        Congestion {
            window,
            is_rated,
            allowed: if is_rated {
                window
            } else {
                window.min(FIRST_WINDOW)
            },
            is_starting: true,
            span: Span::new(),
            before: Span::new(),
            rounds: 0,
            calm: 0,
        }
    }

    /// A round ends: `heard` numbers were heard in `micros`, `repeats` were sent again, and the sending by which it ends
    /// took `trip` until it was heard. `is_limited` tells whether as many numbers were sent in it as may be on the way.
    pub(crate) fn end_round(
        &mut self,
        heard: u64,
        micros: u64,
        repeats: u64,
        trip: u64,
        is_limited: bool,
    )
        ensures { self.new ≡ on_round self.old heard micros repeats trip is_limited }
    {
        if self.is_rated {
            return;
        }
        let numbers = self.numbers(heard, repeats, trip);
        let rate = DeliveryRate {
            numbers,
            micros: micros.min(LONGEST).max(1) as u32,
        };
        self.span = self.span.with(rate);
        self.calm = if repeats > 0 {
            0
        } else {
            self.calm.saturating_add(1)
        };
        self.is_starting &= !self.is_full(trip);
        if is_limited {
            self.widen();
        }
    }

    /// How many numbers count as heard in a round: those that were, and, unless the link is full, what was sent again,
    /// up to half as many. So loss that isn't the link's own doesn't lower the rate.
    fn numbers(&self, heard: u64, repeats: u64, trip: u64) -> u16
        ensures { result ≡ numbers_of self.now heard repeats trip }
    {
        let more = if self.is_starting || self.is_full(trip) {
            0
        } else {
            repeats.min(heard / 2)
        };
        heard.saturating_add(more).min(u64::from(u16::MAX)) as u16
    }

    /// The shortest round of this span and the one before.
    pub(crate) fn shortest(&self) -> u32
        ensures { result ≡ shortest self.now }
    {
        self.span.shortest.min(self.before.shortest)
    }

    /// Whether a buffer of the link fills: a round trip takes an eighth longer than the shortest round, and at least
    /// `JITTER` longer.
    fn is_full(&self, trip: u64) -> bool
        ensures { result ≡ is_full self.now trip }
    {
        let shortest = u64::from(self.shortest());
        shortest + (shortest / 8).max(u64::from(JITTER)) <= trip
    }

    /// A round of the span is over. After the last one, another span begins, and the window no longer doubles.
    fn step(&mut self)
        ensures { self.new ≡ with_step self.old }
    {
        if self.rounds < SPAN - 1 {
            self.rounds += 1;
            return;
        }
        self.rounds = 0;
        self.is_starting = false;
        self.before = self.span;
        self.span = Span::new();
    }

    /// The window changes after a round in which it was used up.
    fn widen(&mut self)
        ensures { self.new ≡ widened self.old }
    {
        if !self.is_starting && self.calm >= CALM {
            self.allowed = self.allowed.saturating_add(1).min(self.window);
            return;
        }
        self.step();
        self.allowed = self.fitting();
    }

    /// The window that keeps the greatest rate: while starting twice as much as that rate brings in the shortest round,
    /// then an eighth more, so that it grows if the link carries more, and in the first round of each span a sixteenth
    /// less, so that what waits in the link's buffer goes out. A round counts as at least `JITTER`.
    fn fitting(&self) -> u32
        ensures { result ≡ fitting self.now }
    {
        let rate = self.span.rate.faster(self.before.rate);
        let (sixteenths, least) = if self.is_starting {
            (32, FIRST_WINDOW)
        } else if self.rounds == 0 {
            (15, LEAST_WINDOW)
        } else {
            (18, LEAST_WINDOW)
        };
        let round = self.shortest().max(JITTER);
        rate.passed_in(round, sixteenths)
            .max(u64::from(least))
            .min(u64::from(self.window)) as u32
    }
}
