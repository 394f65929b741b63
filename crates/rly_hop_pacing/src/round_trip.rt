ghost use Rattle.std.specs.Prelude.{◌≡◌, min};
ghost use Rattle.rly_hop_pacing.specs.RoundTrips.{deviation, doubled_wait, first_round_trip, longest_wait, measured_wait};
ghost use Rattle.rly_hop_pacing.specs.RoundTrips.{next_round_trip, plain_wait, after_sample};

/// The longest sample of a round trip, in microseconds: somewhat above 71 minutes. A longer one counts as this.
pub(crate) const LONGEST: u64 = 4_294_967_295;

/// The wait before the first sample, in microseconds.
pub(crate) const FIRST_WAIT: u64 = 1_000_000;

/// The maximum of a doubled wait, in microseconds.
pub(crate) const LONGEST_DOUBLED: u64 = 60_000_000;

/// In a contact that is nearly over a wait still doubles up to this.
const LEAST_DOUBLED: u64 = 10_000_000;

/// The smoothed round trip of a hop and its variation, in microseconds (RFC 6298, section 2).
#[derive(Clone, Copy)]
pub struct RoundTrip {
    pub smoothed: u32,
    pub variation: u32,
}

impl RoundTrip {
    /// The estimate after a sample, given the one before it, if there is one.
    pub fn after_sample(before: Option<RoundTrip>, passed: u64) -> RoundTrip
        ensures { result ≡ after_sample before passed }
    {
        let sample = passed.min(LONGEST) as u32;
        match before {
            None => RoundTrip {
                smoothed: sample,
                variation: sample / 2,
            },
            Some(trip) => trip.next(sample),
        }
    }

    /// A further sample.
    fn next(self, sample: u32) -> RoundTrip
        ensures { result ≡ next_round_trip self sample }
    {
        let distance = deviation(self.smoothed, sample);
        let smoothed = (7 * u64::from(self.smoothed) + u64::from(sample)) / 8;
        let variation = (3 * u64::from(self.variation) + u64::from(distance)) / 4;
        RoundTrip {
            smoothed: smoothed as u32,
            variation: variation as u32,
        }
    }

    /// The retransmission timeout of this estimate.
    fn wait(self) -> u64
        ensures { result ≡ measured_wait self }
    {
        let smoothed = u64::from(self.smoothed);
        smoothed + (4 * u64::from(self.variation)).max(smoothed / 2).max(1)
    }
}

/// The distance of two numbers.
fn deviation(a: u32, b: u32) -> u32
    ensures { result ≡ deviation a b }
{
    if a < b { b - a } else { a - b }
}

/// The wait before a Timeout that isn't doubled, for a hop's `resend` in microseconds.
pub(crate) fn plain_wait(resend: u64, trip: Option<RoundTrip>) -> u64
    ensures { result ≡ plain_wait resend trip }
{
    match trip {
        None => resend.max(FIRST_WAIT),
        Some(trip) => resend.max(trip.wait()),
    }
}

/// The wait after a further Timeout.
pub(crate) fn doubled_wait(wait: u64, longest: u64) -> u64
    ensures { result ≡ doubled_wait wait longest }
{
    wait.max(wait.saturating_mul(2).min(longest))
}

/// The longest doubled wait if this many microseconds are left of the contact.
pub(crate) fn longest_wait(left: Option<u64>) -> u64
    ensures { result ≡ longest_wait left }
{
    match left {
        None => LONGEST_DOUBLED,
        Some(left) => (left / 16).max(LEAST_DOUBLED).min(LONGEST_DOUBLED),
    }
}
