ghost use Rattle.std.specs.Prelude.{◌≡◌, ◌≤◌};
ghost use Rattle.rly_law.specs.ControlLaw.{IsStep, step_of};

/// Maximum interval of the law: one hour, in microseconds. Its square fits 64 bits.
pub const LONGEST_INTERVAL: u64 = 3_600_000_000;

/// Returns the time from drop number `count` of a dropping phase to the next drop, in microseconds like `interval` (RFC
/// 8289 section 5, `control_law`, rounded down to an integer).
///
/// The result may be 0.
pub fn step(interval: u64, count: u64) -> u64
    requires interval { interval ≤ LONGEST_INTERVAL }
    requires count { 1 ≤ count }
    ensures greatest { IsStep interval count result }
    ensures value { result ≡ step_of interval count }
    ensures within { result ≤ interval }
{
    (interval * interval / count).isqrt()
}
