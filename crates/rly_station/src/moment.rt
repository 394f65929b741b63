//! Microseconds of a clock's time.

ghost use Rattle.std.specs.Prelude.{◌≡◌};
ghost use Rattle.rly_station.specs.Moment.{moment_of};

use std::time::Duration;

/// A clock's time in microseconds: 0 if the clock can't be read or is before its start, and at most the last value
/// of 64 bits.
pub fn moment_of(time: Option<Duration>) -> u64
    ensures { result ≡ moment_of time }
{
    match time {
        Some(time) => u64::try_from(time.as_micros()).unwrap_or(u64::MAX),
        None => 0,
    }
}
