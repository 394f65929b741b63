ghost use Rattle.std.specs.Prelude.{◌≡◌, ◌<◌, ◌++◌, codes};
ghost use Rattle.jiff.specs.Words.{iso_datetime_text};
ghost use Rattle.rly_core.specs.declared.limits.TheConstants.{MOMENT_LIMIT as THE_LIMIT};
ghost use Rattle.rly_plan_show.specs.Utc.{utc_text};

use jiff::Timestamp;
use jiff::civil::DateTime;
use jiff::tz::Offset;
use rly_core::limits::MOMENT_LIMIT;
use std::fmt;

/// A moment in microseconds since the Unix epoch. It displays as its date and time of day in UTC, in the form of
/// RFC 3339.
#[derive(Clone, Copy, PartialEq, Eq)]
pub struct Utc {
    moment: u64,
    ghost in_range: { moment < THE_LIMIT },
}

impl Utc {
    ghost use Rattle.std.specs.Prelude.{◌≡◌, ◌<◌};

    /// A moment within the range of a plan.
    pub fn of(moment: u64) -> Utc
        requires { moment < MOMENT_LIMIT }
        ensures { result.moment ≡ moment }
    {
        Utc { moment }
    }
}

impl fmt::Display for Utc {
    ghost use Rattle.std.specs.Prelude.{Some};
    ghost use Rattle.rly_plan_show.specs.Utc.{utc_text};

    ghost output = { λ utc. Some (utc_text utc.moment) };

    fn fmt<W: fmt::Write>(&self, f: &mut fmt::Formatter<W>) -> fmt::Result {
        write!(f, "{}Z", clock_at(self.moment))
    }
}

/// The date and time of day in UTC.
fn clock_at(moment: u64) -> DateTime
    requires { moment < MOMENT_LIMIT }
    ensures { iso_datetime_text result ++ codes "Z" ≡ utc_text moment }
{
    let instant = Timestamp::from_microsecond(moment as i64).unwrap();
    Offset::UTC.to_datetime(instant)
}
