use rly_plan::{KeyPath, PlanKey, Row, Spot};
use std::fmt;

/// What is wrong with a plan that is none the less a plan; displays as what it is and what to do.
#[derive(Clone, Copy, PartialEq, Eq)]
pub enum Mistake {
    /// A neighbour has the number of the plan's own station.
    OwnNumber,
    /// A `listen` has no port, or port 0.
    NoPort,
    /// A `listen` is that of another link, at this location.
    SameListen(KeyPath),
    /// A `listen` and its `remote` are of IPv4 and IPv6.
    TwoFamilies,
    /// All contacts of a hop end before the year 2000.
    LongAgo,
    /// All contacts of a hop are past.
    Past,
    /// The rest leads back to the station of a peer.
    RestLeadsBack,
}

impl fmt::Display for Mistake {
    ghost use Rattle.std.specs.Prelude.{Some};
    ghost use Rattle.rly_plan_show.specs.PlanWarnings.{mistake_text};

    ghost output = { λ mistake. Some (mistake_text mistake) };

    fn fmt<W: fmt::Write>(&self, f: &mut fmt::Formatter<W>) -> fmt::Result {
        match self {
            Mistake::OwnNumber => {
                f.write_str("this station's own number; write the neighbour's")
            }
            Mistake::NoPort => f.write_str("no port, or port 0; write ADDRESS:PORT"),
            Mistake::SameListen(place) => {
                write!(f, "the same as {place}; give each link a port of its own")
            }
            Mistake::TwoFamilies => {
                f.write_str("IPv4 beside IPv6; write listen and remote in one of them")
            }
            Mistake::LongAgo => f.write_str(
                "all end before the year 2000; write microseconds since 1970, not seconds",
            ),
            Mistake::Past => f.write_str("all are past; write later ones, or nothing goes out"),
            Mistake::RestLeadsBack => f.write_str(
                "\"rest\" leads back here: what this station gives without a route is refused (2); lead \"rest\" elsewhere",
            ),
        }
    }
}

/// A warning of `rly plan`; displays as its line, without the newline.
#[derive(Clone, Copy, PartialEq, Eq)]
pub struct PlanWarning {
    /// The location in the plan.
    pub place: KeyPath,
    /// What is wrong there.
    pub mistake: Mistake,
}

impl PlanWarning {
    ghost use Rattle.std.specs.Prelude.{◌≡◌};
    ghost use Rattle.rly_plan_show.specs.PlanWarnings.{warning_at};

    /// A mistake at a key of a table.
    pub(crate) fn at(row: Row, number: u64, key: PlanKey, mistake: Mistake) -> PlanWarning
        ensures { result ≡ warning_at row number key mistake }
    {
        PlanWarning {
            place: KeyPath::In(row, number, Spot::At(key)),
            mistake,
        }
    }
}

impl fmt::Display for PlanWarning {
    ghost use Rattle.std.specs.Prelude.{Some};
    ghost use Rattle.rly_plan_show.specs.PlanWarnings.{warning_text};

    ghost output = { λ warning. Some (warning_text warning) };

    fn fmt<W: fmt::Write>(&self, f: &mut fmt::Formatter<W>) -> fmt::Result {
        write!(f, "rly: plan: {}: {}", self.place, self.mistake)
    }
}
