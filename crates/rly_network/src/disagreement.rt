ghost use Rattle.std.specs.Prelude.{◌≡◌, ◌∷◌, ◌++◌, [], IfOk, OnOk, string_bytes};
ghost use Rattle.rly_network.specs.Disagreements.{found_at, found_if};
ghost use Rattle.rly_network.specs.Texts.{disagreement_lines};

use crate::station_plan::StationPlan;
use rly_plan::{KeyPath, PlanKey, Row, Spot};
use std::alloc::{AllocError, Global};
use std::fmt;

/// Where the way of a datagram goes wrong, by the number of a station.
#[derive(Clone, Copy, PartialEq, Eq)]
pub enum Trouble {
    /// The station has no route for it.
    NoRoute(u16),
    /// The station's hop for it has no contacts.
    NeverOpen(u16),
    /// It ends in a folder of the station, which isn't the destination's.
    Elsewhere(u16),
    /// It never ends, and comes through the station.
    Circle(u16),
}

impl fmt::Display for Trouble {
    ghost use Rattle.std.specs.Prelude.{Some};
    ghost use Rattle.rly_network.specs.Texts.{trouble_text};

    ghost output = { λ trouble. Some (trouble_text trouble) };

    fn fmt<W: fmt::Write>(&self, f: &mut fmt::Formatter<W>) -> fmt::Result {
        match self {
            Trouble::NoRoute(station) => {
                write!(f, "stops at station {station}, which has no route for it")
            }
            Trouble::NeverOpen(station) => write!(
                f,
                "stops at station {station}, whose hop for it has no contacts"
            ),
            Trouble::Elsewhere(station) => {
                write!(f, "ends at station {station}, which isn't its own")
            }
            Trouble::Circle(station) => { write!(f, "goes in a circle through station {station}") }
        }
    }
}

/// What the plans of a network disagree on; displays as what it is.
#[derive(Clone, Copy, PartialEq, Eq)]
pub enum Conflict {
    /// Another plan has the station's number.
    SameStation,
    /// The plan has more hops than the device, which has this many.
    FewHops(u64),
    /// The plan has more peers than the device, which has this many.
    FewPeers(u64),
    /// No plan of the station is there.
    NoPlan(u16),
    /// The station has no peer at a socket for this one.
    NoPeer(u16),
    /// The station takes only shorter payloads than this one.
    ShortPayload(u16),
    /// It isn't where the station listens for this one.
    NotListening(u16),
    /// It isn't where the station sends to this one.
    NotSending(u16),
    /// Only one of this station and that one has a key.
    OneKey(u16),
    /// The way of a destination, or of the rest if there is none, goes wrong.
    Astray(Option<u16>, Trouble),
}

impl fmt::Display for Conflict {
    ghost use Rattle.std.specs.Prelude.{Some};
    ghost use Rattle.rly_network.specs.Texts.{conflict_text};

    ghost output = { λ conflict. Some (conflict_text conflict) };

    fn fmt<W: fmt::Write>(&self, f: &mut fmt::Formatter<W>) -> fmt::Result {
        match self {
            Conflict::SameStation => f.write_str("another plan has this number"),
            Conflict::FewHops(most) => write!(f, "the device has only {most}"),
            Conflict::FewPeers(most) => write!(f, "the device has only {most}"),
            Conflict::NoPlan(station) => write!(f, "no plan of station {station} is given"),
            Conflict::NoPeer(station) => write!(
                f,
                "station {station} has no peer at a socket for this station"
            ),
            Conflict::ShortPayload(station) => {
                write!(f, "station {station} takes only shorter payloads")
            }
            Conflict::NotListening(station) => {
                write!(f, "not where station {station} listens for this one")
            }
            Conflict::NotSending(station) => {
                write!(f, "not where station {station} sends to this one")
            }
            Conflict::OneKey(station) => {
                write!(
                    f,
                    "only one of this station and station {station} has a key"
                )
            }
            Conflict::Astray(Some(to), trouble) => write!(f, "destination {to} {trouble}"),
            Conflict::Astray(None, trouble) => write!(f, "\"rest\" {trouble}"),
        }
    }
}

/// A disagreement of the plans of a network; displays as its line, without the newline.
#[derive(Clone, Copy, PartialEq, Eq)]
pub struct Disagreement {
    /// The number of the station in whose plan it is.
    pub station: u16,
    /// The location in that plan.
    pub place: KeyPath,
    /// What is wrong there.
    pub conflict: Conflict,
}

impl fmt::Display for Disagreement {
    ghost use Rattle.std.specs.Prelude.{Some};
    ghost use Rattle.rly_network.specs.Texts.{disagreement_text};

    ghost output = { λ found. Some (disagreement_text found) };

    fn fmt<W: fmt::Write>(&self, f: &mut fmt::Formatter<W>) -> fmt::Result {
        write!(
            f,
            "station {}: {}: {}",
            self.station, self.place, self.conflict
        )
    }
}

/// Appends a disagreement, if it is one.
pub(crate) fn push_if(
    found: &mut Vec<Disagreement>,
    is: bool,
    disagreement: Disagreement,
) -> Result<(), AllocError>
    ensures { OnOk result (found.new.items ≡ found.old.items ++ found_if is disagreement) }
{
    if is {
        found.push(disagreement)?;
    }
    Ok(())
}

/// Appends a disagreement at a key of a table of a station's plan.
pub(crate) fn push_at(
    found: &mut Vec<Disagreement>,
    station: &StationPlan,
    row: Row,
    number: u64,
    key: PlanKey,
    conflict: Conflict,
) -> Result<(), AllocError>
    ensures { OnOk result (found.new.items
        ≡ found.old.items ++ found_at station.now.plan.station row number key conflict ∷ []) }
{
    found.push(Disagreement {
        station: station.plan.station(),
        place: KeyPath::In(row, number, Spot::At(key)),
        conflict,
    })?;
    Ok(())
}

/// The lines of disagreements. `Err`: out of memory.
pub fn lines_of(alloc: Global, found: &[Disagreement]) -> Result<String, AllocError>
    ensures { IfOk result (λ text. string_bytes text ≡ disagreement_lines found.now) }
{
    let mut text = String::new(alloc);
    for disagreement in found {
        writeln!(&mut text, "{disagreement}")?;
    }
    Ok(text)
}
