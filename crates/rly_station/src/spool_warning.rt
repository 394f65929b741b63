//! What a spool shows its operator.

use rly_core::{HopId, PeerId};
use std::fmt;
use std::fmt::{Display, Formatter};

/// Why a spool discarded a datagram that waited.
#[derive(Clone, Copy, PartialEq, Eq)]
pub enum Discard {
    /// CoDel dropped it.
    Dropped,
    /// It waited longer than its limit.
    Expired,
}

/// Where a discarded datagram came from.
#[derive(Clone, Copy, PartialEq, Eq)]
pub struct Origin {
    /// The neighbour that sent it.
    pub peer: PeerId,
    /// Its destination: `None` if its payload was too short to name one.
    pub destination: Option<u16>,
    /// How long it waited, in microseconds of open contact.
    pub waited: u64,
}

/// The datagrams that a spool holds or may hold, and their payload bytes.
#[derive(Clone, Copy, PartialEq, Eq)]
pub struct Load {
    pub items: u64,
    pub bytes: u64,
}

/// What a spool shows: the discard of a datagram, or how full it is; displays as its text in the log.
#[derive(Clone, Copy, PartialEq, Eq)]
pub enum SpoolWarning {
    /// A datagram was discarded: its hop, the cause, its id, its origin if it is known, and the number of its kind so far.
    Discarded {
        hop: HopId,
        cause: Discard,
        id: u64,
        origin: Option<Origin>,
        count: u64,
    },
    /// At least 90 % of the datagrams or bytes are in use: those, and the limits.
    Filling {
        used: Load,
        limits: Load,
    },
    /// Fewer than 80 % of the datagrams and bytes are in use again.
    Relieved {
        used: Load,
        limits: Load,
    },
    /// More than half of the datagrams that the spool may hold are for one hop.
    Crowding {
        hop: HopId,
        items: u64,
        limit: u64,
    },
}

impl Display for Origin {
    ghost use Rattle.std.specs.Prelude.{Some};
    ghost use Rattle.rly_station.specs.SpoolWarnings.{origin_text};

    ghost output = { λ origin. Some (origin_text origin) };

    fn fmt<W: fmt::Write>(&self, f: &mut Formatter<W>) -> fmt::Result {
        let peer = self.peer.0;
        match self.destination {
            Some(station) => write!(f, "of peer {peer} for station {station}"),
            None => write!(f, "of peer {peer}"),
        }
    }
}

/// A discard of a datagram of known origin; displays as its text in the log, after the hop.
#[derive(Clone, Copy, PartialEq, Eq)]
struct KnownDiscard {
    cause: Discard,
    id: u64,
    origin: Origin,
}

impl Display for KnownDiscard {
    ghost use Rattle.std.specs.Prelude.{Some};
    ghost use Rattle.rly_station.specs.SpoolWarnings.{discard_text};

    ghost output = { λ d. Some (discard_text d.cause d.id (Some d.origin)) };

    fn fmt<W: fmt::Write>(&self, f: &mut Formatter<W>) -> fmt::Result {
        let id = self.id;
        let origin = self.origin;
        let waited = origin.waited / 1_000;
        match self.cause {
            Discard::Dropped => write!(
                f,
                "CoDel dropped datagram {id} {origin} after {waited} ms of open contact"
            ),
            Discard::Expired => write!(
                f,
                "datagram {id} {origin} expired after {waited} ms of open contact"
            ),
        }
    }
}

/// A discard of a datagram of unknown origin; displays as its text in the log, after the hop.
#[derive(Clone, Copy, PartialEq, Eq)]
struct UnknownDiscard {
    cause: Discard,
    id: u64,
}

impl Display for UnknownDiscard {
    ghost use Rattle.std.specs.Prelude.{None, Some};
    ghost use Rattle.rly_station.specs.SpoolWarnings.{discard_text};

    ghost output = { λ d. Some (discard_text d.cause d.id None) };

    fn fmt<W: fmt::Write>(&self, f: &mut Formatter<W>) -> fmt::Result {
        let id = self.id;
        match self.cause {
            Discard::Dropped => write!(
                f,
                "CoDel dropped datagram {id}, stored before this start or long ago"
            ),
            Discard::Expired => write!(
                f,
                "datagram {id}, stored before this start or long ago, expired"
            ),
        }
    }
}

impl Display for SpoolWarning {
    ghost use Rattle.std.specs.Prelude.{Some};
    ghost use Rattle.rly_station.specs.SpoolWarnings.{spool_text};

    ghost output = { λ warning. Some (spool_text warning) };

    fn fmt<W: fmt::Write>(&self, f: &mut Formatter<W>) -> fmt::Result {
        match *self {
            SpoolWarning::Discarded {
                hop,
                cause,
                id,
                origin: Some(origin),
                count,
            } => {
                let discard = KnownDiscard { cause, id, origin };
                write!(f, "hop {}: {discard} ({count} so far)", hop.0)
            }
            SpoolWarning::Discarded {
                hop,
                cause,
                id,
                origin: None,
                count,
            } => {
                let discard = UnknownDiscard { cause, id };
                write!(f, "hop {}: {discard} ({count} so far)", hop.0)
            }
            SpoolWarning::Filling { used, limits } => write!(
                f,
                "spool: {} of {} datagrams, {} of {} bytes: 90 % full",
                used.items, limits.items, used.bytes, limits.bytes
            ),
            SpoolWarning::Relieved { used, limits } => write!(
                f,
                "spool: {} of {} datagrams, {} of {} bytes: under 80 %",
                used.items, limits.items, used.bytes, limits.bytes
            ),
            SpoolWarning::Crowding { hop, items, limit } => write!(
                f,
                "hop {}: {items} of {limit} datagrams are for it: more than half of the spool",
                hop.0
            ),
        }
    }
}
