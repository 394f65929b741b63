//! What a link shows its operator to mend.

use rly_core::HopId;
use std::fmt;
use std::fmt::{Display, Formatter};
use std::net::SocketAddr;

/// What stops a link, or may: seen in a packet that it heard or sent, or in those that it doesn't hear.
#[derive(Clone, Copy, PartialEq, Eq)]
pub enum LinkCause {
    /// This station refused the Data of a number, by the refusal of a number. Its destination, if it is known.
    Refuses {
        number: u64,
        refusal: u8,
        destination: Option<u16>,
    },
    /// The neighbour's station refused the Data of a number, by the refusal of a number.
    IsRefused {
        station: u16,
        number: u64,
        refusal: u8,
    },
    /// A packet is from another station than the neighbour's, or to another than this one.
    OtherStations {
        from: u16,
        to: u16,
        neighbour: u16,
        own: u16,
    },
    /// A packet would be a message without its last 16 bytes, and the link has no key.
    Tagged,
    /// A packet came from another address than the plan's `remote`.
    OtherAddress {
        from: SocketAddr,
        remote: SocketAddr,
    },
    /// Nothing was heard for a minute in which Data were sent, with this many in flight.
    Silent {
        in_flight: u64,
    },
    /// The Data of a number, whose payload has so many bytes, goes out again and again while shorter ones after it arrive.
    Stalled {
        number: u64,
        length: usize,
    },
    /// The route of a Data's destination leads, by a hop, back to the station that gave it.
    LedBack {
        destination: u16,
        station: u16,
        hop: HopId,
        number: u64,
    },
}

/// A cause that was counted; displays as its text in the log, after the link's owner.
#[derive(Clone, Copy, PartialEq, Eq)]
pub struct CountedCause {
    pub cause: LinkCause,
    /// The number of its kind so far.
    pub count: u64,
}

impl Display for CountedCause {
    ghost use Rattle.std.specs.Prelude.{Some};
    ghost use Rattle.rly_station.specs.LinkCauses.{cause_text};

    ghost output = { λ c. Some (cause_text c.cause c.count) };

    fn fmt<W: fmt::Write>(&self, f: &mut Formatter<W>) -> fmt::Result {
        let count = self.count;
        match self.cause {
            LinkCause::Refuses {
                number,
                refusal,
                destination,
            } => {
                let word = RefusalWord {
                    refusal,
                    destination,
                };
                write!(f, "refused {word} (Data {number}, {count} so far)")
            }
            LinkCause::IsRefused {
                station,
                number,
                refusal,
            } => {
                let word = RefusalWord {
                    refusal,
                    destination: None,
                };
                write!(
                    f,
                    "station {station} refuses Data {number}: {word} ({count} so far)"
                )
            }
            LinkCause::OtherStations {
                from,
                to,
                neighbour,
                own,
            } => write!(
                f,
                "packet {count} is from {from} to {to}, this link is from {neighbour} to {own}"
            ),
            LinkCause::Tagged => write!(
                f,
                "packet {count} has 16 bytes too many: a key at the other end?"
            ),
            LinkCause::OtherAddress { from, remote } => write!(
                f,
                "packets come from {from}, remote is {remote} ({count} so far)"
            ),
            LinkCause::Silent { in_flight } => write!(
                f,
                "nothing heard for 60 s with {in_flight} in flight ({count} so far)"
            ),
            LinkCause::Stalled { number, length } => write!(
                f,
                "Data {number} of {length} bytes is lost, shorter ones arrive: do fragments pass? ({count} so far)"
            ),
            LinkCause::LedBack {
                destination: to,
                station,
                hop,
                number,
            } => write!(
                f,
                "station {to}'s route leads back to station {station} (hop {}), which gave it (Data {number}, {count} so far)",
                hop.0
            ),
        }
    }
}

/// The number of a refusal in a message; displays as that and its words, with the refused datagram's destination if it is known
/// and the refusal is of that.
#[derive(Clone, Copy, PartialEq, Eq)]
struct RefusalWord {
    refusal: u8,
    destination: Option<u16>,
}

impl Display for RefusalWord {
    ghost use Rattle.std.specs.Prelude.{Some};
    ghost use Rattle.rly_station.specs.LinkCauses.{refusal_text};

    ghost output = { λ word. Some (refusal_text word.refusal word.destination) };

    fn fmt<W: fmt::Write>(&self, f: &mut Formatter<W>) -> fmt::Result {
        let number = self.refusal;
        match number {
            2 => match self.destination {
                Some(station) => write!(f, "{number} nohop: no route to station {station}"),
                None => write!(f, "{number} nohop: no route"),
            },
            3 => write!(f, "{number} badmoment: age limit"),
            5 => write!(f, "{number} toolong: payload above --payload"),
            6 => write!(f, "{number} full: no room"),
            11 => write!(f, "{number} broken"),
            12 => write!(f, "{number} unsure"),
            13 => write!(f, "{number} deviceread"),
            14 => write!(f, "{number} memory"),
            15 => write!(f, "{number} spent"),
            _ => write!(f, "{number}"),
        }
    }
}
