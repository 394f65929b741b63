ghost use Rattle.std.specs.Prelude.{◌≡◌};
ghost use Rattle.std.specs.Fmt.{DisplaysOnOk};
ghost use Rattle.std.specs.Prelude.{Some};
ghost use Rattle.rly_core.specs.Refusals.{number_of, refusal_line, text_of};

use std::fmt;

/// The refusals (error replies). A refusal displays as `refused`, its number, its text and its value, if it carries one
/// (`docs/COMMANDS.md`, "Refusals").
#[derive(Clone, Copy, Debug, PartialEq, Eq)]
pub enum Refusal {
    /// 1: the peer doesn't exist.
    NoSuchPeer,
    /// 2: the hop doesn't exist.
    NoSuchHop,
    /// 3: a time of 2^52 microseconds or more, or an age limit of 2^40 or more.
    BadMoment,
    /// 4: a peer skipped a sequence number; carries the expected number.
    Gap(u64),
    /// 5: the payload is longer than the spool's maximum.
    TooLong,
    /// 6: the spool has no room for the datagram.
    Full,
    /// 7: the window of the hop is full.
    WindowFull,
    /// 8: the queue is empty, and CoDel is idle.
    Empty,
    /// 9: a custody number that was never assigned.
    NeverSent,
    /// 10: a custody number that is no longer in flight.
    NotInFlight,
    /// 11: the journal is Broken: it refuses every call until it is reopened.
    Broken,
    /// 12: the device failed in this round; after reopening, the command may or may not be applied.
    Unsure,
    /// 13: a read of the device failed; nothing changed.
    DeviceRead,
    /// 14: memory allocation failed; nothing changed.
    OutOfMemory,
    /// 15: all 2^48 - 1 sequence numbers of the spool are used.
    Spent,
    /// 16: the text is not a command.
    Line,
    /// 20: the device doesn't begin with a header of this format.
    NotADevice,
    /// 21: parameters or a geometry outside the limits.
    BadGeometry,
    /// 22: the bytes at this offset of the device are damaged.
    Damaged(u64),
    /// 23: a call of the device failed.
    Device,
    /// 30: the call was not submitted, and is returned to the caller.
    Closed,
    /// 31: the call was submitted but got no reply; it may or may not have been applied.
    Lost,
    /// 40: the message is too short.
    Short,
    /// 41: the message is too long.
    Long,
    /// 42: the message doesn't begin with the protocol's two magic bytes.
    Magic,
    /// 43: the message has another protocol version.
    Version,
    /// 44: the message has an unknown kind.
    Kind,
    /// 45: the message names station 0 as its source or destination.
    Station,
    /// 50: the plan isn't TOML, lacks a key, or has a value of the wrong type.
    Syntax,
    /// 51: a contact begins before its predecessor begins.
    Unsorted,
    /// 52: contacts overlap, or a station or destination is listed twice.
    Overlap,
    /// 53: a number of the plan is out of range.
    Range,
    /// 54: an unknown key, or a route to a hop that doesn't exist.
    Unknown,
}

impl Refusal {
    /// The refusal's number.
    pub fn number(&self) -> u8
        ensures { result ≡ number_of self.now }
    {
        match self {
            Refusal::NoSuchPeer => 1,
            Refusal::NoSuchHop => 2,
            Refusal::BadMoment => 3,
            Refusal::Gap(_) => 4,
            Refusal::TooLong => 5,
            Refusal::Full => 6,
            Refusal::WindowFull => 7,
            Refusal::Empty => 8,
            Refusal::NeverSent => 9,
            Refusal::NotInFlight => 10,
            Refusal::Broken => 11,
            Refusal::Unsure => 12,
            Refusal::DeviceRead => 13,
            Refusal::OutOfMemory => 14,
            Refusal::Spent => 15,
            Refusal::Line => 16,
            Refusal::NotADevice => 20,
            Refusal::BadGeometry => 21,
            Refusal::Damaged(_) => 22,
            Refusal::Device => 23,
            Refusal::Closed => 30,
            Refusal::Lost => 31,
            Refusal::Short => 40,
            Refusal::Long => 41,
            Refusal::Magic => 42,
            Refusal::Version => 43,
            Refusal::Kind => 44,
            Refusal::Station => 45,
            Refusal::Syntax => 50,
            Refusal::Unsorted => 51,
            Refusal::Overlap => 52,
            Refusal::Range => 53,
            Refusal::Unknown => 54,
        }
    }

    /// The refusal's text: one word, in lower case.
    pub fn text(&self) -> &'static str
        ensures { result.now ≡ text_of self.now }
    {
        match self {
            Refusal::NoSuchPeer => "nopeer",
            Refusal::NoSuchHop => "nohop",
            Refusal::BadMoment => "badmoment",
            Refusal::Gap(_) => "gap",
            Refusal::TooLong => "toolong",
            Refusal::Full => "full",
            Refusal::WindowFull => "windowfull",
            Refusal::Empty => "empty",
            Refusal::NeverSent => "neversent",
            Refusal::NotInFlight => "notinflight",
            Refusal::Broken => "broken",
            Refusal::Unsure => "unsure",
            Refusal::DeviceRead => "deviceread",
            Refusal::OutOfMemory => "memory",
            Refusal::Spent => "spent",
            Refusal::Line => "line",
            Refusal::NotADevice => "notadevice",
            Refusal::BadGeometry => "badgeometry",
            Refusal::Damaged(_) => "damaged",
            Refusal::Device => "device",
            Refusal::Closed => "closed",
            Refusal::Lost => "lost",
            Refusal::Short => "short",
            Refusal::Long => "long",
            Refusal::Magic => "magic",
            Refusal::Version => "version",
            Refusal::Kind => "kind",
            Refusal::Station => "station",
            Refusal::Syntax
            | Refusal::Unsorted
            | Refusal::Overlap
            | Refusal::Range
            | Refusal::Unknown => "plan",
        }
    }
}

impl fmt::Display for Refusal {
    ghost output = { λ refusal. Some (refusal_line refusal) };

    fn fmt<W: fmt::Write>(&self, f: &mut fmt::Formatter<W>) -> fmt::Result {
        let number = self.number();
        let text = self.text();
        match *self {
            Refusal::Gap(value) | Refusal::Damaged(value) => {
                write!(f, "refused {number} {text} {value}")
            }
            _ => write!(f, "refused {number} {text}"),
        }
    }
}

impl std::error::Error for Refusal {}
