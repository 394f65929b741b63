//! The messages between two neighbouring stations (`docs/PROTOCOL.md`, "Messages").

ghost use Rattle.std.specs.Prelude.{◌≡◌};
ghost use Rattle.rly_hop.specs.Spelling.{longest_message};

use rly_core::limits::MAX_PAYLOAD;

/// The number of a station, 1 to 65,535. 0 names no station: no message from it or to it is written or read.
#[derive(Clone, Copy, PartialEq, Eq)]
pub struct StationId(pub u16);

/// One message, which is one datagram. `P` is the type of the payload: bytes borrowed from the datagram when a
/// message is read, and any other type if it is stored.
#[derive(Clone, Copy, PartialEq, Eq)]
pub enum Message<P> {
    /// Kind 1, or kind 4 if it has a limit: transfers a datagram to the next station, under the custody number that
    /// the sender gave it.
    Data {
        from: StationId,
        to: StationId,
        number: u64,
        /// How long it may wait in the queue, in microseconds of the hop's link clock; 0 = no limit.
        limit: u64,
        payload: P,
    },
    /// Kind 2: acknowledges all numbers up to `last` as stored by the station that sends it.
    Custody {
        from: StationId,
        to: StationId,
        last: u64,
    },
    /// Kind 3: the Data with this number was refused, for the cause with this number. A reader accepts any byte.
    Refused {
        from: StationId,
        to: StationId,
        number: u64,
        refusal: u8,
    },
    /// Kind 5: reports which of the 64 numbers after `last`, the last one stored, have arrived: a bit is set (`marks`)
    /// if its Data is kept ahead of a gap or was refused. It acknowledges nothing.
    Heard {
        from: StationId,
        to: StationId,
        last: u64,
        /// The greatest bit is number `last + 1`, the least `last + 64`.
        bits: u64,
    },
}

/// The length of the longest message in bytes: a Data with a limit and a payload of 8,192.
pub const MAX_MESSAGE: usize = 8_215;

/// The length of a Heard in bytes.
pub const HEARD_LENGTH: usize = 24;

/// The length in bytes of the longest message whose payload has at most this many bytes, to size buffers for the
/// messages of a spool. A payload has at most 8,192 bytes.
pub fn longest_message(payload: u64) -> usize
    ensures { result ≡ longest_message payload }
{
    place::LIMITED_PAYLOAD + payload.min(MAX_PAYLOAD) as usize
}

/// The first two bytes of every message: `RL`.
pub(crate) const MAGIC: u16 = 0x524c;

/// The version of the protocol.
pub(crate) const VERSION: u8 = 1;

/// The length in bytes of the header of every message.
pub(crate) const HEADER_LENGTH: usize = 8;

/// The offsets of the fields of a message.
pub(crate) mod place {
    pub const VERSION: usize = 2;

    pub const KIND: usize = 3;

    pub const FROM: usize = 4;

    pub const TO: usize = 6;

    pub const NUMBER: usize = 8;

    pub const REFUSAL: usize = 16;

    pub const BITS: usize = 16;

    pub const LENGTH: usize = 16;

    pub const PAYLOAD: usize = 18;

    /// In a Data with a limit.
    pub const LIMIT: usize = 16;

    /// In a Data with a limit.
    pub const LIMITED_LENGTH: usize = 21;

    /// In a Data with a limit.
    pub const LIMITED_PAYLOAD: usize = 23;
}
