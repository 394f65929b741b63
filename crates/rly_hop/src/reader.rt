ghost use Rattle.std.specs.Prelude.{◌≡◌, ◌≤◌, ◌<◌, ◌^◌, length, nat_lt, ◌∷◌, [], IfOk, IsOkAnd, OnOk, List, ℕ};
ghost use Rattle.rly_hop.specs.declared.message.Message.{Message};
ghost use Rattle.rly_hop.specs.Spelling.{IsMessage, spelling};
ghost use Rattle.std.specs.Result.{result_err};
ghost use Rattle.rly_hop.specs.Payloads.{message_bytes};
ghost use Rattle.rly_hop.specs.HelpersKinds.{message_kind_byte};
ghost use Rattle.rly_hop.specs.Rows.{first_row};
ghost use Rattle.rly_hop.specs.MessageReads.{field_at, first_fault, fixed_length, kind_of, header_faults};
ghost use Rattle.rly_hop.specs.MessageReads.{length_faults, message_at, payload_length, station_at, whole_length};

use crate::kind::Kind;
use crate::message::{HEADER_LENGTH, MAGIC, Message, StationId, VERSION, place};
use byteorder::{BigEndian, ByteOrder};
use rly_core::Refusal;
use rly_core::limits::MAX_PAYLOAD;
use std::cmp::Ordering;

/// The fields of the header.
#[derive(Clone, Copy)]
pub(crate) struct Header {
    pub(crate) kind: Kind,
    pub(crate) from: StationId,
    pub(crate) to: StationId,
}

/// Decodes the header, or returns its first fault.
fn read_header(bytes: &[u8]) -> Result<Header, Refusal>
    ensures fault { result_err result ≡ first_row (header_faults bytes.now) None }
    ensures kind { IfOk result (λ h. kind_of bytes.now ≡ message_kind_byte h.kind) }
    ensures from { IfOk result (λ h. h.from ≡ station_at 4 bytes.now) }
    ensures to { IfOk result (λ h. h.to ≡ station_at 6 bytes.now) }
    ensures length { IfOk result (λ h. 8 ≤ length bytes.now) }
{
    if bytes.len() < HEADER_LENGTH {
        return Err(Refusal::Short);
    }
    if BigEndian::read_u16(bytes) != MAGIC {
        return Err(Refusal::Magic);
    }
    if bytes[place::VERSION] != VERSION {
        return Err(Refusal::Version);
    }
    let kind = Kind::from_byte(bytes[place::KIND]).ok_or(Refusal::Kind)?;
    let from = BigEndian::read_u16(&bytes[place::FROM..]);
    let to = BigEndian::read_u16(&bytes[place::TO..]);
    if from == 0 || to == 0 {
        return Err(Refusal::Station);
    }
    Ok(Header {
        kind,
        from: StationId(from),
        to: StationId(to),
    })
}

/// Checks that the datagram has exactly the message's length.
fn check_length(found: usize, whole: usize) -> Result<(), Refusal>
    ensures { result_err result
        ≡ first_row ((nat_lt found whole, Some Refusal.Short) ∷ (nat_lt whole found, Some Refusal.Long) ∷ []) None }
{
    match found.cmp(&whole) {
        Ordering::Less => Err(Refusal::Short),
        Ordering::Equal => Ok(()),
        Ordering::Greater => Err(Refusal::Long),
    }
}

/// The length in bytes of the message, header and payload included, or the fault of its length fields.
fn read_length(kind: Kind, bytes: &[u8]) -> Result<usize, Refusal>
    requires { kind_of bytes.now ≡ message_kind_byte kind }
    ensures fault { result_err result ≡ first_row (length_faults bytes.now) None }
    ensures whole { IfOk result (λ whole. whole ≡ whole_length (message_kind_byte kind) bytes.now) }
    ensures fixed { OnOk result (fixed_length (message_kind_byte kind) ≤ length bytes.now) }
{
    let fixed = kind.fixed_length();
    if bytes.len() < fixed {
        return Err(Refusal::Short);
    }
    if kind == Kind::LimitedData && limit_in(bytes) == 0 {
        return Err(Refusal::Kind);
    }
    let payload = payload_length(kind, bytes);
    if payload as u64 > MAX_PAYLOAD {
        return Err(Refusal::Long);
    }
    Ok(fixed + payload)
}

/// The length in bytes of the payload, as the message states it.
fn payload_length(kind: Kind, bytes: &[u8]) -> usize
    requires { fixed_length (message_kind_byte kind) ≤ length bytes.now }
    ensures says { result ≡ payload_length (message_kind_byte kind) bytes.now }
    ensures within { result < 2 ^ 16 }
{
    match kind {
        Kind::Data => usize::from(BigEndian::read_u16(&bytes[place::LENGTH..])),
        Kind::LimitedData => usize::from(BigEndian::read_u16(&bytes[place::LIMITED_LENGTH..])),
        Kind::Custody | Kind::Refused | Kind::Heard => 0,
    }
}

/// The limit in a Data with a limit.
fn limit_in(bytes: &[u8]) -> u64
    requires { 21 ≤ length bytes.now }
    ensures { result ≡ field_at 5 16 bytes.now }
{
    BigEndian::read_uint(&bytes[place::LIMIT..], 5)
}

/// Decodes the message in a datagram, or returns its first fault (`docs/PROTOCOL.md`, "Messages"): 40 to 45. The
/// payload of a Data is borrowed from the datagram.
pub fn read_message(bytes: &[u8]) -> Result<Message<&[u8]>, Refusal>
    ensures found { IfOk result (λ m. IsMessage (message_bytes m) × (bytes.now ≡ spelling (message_bytes m))) }
    ensures only { (m : Message (List ℕ)) → IsMessage m → bytes.now ≡ spelling m
        → IsOkAnd result (λ found. message_bytes found ≡ m) }
    ensures fault { result_err result ≡ first_fault bytes.now }
{
    message_of(bytes)
}

/// Decodes the bytes field by field.
fn message_of(bytes: &[u8]) -> Result<Message<&[u8]>, Refusal>
    ensures fault { result_err result ≡ first_fault bytes.now }
    ensures fields { IfOk result (λ m. message_bytes m ≡ message_at (kind_of bytes.now) bytes.now) }
{
    let header = check_message(bytes)?;
    Ok(fields_of(header, bytes))
}

/// The header of the message that the bytes spell, or the first of their faults. Of a payload it looks at nothing.
pub(crate) fn check_message(bytes: &[u8]) -> Result<Header, Refusal>
    ensures fault { result_err result ≡ first_fault bytes.now }
    ensures kind { IfOk result (λ h. kind_of bytes.now ≡ message_kind_byte h.kind) }
    ensures from { IfOk result (λ h. h.from ≡ station_at 4 bytes.now) }
    ensures to { IfOk result (λ h. h.to ≡ station_at 6 bytes.now) }
    ensures fixed { IfOk result (λ h. fixed_length (message_kind_byte h.kind) ≤ length bytes.now) }
{
    let header = read_header(bytes)?;
    let whole = read_length(header.kind, bytes)?;
    check_length(bytes.len(), whole)?;
    Ok(header)
}

/// The message with this header, its other fields read at their offsets.
fn fields_of(header: Header, bytes: &[u8]) -> Message<&[u8]>
    requires fixed { fixed_length (message_kind_byte header.kind) ≤ length bytes.now }
    requires from { header.from ≡ station_at 4 bytes.now }
    requires to { header.to ≡ station_at 6 bytes.now }
    ensures { message_bytes result ≡ message_at (message_kind_byte header.kind) bytes.now }
{
    let Header { kind, from, to } = header;
    let number = BigEndian::read_u64(&bytes[place::NUMBER..]);
    match kind {
        Kind::Data => Message::Data {
            from,
            to,
            number,
            limit: 0,
            payload: &bytes[place::PAYLOAD..],
        },
        Kind::LimitedData => Message::Data {
            from,
            to,
            number,
            limit: limit_in(bytes),
            payload: &bytes[place::LIMITED_PAYLOAD..],
        },
        Kind::Custody => Message::Custody {
            from,
            to,
            last: number,
        },
        Kind::Refused => Message::Refused {
            from,
            to,
            number,
            refusal: bytes[place::REFUSAL],
        },
        Kind::Heard => Message::Heard {
            from,
            to,
            last: number,
            bits: BigEndian::read_u64(&bytes[place::BITS..]),
        },
    }
}
