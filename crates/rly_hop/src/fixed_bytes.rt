//! Looks at a packet's fixed bytes, for a link: it hands the packet on, and needs no message. The
//! worker above it reads the message.

ghost use Rattle.std.specs.Prelude.{◌≡◌, ◌≤◌, ◌==◌, ◌&&◌, ◌||◌, if◌then◌else◌, Some, None, length};
ghost use Rattle.std.specs.Result.{result_ok};
ghost use Rattle.rly_hop.specs.HelpersKinds.{message_kind_byte};
ghost use Rattle.rly_hop.specs.FixedBytes.{custody_number, data_number, refused_number};
ghost use Rattle.rly_hop.specs.MessageReads.{field_at, message_or_fault};

use crate::kind::Kind;
use crate::message::{StationId, place};
use crate::reader::{Header, check_message};
use byteorder::{BigEndian, ByteOrder};

/// The number of a Data from one station to another, if a packet is one. Of a packet that is shorter than a Data it
/// looks at the length alone.
pub fn data_number(packet: &[u8], from: StationId, to: StationId) -> Option<u64>
    ensures { result ≡ data_number from to (result_ok (message_or_fault packet.now)) }
{
    if packet.len() < Kind::Data.fixed_length() {
        return None;
    }
    let Ok(header) = check_message(packet) else {
        return None;
    };
    number_if(is_data(header, from, to), packet)
}

/// The last number of a custody from one station to another, if a packet is one. Of a packet that isn't as long as a
/// custody it looks at the length alone.
pub fn custody_number(packet: &[u8], from: StationId, to: StationId) -> Option<u64>
    ensures { result ≡ custody_number from to (result_ok (message_or_fault packet.now)) }
{
    if packet.len() != Kind::Custody.fixed_length() {
        return None;
    }
    let Ok(header) = check_message(packet) else {
        return None;
    };
    number_if(is_custody(header, from, to), packet)
}

/// The number of a Refused from one station to another, if a packet is one. Of a packet that isn't as long as a Refused
/// it looks at the length alone.
pub fn refused_number(packet: &[u8], from: StationId, to: StationId) -> Option<u64>
    ensures { result ≡ refused_number from to (result_ok (message_or_fault packet.now)) }
{
    if packet.len() != Kind::Refused.fixed_length() {
        return None;
    }
    let Ok(header) = check_message(packet) else {
        return None;
    };
    number_if(is_refused(header, from, to), packet)
}

/// Whether it is the header of a Data from one station to another.
fn is_data(header: Header, from: StationId, to: StationId) -> bool
    ensures { result ≡ (((message_kind_byte header.kind == 1) || (message_kind_byte header.kind == 4))
        && ((header.from.0 == from.0) && (header.to.0 == to.0))) }
{
    let kind = header.kind.byte();
    (kind == 1 || kind == 4) && header.from.0 == from.0 && header.to.0 == to.0
}

/// Whether it is the header of a custody from one station to another.
fn is_custody(header: Header, from: StationId, to: StationId) -> bool
    ensures { result ≡ ((message_kind_byte header.kind == 2) && ((header.from.0 == from.0) && (header.to.0 == to.0))) }
{
    header.kind.byte() == 2 && header.from.0 == from.0 && header.to.0 == to.0
}

/// Whether it is the header of a Refused from one station to another.
fn is_refused(header: Header, from: StationId, to: StationId) -> bool
    ensures { result ≡ ((message_kind_byte header.kind == 3) && ((header.from.0 == from.0) && (header.to.0 == to.0))) }
{
    header.kind.byte() == 3 && header.from.0 == from.0 && header.to.0 == to.0
}

/// The number in a message, if it is wanted. Its place is the same in every kind.
fn number_if(is_wanted: bool, packet: &[u8]) -> Option<u64>
    requires { 16 ≤ length packet.now }
    ensures { result ≡ (if is_wanted then Some (field_at 8 8 packet.now) else None) }
{
    if is_wanted {
        Some(BigEndian::read_u64(&packet[place::NUMBER..]))
    } else {
        None
    }
}
