ghost use Rattle.std.specs.Prelude.{◌≡◌, ◌≤◌, ◌<◌, ◌^◌, ◌+◌, ◌++◌, ◌∷◌, [], drop, length, take, IfOk, OnErr, OnOk};
ghost use Rattle.std.specs.Result.{result_err};
ghost use Rattle.byteorder.specs.Endian.{big_bytes};
ghost use Rattle.rly_hop.specs.Payloads.{message_bytes};
ghost use Rattle.rly_hop.specs.Spelling.{IsMessage, IsStation, header, lacks_station, spelling, write_refusal};
ghost use Rattle.rly_hop.specs.FixedBytes.{heard_packet};
ghost use Rattle.rly_hop.specs.HelpersKinds.{message_kind_byte};
ghost use Rattle.rly_hop.specs.Rows.{first_row};

use crate::kind::Kind;
use crate::message::{HEARD_LENGTH, MAGIC, MAX_MESSAGE, Message, StationId, VERSION, place};
use byteorder::{BigEndian, ByteOrder};
use rly_core::Refusal;
use rly_core::limits::{AGE_LIMIT, MAX_PAYLOAD};

/// Encodes a message at the front of `out`, and returns its length in bytes. Refuses, in this order, a message from
/// or to station 0 (45), and a limit that doesn't fit its bytes or a payload that is too long (41).
#[tactic(auto, unfolding(crate::specs::Spelling::spelling))]
pub fn write_message(message: Message<&[u8]>, out: &mut [u8]) -> Result<usize, Refusal>
    requires { MAX_MESSAGE ≤ length out.old }
    ensures fault { result_err result ≡ write_refusal (message_bytes message.entry) }
    ensures message { OnOk result (IsMessage (message_bytes message.entry)) }
    ensures written { IfOk result
        (λ written. out.new ≡ spelling (message_bytes message.entry) ++ drop written out.old) }
    ensures length { IfOk result (λ written. written ≡ length (spelling (message_bytes message.entry))) }
    ensures err { OnErr result (out.new ≡ out.old) }
{
    match message {
        Message::Data {
            from,
            to,
            number,
            limit,
            payload,
        } => write_data(out, from, to, number, limit, payload),
        Message::Custody { from, to, last } => {
            check_stations(from, to)?;
            write_front(out, Kind::Custody, from, to, last);
            Ok(Kind::Custody.fixed_length())
        }
        Message::Refused {
            from,
            to,
            number,
            refusal,
        } => {
            check_stations(from, to)?;
            write_front(out, Kind::Refused, from, to, number);
            out[place::REFUSAL] = refusal;
            Ok(Kind::Refused.fixed_length())
        }
        Message::Heard {
            from,
            to,
            last,
            bits,
        } => {
            check_stations(from, to)?;
            write_front(out, Kind::Heard, from, to, last);
            write_bits(out, bits);
            Ok(Kind::Heard.fixed_length())
        }
    }
}

/// A Heard as a packet of its own. `None` from or to station 0.
#[tactic(auto, unfolding(crate::specs::Spelling::spelling))]
pub fn heard_packet(
    from: StationId,
    to: StationId,
    last: u64,
    bits: u64,
) -> Option<[u8; HEARD_LENGTH]>
    ensures { result ≡ heard_packet from to last bits }
{
    if from.0 == 0 || to.0 == 0 {
        return None;
    }
    let mut packet = [0; HEARD_LENGTH];
    write_front(&mut packet, Kind::Heard, from, to, last);
    write_bits(&mut packet, bits);
    Some(packet)
}

/// Encodes a Data, with a limit or without one.
#[tactic(auto, unfolding(crate::specs::Spelling::spelling))]
fn write_data(
    out: &mut [u8],
    from: StationId,
    to: StationId,
    number: u64,
    limit: u64,
    payload: &[u8],
) -> Result<usize, Refusal>
    requires { MAX_MESSAGE ≤ length out.old }
    ensures fault { result_err result ≡ write_refusal (Message.Data from to number limit payload.now) }
    ensures message { OnOk result (IsMessage (Message.Data from to number limit payload.now)) }
    ensures written { IfOk result
        (λ written. out.new ≡ spelling (Message.Data from to number limit payload.now) ++ drop written out.old) }
    ensures length { IfOk result
        (λ written. written ≡ length (spelling (Message.Data from to number limit payload.now))) }
    ensures err { OnErr result (out.new ≡ out.old) }
{
    check_stations(from, to)?;
    if limit >= AGE_LIMIT || payload.len() as u64 > MAX_PAYLOAD {
        return Err(Refusal::Long);
    }
    if limit == 0 {
        write_front(out, Kind::Data, from, to, number);
        write_payload(out, place::LENGTH, payload);
        return Ok(place::PAYLOAD + payload.len());
    }
    write_front(out, Kind::LimitedData, from, to, number);
    write_limit(out, limit);
    write_payload(out, place::LIMITED_LENGTH, payload);
    Ok(place::LIMITED_PAYLOAD + payload.len())
}

/// Refuses a message from or to station 0.
fn check_stations(from: StationId, to: StationId) -> Result<(), Refusal>
    ensures fault { result_err result ≡ first_row ((lacks_station from to, Some Refusal.Station) ∷ []) None }
    ensures ok { OnOk result (IsStation from × IsStation to) }
{
    if from.0 == 0 || to.0 == 0 {
        return Err(Refusal::Station);
    }
    Ok(())
}

/// Writes the fields common to all kinds: the header, and the number after it.
fn write_front(out: &mut [u8], kind: Kind, from: StationId, to: StationId, number: u64)
    requires { 16 ≤ length out.old }
    ensures { out.new ≡ header (message_kind_byte kind) from to ++ big_bytes 8 number ++ drop 16 out.old }
{
    BigEndian::write_u16(out, MAGIC);
    out[place::VERSION] = VERSION;
    out[place::KIND] = kind.byte();
    BigEndian::write_u16(&mut out[place::FROM..], from.0);
    BigEndian::write_u16(&mut out[place::TO..], to.0);
    BigEndian::write_u64(&mut out[place::NUMBER..], number);
}

/// Writes the bits of a Heard.
fn write_bits(out: &mut [u8], bits: u64)
    requires { 24 ≤ length out.old }
    ensures { out.new ≡ take 16 out.old ++ big_bytes 8 bits ++ drop 24 out.old }
{
    BigEndian::write_u64(&mut out[place::BITS..], bits);
}

/// Writes the limit of a Data.
fn write_limit(out: &mut [u8], limit: u64)
    requires limit { limit < 2 ^ 40 }
    requires room { 21 ≤ length out.old }
    ensures { out.new ≡ take 16 out.old ++ big_bytes 5 limit ++ drop 21 out.old }
{
    BigEndian::write_uint(&mut out[place::LIMIT..], limit, 5);
}

/// Writes the length of a payload at an offset, and the payload after it.
fn write_payload(out: &mut [u8], at: usize, payload: &[u8])
    requires short { length payload.now ≤ MAX_PAYLOAD }
    requires room { at + 2 + length payload.now ≤ length out.old }
    ensures { out.new
        ≡ take at out.old ++ big_bytes 2 (length payload.now) ++ payload.now
        ++ drop (at + 2 + length payload.now) out.old }
{
    BigEndian::write_u16(&mut out[at..], payload.len() as u16);
    out[at + 2..at + 2 + payload.len()].copy_from_slice(payload);
}
