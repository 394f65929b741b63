//! The packets of these tests, by the bytes of docs/PROTOCOL.md.
use rly_link::MemLink;
use std::alloc::{AllocError, Global};
use std::process::Abort;

/// Data from station 3 to station 7 under a number below 256, payload `000c` and that number.
pub(crate) fn data(number: u8) -> [u8; 21] {
    let mut packet =
        *b"\x52\x4c\x01\x01\x00\x03\x00\x07\x00\x00\x00\x00\x00\x00\x00\x00\x00\x03\x00\x0c\x00";
    packet[15] = number;
    packet[20] = number;
    packet
}

/// Custody from station 7 to station 3 of all numbers up to one below 256.
pub(crate) fn custody(last: u8) -> [u8; 16] {
    let mut packet = *b"\x52\x4c\x01\x02\x00\x07\x00\x03\x00\x00\x00\x00\x00\x00\x00\x00";
    packet[15] = last;
    packet
}

/// Heard from station 7 to station 3: the last number kept, and the bits of the 64 after it.
fn heard(last: u8, bits: [u8; 8]) -> [u8; 24] {
    let mut packet =
        *b"\x52\x4c\x01\x05\x00\x07\x00\x03\x00\x00\x00\x00\x00\x00\x00\x00\x00\x00\x00\x00\x00\x00\x00\x00";
    packet[15] = last;
    packet[16..].copy_from_slice(&bits);
    packet
}

/// Refusal 21 of a number below 256, from station 7 to station 3.
pub(crate) fn refused(number: u8) -> [u8; 17] {
    let mut packet = *b"\x52\x4c\x01\x03\x00\x07\x00\x03\x00\x00\x00\x00\x00\x00\x00\x00\x15";
    packet[15] = number;
    packet
}

/// The next receive of a link: this packet, or nothing if it is empty.
fn given(alloc: Global, packet: &[u8]) -> Result<Option<Vec<u8>>, AllocError> {
    if packet.is_empty() {
        return Ok(None);
    }
    Ok(Some(packet.to_vec(alloc)?))
}

/// Adds a packet to the receives of a link, or nothing if it is empty.
pub(crate) fn put<R: Abort>(
    rt: &R,
    alloc: Global,
    coming: &mut Vec<Option<Vec<u8>>>,
    packet: &[u8],
) {
    let next = given(alloc, packet).expect(rt, "memory");
    coming.push(next).expect(rt, "memory");
}

/// A packet from station 7 to station 3: its kind (2 custody, 3 a refusal, 5 a Heard), its number, and a Heard's bits.
pub(crate) type Sent = (u8, u8, u64);

fn is_packet(packet: &[u8], (kind, number, bits): Sent) -> bool {
    match kind {
        2 => packet == custody(number).as_slice(),
        3 => packet == refused(number).as_slice(),
        _ => packet == heard(number, bits.to_be_bytes()).as_slice(),
    }
}

/// Returns true iff exactly these packets were sent over a link.
pub(crate) fn are_sent(link: &MemLink, sent: &[Sent]) -> bool {
    for (packet, one) in link.deliveries().iter().zip(sent) {
        if !is_packet(packet, *one) {
            return false;
        }
    }
    link.deliveries().len() == sent.len()
}
