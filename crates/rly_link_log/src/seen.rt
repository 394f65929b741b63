//! What a log sees in a packet of its link.

ghost use Rattle.std.specs.Prelude.{◌≡◌};
ghost use Rattle.rly_hop.specs.Payloads.{message_bytes};
ghost use Rattle.rly_link_log.specs.Seen.{IsSeen, seen_of, unless_strange};
ghost use Rattle.rly_plan.specs.ContactPlan.{destination_in};

use rly_hop::{Message, StationId, read_message};

/// A Data: its number, the length of its payload in bytes, and the destination that the payload names, if it is long enough.
#[derive(Clone, Copy)]
pub(crate) struct SeenData {
    pub(crate) number: u64,
    pub(crate) length: usize,
    pub(crate) destination: Option<u16>,
}

/// A packet from one station of a link to the other.
#[derive(Clone, Copy)]
pub(crate) enum Seen {
    Data(SeenData),
    Custody(u64),
    Refused { number: u64, refusal: u8 },
    Heard { last: u64, bits: u64 },
    /// A message between other stations.
    Strange { from: u16, to: u16 },
    /// No message.
    Other,
}

/// What a packet is, between a station and another.
pub(crate) fn seen_in(from: StationId, to: StationId, packet: &[u8]) -> Seen
    ensures { IsSeen from to packet.now result }
{
    match read_message(packet) {
        Ok(message) => seen_of(from, to, message),
        Err(_) => Seen::Other,
    }
}

fn seen_of(from: StationId, to: StationId, message: Message<&[u8]>) -> Seen
    ensures { result ≡ seen_of from to (message_bytes message.entry) }
{
    match message {
        Message::Data {
            from: source,
            to: target,
            number,
            payload,
            ..
        } => {
            let data = SeenData {
                number,
                length: payload.len(),
                destination: destination_in(payload),
            };
            unless_strange(from, to, source, target, Seen::Data(data))
        }
        Message::Custody {
            from: source,
            to: target,
            last,
        } => unless_strange(from, to, source, target, Seen::Custody(last)),
        Message::Refused {
            from: source,
            to: target,
            number,
            refusal,
        } => unless_strange(from, to, source, target, Seen::Refused { number, refusal }),
        Message::Heard {
            from: source,
            to: target,
            last,
            bits,
        } => unless_strange(from, to, source, target, Seen::Heard { last, bits }),
    }
}

/// What a message from `source` to `target` is, if these are the link's stations; else that they aren't.
fn unless_strange(
    from: StationId,
    to: StationId,
    source: StationId,
    target: StationId,
    seen: Seen,
) -> Seen
    ensures { result ≡ unless_strange from to source target seen }
{
    if source.0 == from.0 && target.0 == to.0 {
        return seen;
    }
    Seen::Strange {
        from: source.0,
        to: target.0,
    }
}

/// The destination that a payload names by its first two bytes: `None` if it is shorter.
fn destination_in(payload: &[u8]) -> Option<u16>
    ensures { result ≡ destination_in payload.now }
{
    if payload.len() < 2 {
        return None;
    }
    Some(u16::from(payload[0]) * 256 + u16::from(payload[1]))
}
