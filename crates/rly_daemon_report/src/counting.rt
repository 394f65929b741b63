//! One count more, and the messages and numbers by which a packet is counted.

ghost use Rattle.std.specs.Prelude.{◌≡◌};
ghost use Rattle.std.specs.Option.{option_map};
ghost use Rattle.rly_hop.specs.Payloads.{message_bytes};
ghost use Rattle.rly_daemon_report.specs.Counts.{counted_if, greatest_with, is_repeat, message_in};

use rly_hop::{Message, read_message};

/// The count, incremented if this is true, up to its last value.
pub(crate) fn counted_if(is_one: bool, count: u64) -> u64
    ensures { result ≡ counted_if is_one count }
{
    if is_one {
        count.saturating_add(1)
    } else {
        count
    }
}

/// The message in a packet, if it is one.
pub(crate) fn message_in(packet: &[u8]) -> Option<Message<&[u8]>>
    ensures { option_map message_bytes result ≡ message_in packet.now }
{
    match read_message(packet) {
        Ok(message) => Some(message),
        Err(_) => None,
    }
}

/// Whether there is a number, and it isn't above the greatest one before it. Data 0 asks for the last number, and repeats
/// none.
pub(crate) fn is_repeat(greatest: u64, number: Option<u64>) -> bool
    ensures { result ≡ is_repeat greatest number }
{
    match number {
        Some(number) => 0 < number && number <= greatest,
        None => false,
    }
}

/// The greatest number so far, after this one, if there is one.
pub(crate) fn greatest_with(greatest: u64, number: Option<u64>) -> u64
    ensures { result ≡ greatest_with greatest number }
{
    match number {
        Some(number) => greatest.max(number),
        None => greatest,
    }
}
