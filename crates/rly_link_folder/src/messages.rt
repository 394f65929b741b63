//! Packets and the messages in them.

ghost use Rattle.std.specs.Option.{option_map};
ghost use Rattle.std.specs.Prelude.{◌≡◌, ◌≤◌, IfSome, None, Some, length, take};
ghost use Rattle.rly_hop.specs.Payloads.{message_bytes};
ghost use Rattle.rly_hop.specs.Spelling.{IsMessage, spelling, write_refusal};
ghost use Rattle.rly_link.specs.LinkHistory.{message_in};

use rly_hop::{MAX_MESSAGE, Message, read_message, write_message};

/// The message in a packet, if there is one.
pub(crate) fn message_of<'a>(packet: &'a [u8]) -> Option<Message<&'a [u8]>>
    ensures message { option_map message_bytes result ≡ message_in (Some packet.now) }
    ensures fits { IfSome result (λ message. IsMessage (message_bytes message)) }
{
    match read_message(packet) {
        Ok(message) => Some(message),
        Err(_) => None,
    }
}

/// Writes a message that has a spelling at the front of a buffer, and returns its length in bytes.
pub(crate) fn write_packet(message: Message<&[u8]>, buffer: &mut [u8]) -> Option<usize>
    requires room { MAX_MESSAGE ≤ length buffer.old }
    requires spelled { write_refusal (message_bytes message) ≡ None }
    ensures bound { IfSome result (λ count. count ≤ length buffer.new) }
    ensures written { option_map (λ count. take count buffer.new) result
        ≡ Some (spelling (message_bytes message.entry)) }
{
    match write_message(message, buffer) {
        Ok(count) => Some(count),
        Err(_) => None,
    }
}
