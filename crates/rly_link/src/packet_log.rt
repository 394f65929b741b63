//! The bytes of a packet as proofs keep them. They take no memory.

ghost use Rattle.std.specs.Prelude.{◌≡◌};
ghost use Rattle.rly_link.specs.Memory.{log_bytes};

use http_server::Log;

/// The bytes of a packet, in proofs alone.
pub type PacketLog = Log<u8, ()>;

/// The bytes of this packet, in proofs alone. At run time nothing is kept.
pub fn bytes_in(packet: &[u8]) -> PacketLog
    ensures { log_bytes result ≡ packet.now }
{
    let mut bytes = Log::new();
    for byte in packet {
        bytes = bytes.and(byte, &());
    }
    bytes
}
