ghost use Rattle.std.specs.Prelude.{◌≡◌};

/// The size in bytes of the buffer that a worker receives into. A packet that fills it is no message.
pub const MAX_PACKET: usize = 8_300;

/// The buffer has room for the longest message with its tag: 8,215 bytes and 16. A test checks that workers use
/// this length.
pub fn law_longest_packet()
    ensures { MAX_PACKET ≡ 8300 }
{}
