/// The byte of an open gate. Every other byte is a closed gate.
pub const OPEN_GATE: u8 = 0xa5;

/// The byte of a closed gate, as it is written.
pub const CLOSED_GATE: u8 = 0;

/// The size of a body's length field, in bytes.
pub(crate) const LENGTH_BYTES: usize = 4;

/// The bytes of a frame besides its body: the length field before it, and the closed gate after it.
pub(crate) const FRAME_OVERHEAD: u64 = 5;
