ghost use Rattle.std.specs.Prelude.{◌≡◌, ◌<◌, ℕ, List, IfOk, OnErr, length};

use std::alloc::{AllocError, Global};
use std::marker::Model;

/// The content of an item: the bytes of a payload, or a reference that knows their length, such as a device address.
pub trait Content: Drop {
    /// Its length in bytes.
    ghost length_of: { Self → ℕ };

    /// Returns its length in bytes.
    fn len(&self) -> usize
        ensures { result ≡ length_of self.now };
}

/// The bytes of a payload, in memory.
#[derive(Debug, Drop)]
pub struct Payload {
    bytes: Vec<u8>,
}

impl Model for Payload {
    ghost Value = { List ℕ };

    ghost view = { λ p. p.bytes.items };
}

impl Payload {
    /// Makes a payload of these bytes.
    pub fn new(bytes: Vec<u8>) -> Payload
        ensures { result ≡ bytes.items }
    {
        Payload { bytes }
    }

    /// Makes a payload of a copy of these bytes. Allocates nothing for no bytes.
    pub fn copy_of(alloc: Global, bytes: &[u8]) -> Result<Payload, AllocError>
        ensures ok { IfOk result (λ copy. copy ≡ bytes.now) }
        ensures err { OnErr result (0 < length bytes.now) }
    {
        let mut copy = Vec::new(alloc);
        copy.extend_from_slice(bytes)?;
        Ok(Payload { bytes: copy })
    }

    /// Returns the bytes.
    pub fn as_slice(&self) -> &[u8]
        ensures { result.now ≡ self.now }
    {
        self.bytes.as_slice()
    }

    /// Returns the bytes, and consumes the payload.
    pub fn into_bytes(self) -> Vec<u8>
        ensures { result.items ≡ self }
    {
        self.bytes
    }
}

impl Content for Payload {
    ghost length_of = { length };

    fn len(&self) -> usize {
        self.bytes.len()
    }
}
