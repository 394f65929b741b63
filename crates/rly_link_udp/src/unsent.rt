//! The packet that a link sends again while it waits.

ghost use Rattle.std.specs.Prelude.{◌≡◌, ◌↔◌, [], IfOk, IfSome, IsTrue, length, vec_capacity};
ghost use Rattle.rly_link_udp.specs.Unsent.{kept_packet};

use std::alloc::{AllocError, Global};

/// The first packet that the system refused to send since the last receive, if there is such a packet. Its memory is
/// reserved at the start.
#[derive(Drop)]
pub(crate) struct Unsent {
    packet: Vec<u8>,
}

impl Unsent {
    /// No packet yet, and memory for one of this many bytes.
    pub(crate) fn reserve(alloc: Global, longest: usize) -> Result<Unsent, AllocError>
        ensures none { IfOk result (λ unsent. unsent.packet.items ≡ []) }
        ensures room { IfOk result (λ unsent. vec_capacity unsent.packet ≡ longest) }
    {
        let packet = Vec::with_capacity(alloc, longest)?;
        Ok(Unsent { packet })
    }

    /// Keeps a packet, unless one is kept already, or it is longer than the memory.
    pub(crate) fn keep(&mut self, packet: &[u8])
        ensures { self.new.packet.items ≡ kept_packet (vec_capacity self.old.packet) self.old.packet.items packet.now }
    {
        if self.packet.is_empty() && packet.len() <= self.packet.capacity() {
            self.packet.extend_from_slice(packet).unwrap();
        }
    }

    /// Drops the packet.
    pub(crate) fn clear(&mut self)
        ensures { self.new.packet.items ≡ [] }
    {
        self.packet.clear();
    }

    /// The packet, if there is one.
    pub(crate) fn packet(&self) -> Option<&[u8]>
        ensures some { IfSome result (λ packet. packet.now ≡ self.now.packet.items) }
        ensures none { (result ≡ None) ↔ (self.now.packet.items ≡ []) }
    {
        if self.packet.is_empty() {
            return None;
        }
        Some(self.packet.as_slice())
    }
}
