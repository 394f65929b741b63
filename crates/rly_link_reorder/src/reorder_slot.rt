//! One slot of the reorder buffer.

ghost use Rattle.std.specs.Prelude.{◌≡◌, ◌≤◌, ◌==◌, false, IfOk, IfSome, None, Some, length, option_and_then, take};
ghost use Rattle.std.specs.Option.{option_map, option_map_or};
ghost use Rattle.rly_link_reorder.specs.ReorderBuffer.{if_for, is_for, buffered_data};

use std::alloc::{AllocError, Global};
use std::marker::Model;

/// A slot for one Data, with the memory for the longest. Its model: the number of bytes that it holds, and its
/// content.
#[derive(Drop)]
pub(crate) struct ReorderSlot {
    /// The number of the stored Data, if there is one.
    number: Option<u64>,
    /// Its packet.
    bytes: Vec<u8>,
}

impl Model for ReorderSlot {
    ghost use Rattle.std.specs.Prelude.{vec_capacity};
    ghost use Rattle.std.specs.Option.{option_map};
    ghost use Rattle.rly_link_reorder.specs.ReorderBuffer.{PlaceView, buffered_data};

    ghost Value = { PlaceView };

    ghost view = { λ p.
        record { room = vec_capacity p.bytes; held = option_map (λ n. buffered_data n p.bytes.items) p.number } };
}

impl ReorderSlot {
    /// An empty slot with memory for this many bytes.
    pub(crate) fn new(alloc: Global, room: usize) -> Result<ReorderSlot, AllocError>
        ensures { IfOk result (λ p. p ≡ record { room = room; held = None }) }
    {
        Ok(ReorderSlot {
            number: None,
            bytes: Vec::with_capacity(alloc, room)?,
        })
    }

    /// Stores a copy of a packet under its number, in place of the one before.
    pub(crate) fn keep(&mut self, number: u64, packet: &[u8])
        requires { length packet.now ≤ self.old.room }
        ensures kept { self.new.held ≡ Some (buffered_data number packet.now) }
        ensures room { self.old.room ≤ self.new.room }
    {
        self.number = Some(number);
        self.bytes.clear();
        self.bytes.extend_from_slice(packet).unwrap();
    }

    /// Whether the Data of this number is stored here.
    pub(crate) fn has(&self, number: u64) -> bool
        ensures { result ≡ option_map_or (λ k. k.number == number) self.now.held false }
    {
        self.number == Some(number)
    }

    /// Copies the packet stored under this number to the front of a buffer, if it fits, and returns its length in
    /// bytes.
    pub(crate) fn give(&self, number: u64, buffer: &mut [u8]) -> Option<usize>
        ensures bound { IfSome result (λ count. count ≤ length buffer.new) }
        ensures packet { option_map (λ count. take count buffer.new) result
            ≡ option_map (λ k. k.packet) (option_and_then (if_for number (length buffer.old)) self.now.held) }
    {
        let count = self.bytes.len();
        if self.number != Some(number) || buffer.len() < count {
            return None;
        }
        buffer[..count].copy_from_slice(&self.bytes);
        Some(count)
    }
}
