//! The reorder buffer of a link.

ghost use Rattle.std.specs.Prelude.{◌≡◌, ◌<◌, ◌≤◌, if◌then◌else◌, IfOk, IfSome, None, Some, length, slice_set, take};
ghost use Rattle.std.specs.Option.{option_map};
ghost use Rattle.rly_hop.specs.HeardBits.{with_mark};
ghost use Rattle.rly_link_reorder.specs.ReorderBuffer.{after_data, after_giving, after_heard, after_refusal};
ghost use Rattle.rly_link_reorder.specs.ReorderBuffer.{buffered_data, due_data, heard_bits, is_heard, is_heard_due};
ghost use Rattle.rly_link_reorder.specs.ReorderBuffer.{is_past_gap, is_stored, new_reorder, next_number};
ghost use Rattle.rly_link_reorder.specs.ReorderBuffer.{reorder_after_custody, slot_of};

use crate::reorder_slot::ReorderSlot;
use rly_hop::with_mark;
use std::alloc::{AllocError, Global};
use std::marker::Model;

/// Maximum number of buffered Data. A neighbour has at most that many in flight.
pub const SLOTS: usize = 64;

/// The Data of a neighbour that arrived ahead of a gap. Its model: the greatest number that custody was sent for,
/// the next number in order, the maximum length of a buffered packet, the slots, of each slot the number that was
/// refused last, and whether a Data came since custody was last sent.
#[derive(Drop)]
pub struct ReorderBuffer {
    covered: u64,
    next: u64,
    /// Maximum length in bytes of a buffered packet.
    longest: usize,
    /// The slots: 64, or none. The slot of a number is its remainder modulo 64.
    places: Vec<ReorderSlot>,
    /// Of each slot the number that was refused last, or 0.
    refused: [u64; SLOTS],
    /// Whether a Data came since custody was last sent.
    came: bool,
}

impl Model for ReorderBuffer {
    ghost use Rattle.std.specs.Prelude.{◌≤◌, All, map};
    ghost use Rattle.rly_link_reorder.specs.ReorderBuffer.{ReorderView};

    ghost Value = { ReorderView };

    ghost view = { λ e. record {
      covered = e.covered;
      next = e.next;
      longest = e.longest;
      places = map (λ p. p.held) e.places.items;
      refused = e.refused;
      came = e.came;
    } };

    ghost invariant = { λ e. All (λ p. e.longest ≤ p.room) e.places.items };
}

impl ReorderBuffer {
    /// An empty buffer for 64 Data whose packets have at most `longest` bytes. Takes all its memory here.
    pub fn new(alloc: Global, longest: usize) -> Result<ReorderBuffer, AllocError>
        ensures { IfOk result (λ e. e ≡ new_reorder SLOTS longest) }
    {
        let mut places = Vec::with_capacity(alloc, SLOTS)?;
        for _place in 0..SLOTS {
            places.push(ReorderSlot::new(alloc, longest)?)?;
        }
        Ok(ReorderBuffer {
            covered: 0,
            next: 1,
            longest,
            places,
            refused: [0; SLOTS],
            came: false,
        })
    }

    /// A buffer without slots, which stores nothing.
    pub fn without_room(alloc: Global) -> ReorderBuffer
        ensures { result ≡ new_reorder 0 0 }
    {
        ReorderBuffer {
            covered: 0,
            next: 1,
            longest: 0,
            places: Vec::new(alloc),
            refused: [0; SLOTS],
            came: false,
        }
    }

    /// Receives a Data in this packet. Stores it if it is ahead of a gap and not too long. If it is the next in
    /// order, the following number becomes the next.
    pub fn hear(&mut self, number: u64, packet: &[u8])
        ensures { self.new ≡ after_data self.old number packet.now }
    {
        if is_past_gap(self.covered, number) && packet.len() <= self.longest {
            self.keep(number, packet);
        }
        if number == self.next {
            self.next = next_number(number);
        }
        self.came = true;
    }

    /// Stores a packet in its number's slot, if there is one.
    fn keep(&mut self, number: u64, packet: &[u8])
        requires { length packet.now ≤ self.old.longest }
        ensures { self.new
            ≡ record self.old {
              places = slice_set self.old.places (slot_of number)
                  (Some (buffered_data number packet.now));
            } }
    {
        let place = slot_of(number);
        if place < self.places.len() {
            self.places[place].keep(number, packet);
        }
    }

    /// Copies the stored packet that is next in order to the front of a buffer, if there is one and it fits, and
    /// returns its length in bytes. The following number becomes the next.
    pub fn give(&mut self, buffer: &mut [u8]) -> Option<usize>
        ensures bound { IfSome result (λ count. count ≤ length buffer.new) }
        ensures packet { option_map (λ count. take count buffer.new) result
            ≡ option_map (λ k. k.packet) (due_data self.old (length buffer.old)) }
        ensures after { self.new ≡ after_giving self.old (length buffer.old) }
    {
        let place = self.places.get(slot_of(self.next))?;
        let count = place.give(self.next, buffer)?;
        self.next = next_number(self.next);
        Some(count)
    }

    /// The greatest number that custody was sent for.
    pub fn covered(&self) -> u64
        ensures { result ≡ self.now.covered }
    {
        self.covered
    }

    /// A refusal of this number is sent.
    pub fn refuse(&mut self, number: u64)
        ensures { self.new ≡ after_refusal self.old number }
    {
        self.refused[slot_of(number)] = number;
    }

    /// The bits of the Heard that is due: one for each of the 64 numbers after those that custody was sent for. `None`
    /// if no Data came since custody was last sent, or no number is marked.
    pub fn heard_due(&self) -> Option<u64>
        ensures { result ≡ (if is_heard_due self.now then Some (heard_bits self.now) else None) }
    {
        let bits = self.heard_bits();
        if self.came && bits > 0 {
            Some(bits)
        } else {
            None
        }
    }

    /// The bits of a Heard.
    fn heard_bits(&self) -> u64
        ensures { result ≡ heard_bits self.now }
    {
        let mut bits = 0;
        for place in 0..SLOTS as u64 {
            bits = self.with_place(bits, place);
        }
        bits
    }

    /// The bits with that of a place set, if a Heard marks it.
    fn with_place(&self, bits: u64, place: u64) -> u64
        requires { place < 64 }
        ensures { result ≡ (if is_heard self.now place then with_mark bits place else bits) }
    {
        if self.is_heard(place) {
            with_mark(bits, place)
        } else {
            bits
        }
    }

    /// Whether a Heard marks a place.
    fn is_heard(&self, place: u64) -> bool
        requires { place < 64 }
        ensures { result ≡ is_heard self.now place }
    {
        let Some(number) = self.covered.checked_add(place + 1) else {
            return false;
        };
        self.is_stored(number) || self.refused[slot_of(number)] == number
    }

    /// Whether a number has its Data in a slot.
    fn is_stored(&self, number: u64) -> bool
        ensures { result ≡ is_stored self.now number }
    {
        match self.places.get(slot_of(number)) {
            Some(place) => place.has(number),
            None => false,
        }
    }

    /// A Heard is sent, or none is due.
    pub fn tell(&mut self)
        ensures { self.new ≡ after_heard self.old }
    {
        self.came = false;
    }

    /// Custody of all numbers up to this one is sent. If it is more than before, the number after it becomes the
    /// next.
    pub fn cover(&mut self, last: u64)
        ensures { self.new ≡ reorder_after_custody self.old last }
    {
        if self.covered < last {
            self.covered = last;
            self.next = next_number(last);
        }
    }
}

/// Whether a number is ahead of a gap, within a neighbour's window.
fn is_past_gap(covered: u64, number: u64) -> bool
    ensures { result ≡ is_past_gap covered number }
{
    let above = number.saturating_sub(covered);
    2 <= above && above <= 64 && number < u64::MAX
}

/// The number after this one; the last one of 64 bits stays.
fn next_number(number: u64) -> u64
    ensures { result ≡ next_number number }
{
    number.saturating_add(1)
}

/// The slot of a number.
fn slot_of(number: u64) -> usize
    ensures { result ≡ slot_of number }
{
    (number % 64) as usize
}
