ghost use Rattle.std.specs.Prelude.{◌≡◌, ◌+◌, ◌%◌, ◌^◌, ◌<◌, ◌≤◌, ◌==◌, [], ◌∷◌, ◌++◌, ◌↔◌, IfOk, IfSome, IsSome};
ghost use Rattle.std.specs.Prelude.{OnErr, OnOk, Some, drop, length, max, option_to_list, slice_index_or};
ghost use Rattle.rly_machine.specs.Relocate.{carried_at, with_payload};
ghost use Rattle.rly_machine.specs.State.{bytes_of};

use crate::content::Content;
use crate::growth::reserve_one;
use crate::hop::Item;
use std::alloc::{AllocError, Global};
use std::collections::VecDeque;
use std::marker::Model;

/// The waiting datagrams of a hop, in order of arrival. In contracts it is these and its spare capacity. It returns the
/// number of payload bytes after any datagram without a scan.
#[derive(Drop)]
pub struct Queue<C: Content> {
    queued: VecDeque<Queued<C>>,
    /// The payload bytes ever put into it, modulo 2^64.
    total: u64,
}

/// A waiting datagram.
#[derive(Drop)]
struct Queued<C> {
    item: Item<C>,
    /// The payload bytes ever put into the queue up to and including this item, modulo 2^64.
    total: u64,
}

impl<C: Content> Model for Queue<C> {
    ghost use Rattle.std.specs.Prelude.{◌-◌};
    ghost use Rattle.std.specs.VecDeque.{deque_capacity, deque_len};
    ghost use Rattle.rly_machine.specs.State.{QueueState};
    ghost use Rattle.rly_machine.specs.HelpersQueue.{AddUp, items_of};

    ghost Value = { QueueState C };

    ghost view = { λ queue.
        record { items = items_of queue.queued.items; spare = deque_capacity queue.queued - deque_len queue.queued } };

    ghost invariant = { λ queue. AddUp C.length_of queue.total queue.queued.items };
}

impl<C: Content> Queue<C> {
    /// Makes an empty queue. Allocates nothing.
    pub fn new(alloc: Global) -> Queue<C>
        ensures { result.items ≡ [] }
    {
        Queue {
            queued: VecDeque::new(alloc),
            total: 0,
        }
    }

    /// Makes a queue of items that were loaded from elsewhere, the front first. Allocates exactly their memory, and
    /// nothing for no items.
    pub fn of(alloc: Global, items: Vec<Item<C>>) -> Result<Queue<C>, AllocError>
        ensures items { IfOk result (λ queue. queue.items ≡ items.items) }
        ensures exact { IfOk result (λ queue. queue.spare ≡ 0) }
        ensures memory { OnErr result (0 < length items.items) }
    {
        let mut queue = Queue {
            queued: VecDeque::with_capacity(alloc, items.len())?,
            total: 0,
        };
        let mut rest = VecDeque::from_vec(items);
        while let Some(item) = rest.pop_front() {
            queue.push_back_reserved(item);
        }
        Ok(queue)
    }

    /// Returns the number of waiting datagrams.
    pub fn len(&self) -> usize
        ensures count { result ≡ length self.now.items }
        ensures fits { result < 2 ^ 63 }
    {
        self.queued.len()
    }

    /// Returns true iff none waits.
    pub fn is_empty(&self) -> bool
        ensures { result ≡ (length self.now.items == 0) }
    {
        self.queued.is_empty()
    }

    /// Returns a datagram; index 0 is the front.
    pub fn item(&self, index: usize) -> &Item<C>
        requires { index < length self.now.items }
        ensures { result.now ≡ slice_index_or self.now.items index result.now }
    {
        &self.queued[index].item
    }

    /// Returns the number of payload bytes after a datagram, without its own, modulo 2^64.
    pub(crate) fn bytes_behind(&self, index: usize) -> u64
        requires { index < length self.now.items }
        ensures { result ≡ bytes_of C.length_of (drop (index + 1) self.now.items) % 2 ^ 64 }
    {
        self.total.wrapping_sub(self.queued[index].total)
    }

    /// Returns the number of waiting payload bytes.
    pub(crate) fn bytes(&self) -> u64
        requires { bytes_of C.length_of self.now.items < 2 ^ 64 }
        ensures { result ≡ bytes_of C.length_of self.now.items }
    {
        if self.is_empty() {
            return 0;
        }
        self.item(0).payload.len() as u64 + self.bytes_behind(0)
    }

    /// Replaces the content of the datagram at an index by other content of the same length.
    pub(crate) fn relocate(&mut self, index: usize, content: C)
        requires { carried_at C.length_of self.old.items index ≡ Some (C.length_of content) }
        ensures { self.new.items ≡ with_payload self.old.items index content }
    {
        self.queued[index].item.payload = content;
    }

    /// Reserves room for one more. If the allocation fails, the queue is unchanged.
    pub(crate) fn reserve_one(&mut self) -> Result<(), AllocError>
        ensures items { self.new.items ≡ self.old.items }
        ensures room { OnOk result (0 < self.new.spare) }
        ensures bounded { self.new.spare ≤ max self.old.spare (max 4 (length self.old.items)) }
        ensures memory { OnErr result (self.old.spare ≡ 0) }
    {
        reserve_one(&mut self.queued)
    }

    /// Puts a datagram at the back.
    pub(crate) fn push_back_reserved(&mut self, item: Item<C>)
        requires { 0 < self.old.spare }
        ensures items { self.new.items ≡ self.old.items ++ item ∷ [] }
        ensures spare { self.new.spare + 1 ≡ self.old.spare }
    {
        self.total = self.total.wrapping_add(item.payload.len() as u64);
        let total = self.total;
        self.queued.push_back_reserved(Queued { item, total });
    }

    /// Removes the front.
    pub(crate) fn pop_front(&mut self) -> Option<Item<C>>
        ensures items { self.old.items ≡ option_to_list result ++ self.new.items }
        ensures variant { IsSome result ↔ (0 < length self.old.items) }
        ensures lookup { IfSome result (λ item. item ≡ slice_index_or self.old.items 0 item) }
        ensures rest { self.new.items ≡ drop 1 self.old.items }
    {
        let queued = self.queued.pop_front()?;
        Some(queued.item)
    }
}
