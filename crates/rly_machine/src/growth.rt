ghost use Rattle.std.specs.Prelude.{◌≡◌, ◌+◌, ◌<◌, ◌≤◌, OnErr, OnOk, max};
ghost use Rattle.std.specs.VecDeque.{deque_capacity, deque_len};

use std::alloc::AllocError;
use std::collections::VecDeque;

/// The least number of elements that a full list grows by.
const LEAST_GROWTH: usize = 4;

/// Reserves room for one more element. A full list grows by its length, and by at least four. If the allocation fails,
/// the list is unchanged.
pub(crate) fn reserve_one<T>(list: &mut VecDeque<T>) -> Result<(), AllocError>
    ensures items { list.new.items ≡ list.old.items }
    ensures len { deque_len list.new ≡ deque_len list.old }
    ensures room { OnOk result (deque_len list.new < deque_capacity list.new) }
    ensures bounded { deque_capacity list.new
        ≤ max (deque_capacity list.old) (deque_len list.old + max 4 (deque_len list.old)) }
    ensures memory { OnErr result (deque_capacity list.old ≤ deque_len list.old) }
{
    let count = list.len();
    if count < list.capacity() {
        return Ok(());
    }
    list.reserve_exact(count.max(LEAST_GROWTH))
}
