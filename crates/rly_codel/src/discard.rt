ghost use Rattle.std.specs.Prelude.{◌≡◌, ◌+◌, ◌^◌, ◌<◌, ◌≤◌, ◌↔◌, length, All, HoldsAt, IsTrue, max, drop};
ghost use Rattle.rly_core.specs.Limits.{IsWithinLimits};
ghost use Rattle.rly_codel.specs.Cases.{dequeue_of};
ghost use Rattle.rly_codel.specs.Loop.{dequeue_by_loop, dodequeue, drop_loop, drop_turn, enter_dropping, is_below};

use crate::lane::Lane;
use crate::state::{CodelState, Verdict};
use rly_core::Params;
use rly_law::{Control, Plain};

/// Returns the number of items to drop from the front of the lane at `now`, a time of the lane's clock, and whether the
/// next item is delivered (RFC 8289 section 5, `dequeue`). Changes `state` alone.
pub fn dequeue<L: Lane>(state: &mut CodelState, lane: &L, now: u64, params: &Params) -> Verdict
    requires params { IsWithinLimits params.now }
    requires now { now < 2 ^ 52 }
    requires stamps { All (λ item. item.stamp ≤ now) (L.waiting lane.now) }
    requires first_above_time { state.old.first_above_time < 2 ^ 53 }
    requires drop_next { state.old.drop_next < 2 ^ 53 }
    requires lastcount { state.old.lastcount ≤ state.old.count }
    requires count { state.old.count + length (L.waiting lane.now) < 2 ^ 63 }

    ensures state { state.new ≡ (dequeue_of params.now now (L.waiting lane.now) state.old).state }
    ensures dropped { result.dropped
        ≡ (dequeue_of params.now now (L.waiting lane.now) state.old).dropped }
    ensures delivered { IsTrue result.delivered ↔ (result.dropped < length (L.waiting lane.now)) }

    // A lane that isn't empty always delivers.
    ensures last_is_delivered { 0 < length (L.waiting lane.now)
        → result.dropped < length (L.waiting lane.now) }
    ensures empty { length (L.waiting lane.now) ≡ 0 → result.dropped ≡ 0 }

    // State for the next call.
    ensures first_above_time { state.new.first_above_time
        ≤ max state.old.first_above_time (now + params.now.interval) }
    ensures drop_next { state.new.drop_next ≤ max state.old.drop_next (now + params.now.interval) }
    ensures lastcount { state.new.lastcount ≤ state.new.count }
    ensures count { state.new.count ≤ state.old.count + result.dropped }
{
    dequeue_with(state, lane, now, params, &Plain::new(params.interval))
}

/// The same as `dequeue`, with drop times from a control law that the caller owns, at the interval of the parameters.
pub fn dequeue_with<L: Lane, T: Control>(
    state: &mut CodelState,
    lane: &L,
    now: u64,
    params: &Params,
    control: &T,
) -> Verdict
    requires params { IsWithinLimits params.now }
    requires now { now < 2 ^ 52 }
    requires stamps { All (λ item. item.stamp ≤ now) (L.waiting lane.now) }
    requires first_above_time { state.old.first_above_time < 2 ^ 53 }
    requires drop_next { state.old.drop_next < 2 ^ 53 }
    requires lastcount { state.old.lastcount ≤ state.old.count }
    requires count { state.old.count + length (L.waiting lane.now) < 2 ^ 63 }
    requires control { T.interval control.now ≡ params.now.interval }

    ensures state { state.new ≡ (dequeue_of params.now now (L.waiting lane.now) state.old).state }
    ensures dropped { result.dropped
        ≡ (dequeue_of params.now now (L.waiting lane.now) state.old).dropped }
    ensures delivered { IsTrue result.delivered ↔ (result.dropped < length (L.waiting lane.now)) }

    // A lane that isn't empty always delivers.
    ensures last_is_delivered { 0 < length (L.waiting lane.now)
        → result.dropped < length (L.waiting lane.now) }
    ensures empty { length (L.waiting lane.now) ≡ 0 → result.dropped ≡ 0 }

    // State for the next call.
    ensures first_above_time { state.new.first_above_time
        ≤ max state.old.first_above_time (now + params.now.interval) }
    ensures drop_next { state.new.drop_next ≤ max state.old.drop_next (now + params.now.interval) }
    ensures lastcount { state.new.lastcount ≤ state.new.count }
    ensures count { state.new.count ≤ state.old.count + result.dropped }
{
    let dropped = drop_from_front(state, lane, now, params, control);
    Verdict {
        dropped,
        delivered: dropped < lane.count(),
    }
}

/// Scans the candidates as the RFC does, and returns the number of drops.
fn drop_from_front<L: Lane, T: Control>(
    state: &mut CodelState,
    lane: &L,
    now: u64,
    params: &Params,
    control: &T,
) -> usize
    requires params { IsWithinLimits params.now }
    requires control { T.interval control.now ≡ params.now.interval }
    requires now { now < 2 ^ 52 }
    requires stamps { All (λ item. item.stamp ≤ now) (L.waiting lane.now) }
    requires first_above_time { state.old.first_above_time < 2 ^ 53 }
    requires drop_next { state.old.drop_next < 2 ^ 53 }
    requires lastcount { state.old.lastcount ≤ state.old.count }
    requires count { state.old.count + length (L.waiting lane.now) < 2 ^ 63 }
    ensures state { state.new
        ≡ (dequeue_by_loop params.now now (L.waiting lane.now) state.old).state }
    ensures dropped { result
        ≡ (dequeue_by_loop params.now now (L.waiting lane.now) state.old).dropped }
{
    let was_dropping = state.dropping;
    let ok_to_drop = look_at(state, lane, 0, now, params);
    if was_dropping {
        state.dropping = ok_to_drop;
        drop_while_due(state, lane, now, params, control)
    } else if ok_to_drop {
        enter_phase(state, lane, now, params, control);
        1
    } else {
        0
    }
}

/// Returns true iff the candidate at `index`, after the drop of all before it, may be dropped (RFC 8289 section 5,
/// `dodequeue`). It updates `first_above_time`.
fn look_at<L: Lane>(
    state: &mut CodelState,
    lane: &L,
    index: usize,
    now: u64,
    params: &Params,
) -> bool
    requires params { IsWithinLimits params.now }
    requires now { now < 2 ^ 52 }
    requires stamps { All (λ item. item.stamp ≤ now) (L.waiting lane.now) }
    requires index { index ≤ length (L.waiting lane.now) }
    ensures ok_to_drop { result
        ≡ (dodequeue params.now now (drop index (L.waiting lane.now)) state.old).ok_to_drop }
    ensures state { state.new
        ≡ (dodequeue params.now now (drop index (L.waiting lane.now)) state.old).state }
    ensures keeps { state.new ≡ record state.old { first_above_time = state.new.first_above_time } }
    ensures is_there { IsTrue result → index < length (L.waiting lane.now) }
{
    if index == lane.count() {
        state.first_above_time = 0;
        return false;
    }
    if is_below_target(lane, index, now, params) {
        state.first_above_time = 0;
        false
    } else if state.first_above_time == 0 {
        state.first_above_time = now + params.interval;
        false
    } else {
        now >= state.first_above_time
    }
}

/// Returns true iff an item has waited for less than target, or too few bytes wait after it for a drop.
fn is_below_target<L: Lane>(lane: &L, index: usize, now: u64, params: &Params) -> bool
    requires stamps { All (λ item. item.stamp ≤ now) (L.waiting lane.now) }
    requires index { index < length (L.waiting lane.now) }
    ensures { HoldsAt
        (λ item. result ≡ is_below params.now now item (drop (index + 1) (L.waiting lane.now)))
        (L.waiting lane.now) index }
{
    let sojourn_time = now - lane.stamp(index);
    sojourn_time < params.target || lane.bytes_behind(index) <= params.maxpacket
}

/// Drops the items that are due in a phase, and returns their number. The caller has checked the candidate at the
/// front: it may be dropped if the phase is on.
fn drop_while_due<L: Lane, T: Control>(
    state: &mut CodelState,
    lane: &L,
    now: u64,
    params: &Params,
    control: &T,
) -> usize
    requires params { IsWithinLimits params.now }
    requires control { T.interval control.now ≡ params.now.interval }
    requires now { now < 2 ^ 52 }
    requires stamps { All (λ item. item.stamp ≤ now) (L.waiting lane.now) }
    requires count { state.old.count + length (L.waiting lane.now) < 2 ^ 63 }
    requires candidate { IsTrue state.old.dropping → 0 < length (L.waiting lane.now) }
    ensures state { state.new ≡ (drop_loop params.now now (L.waiting lane.now) state.old).state }
    ensures dropped { result ≡ (drop_loop params.now now (L.waiting lane.now) state.old).dropped }
{
    let mut dropped: usize = 0;
    while state.dropping && now >= state.drop_next {
        dropped += 1;
        count_drop(state, lane, dropped, now, params, control);
    }
    dropped
}

/// Counts one drop of a phase and checks the candidate at `next`, after the dropped item: if it may be dropped, sets
/// the next drop time, else ends the phase.
fn count_drop<L: Lane, T: Control>(
    state: &mut CodelState,
    lane: &L,
    next: usize,
    now: u64,
    params: &Params,
    control: &T,
)
    requires params { IsWithinLimits params.now }
    requires control { T.interval control.now ≡ params.now.interval }
    requires now { now < 2 ^ 52 }
    requires stamps { All (λ item. item.stamp ≤ now) (L.waiting lane.now) }
    requires next { next ≤ length (L.waiting lane.now) }
    requires drop_next { state.old.drop_next ≤ now }
    requires count { state.old.count < 2 ^ 63 }
    ensures state { state.new ≡ drop_turn params.now now (drop next (L.waiting lane.now)) state.old }
    ensures count { state.new.count ≡ state.old.count + 1 }
    ensures is_there { IsTrue state.new.dropping → next < length (L.waiting lane.now) }
{
    state.count += 1;
    if look_at(state, lane, next, now, params) {
        state.drop_next += control.step(state.count);
    } else {
        state.dropping = false;
    }
}

/// Drops the candidate at the front and begins a phase. Its initial count is the growth of the count in the last phase,
/// if that is above 1 and that phase is less than 16 intervals ago, else 1.
fn enter_phase<L: Lane, T: Control>(
    state: &mut CodelState,
    lane: &L,
    now: u64,
    params: &Params,
    control: &T,
)
    requires params { IsWithinLimits params.now }
    requires control { T.interval control.now ≡ params.now.interval }
    requires now { now < 2 ^ 52 }
    requires stamps { All (λ item. item.stamp ≤ now) (L.waiting lane.now) }
    requires drop_next { state.old.drop_next < 2 ^ 53 }
    requires lastcount { state.old.lastcount ≤ state.old.count }
    requires candidate { 0 < length (L.waiting lane.now) }
    ensures { state.new ≡ enter_dropping params.now now (drop 1 (L.waiting lane.now)) state.old }
{
    look_at(state, lane, 1, now, params);
    let delta = state.count - state.lastcount;
    let is_recent = now < state.drop_next + 16 * params.interval;
    state.dropping = true;
    state.count = if delta > 1 && is_recent { delta } else { 1 };
    state.drop_next = now + control.step(state.count);
    state.lastcount = state.count;
}
