ghost use Rattle.std.specs.Prelude.{◌≡◌, ◌≤◌, ◌<◌, ◌+◌, ◌^◌, ◌↔◌, All, IfNone, IfSome, IsTrue, length, map};
ghost use Rattle.std.specs.Prelude.{slice_index_or, sum, sum_by};
ghost use Rattle.rly_core.specs.Limits.{IsWithinLimits};
ghost use Rattle.rly_machine.specs.Accepted.{max_seq};
ghost use Rattle.rly_machine.specs.Kept.{hop_state, state_of};
ghost use Rattle.rly_machine.specs.Sound.{IsSound, IsSoundHop};
ghost use Rattle.rly_machine.specs.State.{bytes_of, live_line};
ghost use Rattle.rly_segment_checkpoint.specs.HelpersRows.{Follows, IsRow};

use crate::form::Form;
use crate::reader::Parts;
use rly_core::{Params, limits};
use rly_machine::{CodelState, Content, Hop, Item};

/// The totals over the hops of a spool.
#[derive(Clone, Copy)]
struct Totals {
    taken: u64,
    items: u64,
    bytes: u64,
}

/// Returns true iff a spool of these parts is sound, as after any list of commands.
pub(crate) fn is_sound<C: Form>(params: &Params, parts: &Parts<C>) -> bool
    requires params { IsWithinLimits params.now }
    requires hop_count { length parts.now.hops.items ≡ params.now.hops }
    requires peer_count { length parts.now.lasts.items ≡ params.now.peers }
    ensures { IsTrue result ↔ IsSound C.length_of (state_of params.now parts.now.hops parts.now.lasts parts.now.seq) }
{
    let lasts = parts.lasts.as_slice();
    if parts.seq > limits::MAX_SEQ || !are_within(lasts, parts.seq) {
        return false;
    }
    let Some(totals) = totals_of(params, parts.seq, parts.hops.as_slice()) else {
        return false;
    };
    if sum_of(lasts) != totals.taken || totals.items > params.items {
        return false;
    }
    totals.bytes <= params.bytes
}

/// Returns true iff no number is greater than `most`.
fn are_within(numbers: &[u64], most: u64) -> bool
    ensures { IsTrue result ↔ All (λ number. number ≤ most) numbers.now }
{
    numbers.iter().all(|number| *number <= most)
}

/// Returns the sum of numbers.
fn sum_of(numbers: &[u64]) -> u64
    requires { sum numbers.now < 2 ^ 64 }
    ensures { result ≡ sum numbers.now }
{
    numbers.iter().sum()
}

/// Returns the totals over the hops, if each is sound and none has more than the limits of the spool.
fn totals_of<C: Form>(params: &Params, seq: u64, hops: &[Hop<C>]) -> Option<Totals>
    requires params { IsWithinLimits params.now }
    requires seq { seq ≤ max_seq }
    requires count { length hops.now ≤ 64 }
    ensures none { IfNone result (¬ (All (IsSoundHop C.length_of params.now seq) (map hop_state hops.now)
        × (sum_by (λ h. length (live_line h)) (map hop_state hops.now) ≤ params.now.items))) }
    ensures hops { IfSome result (λ _. All (IsSoundHop C.length_of params.now seq) (map hop_state hops.now)) }
    ensures taken { IfSome result (λ totals. totals.taken ≡ sum_by (λ h. h.taken) (map hop_state hops.now)) }
    ensures items { IfSome result
        (λ totals. totals.items ≡ sum_by (λ h. length (live_line h)) (map hop_state hops.now)) }
    ensures bytes { IfSome result
        (λ totals. totals.bytes ≡ sum_by (λ h. bytes_of C.length_of (live_line h)) (map hop_state hops.now)) }
{
    let mut totals = Totals {
        taken: 0,
        items: 0,
        bytes: 0,
    };
    for hop in hops {
        if !is_sound_hop(params, seq, hop) {
            return None;
        }
        let items = hop.live_items();
        if items > params.items {
            return None;
        }
        totals.taken += hop.taken;
        totals.items += items;
        totals.bytes += hop.live_bytes();
    }
    Some(totals)
}

/// Returns true iff a hop is sound.
fn is_sound_hop<C: Form>(params: &Params, seq: u64, hop: &Hop<C>) -> bool
    requires params { IsWithinLimits params.now }
    requires seq { seq ≤ max_seq }
    ensures { IsTrue result ↔ IsSoundHop C.length_of params.now seq (hop_state hop.now) }
{
    if !balances(hop) || hop.taken > seq {
        return false;
    }
    if hop.moment >= limits::MOMENT_LIMIT || hop.flight.len() as u64 > params.window {
        return false;
    }
    is_codel(&hop.codel, hop.moment + params.interval, hop.dropped) && is_row(hop, seq, params)
}

/// Returns true iff each datagram that a hop took waits, is in flight, was dropped, expired or was released.
fn balances<C: Form>(hop: &Hop<C>) -> bool
    ensures { IsTrue result ↔ (hop.now.taken ≡ length hop.now.queue.items + length hop.now.flight.items
        + hop.now.dropped + hop.now.expired + hop.now.released) }
{
    let live = hop.queue.len() as u64 + hop.flight.len() as u64;
    hop.dropped <= hop.taken
        && hop.expired <= hop.taken - hop.dropped
        && hop.released <= hop.taken - hop.dropped - hop.expired
        && hop.taken - hop.dropped - hop.expired - hop.released == live
}

/// Returns true iff CoDel's times are at most `latest`, and its counts at most the drops.
fn is_codel(codel: &CodelState, latest: u64, dropped: u64) -> bool
    ensures { IsTrue result ↔ (codel.now.first_above_time ≤ latest) × (codel.now.drop_next ≤ latest)
        × (codel.now.lastcount ≤ codel.now.count) × (codel.now.count ≤ dropped) }
{
    codel.first_above_time <= latest
        && codel.drop_next <= latest
        && codel.lastcount <= codel.count
        && codel.count <= dropped
}

/// Returns true iff a hop's live datagrams are in order.
fn is_row<C: Form>(hop: &Hop<C>, seq: u64, params: &Params) -> bool
    requires { length (live_line (hop_state hop.now)) < 2 ^ 64 }
    ensures { IsTrue result ↔ IsRow C.length_of params.now hop.now.moment seq 0 0 (live_line (hop_state hop.now)) }
{
    let count = hop.flight.len() + hop.queue.len();
    let mut id = 0;
    let mut stamp = 0;
    for index in 0..count {
        let item = live_at(hop, index);
        if !follows(item, id, stamp, hop.moment, seq, params) {
            return false;
        }
        id = item.id;
        stamp = item.stamp;
    }
    true
}

/// Returns a live datagram of a hop; the index counts from the first in flight.
pub(crate) fn live_at<C: Form>(hop: &Hop<C>, index: usize) -> &Item<C>
    requires { index < length (live_line (hop_state hop.now)) }
    ensures { result.now ≡ slice_index_or (live_line (hop_state hop.now)) index result.now }
{
    let in_flight = hop.flight.len();
    if index < in_flight {
        &hop.flight[index]
    } else {
        hop.queue.item(index - in_flight)
    }
}

/// Returns true iff a datagram may follow one with that id and stamp.
fn follows<C: Form>(
    item: &Item<C>,
    id: u64,
    stamp: u64,
    moment: u64,
    seq: u64,
    params: &Params,
) -> bool
    ensures { IsTrue result ↔ Follows C.length_of params.now moment seq id stamp item.now }
{
    id < item.id
        && item.id <= seq
        && stamp <= item.stamp
        && item.stamp <= moment
        && item.limit < limits::AGE_LIMIT
        && item.payload.len() as u64 <= params.payload
}
