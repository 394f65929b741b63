//! Steps of a relay with one allocation that fails (`bench/scarce_memory`). A step that returns
//! the error has done nothing, and succeeds when it is retried; else the reply to the affected
//! request reports it, and the relay continues.
use crate::relay::cycles::DEVICE;
use crate::relay::script::{
    Act, HOP, PEER, SEAT, Told, new_relay, open_again, step, told_in, told_once,
};
use rly_core::Refusal;
use rly_disk::Torn;
use rly_machine::{Ask, Command, Payload, Query};
use rly_world_relay::{Relay, Step};
use std::alloc::Global;
use std::process::Abort;
use test_support::{before, was_refused};

/// The number of requests.
const ASKS: usize = 4;

/// Returns a Take from the peer, of 100 bytes.
fn take<R: Abort>(rt: &R, alloc: Global, number: u64) -> Ask {
    let payload = vec![in alloc; 7u8; 100].expect(rt, "memory");
    Ask::Command(Command::Take {
        peer: PEER,
        number,
        hop: HOP,
        stamp: 0,
        limit: 0,
        payload: Payload::new(payload),
    })
}

/// Two Takes of one peer, a Window and a Show.
fn asks<R: Abort>(rt: &R, alloc: Global) -> Vec<Ask> {
    let window = Ask::Query(Query::Window { hop: HOP });
    let show = Ask::Query(Query::Show { hop: HOP });
    let asks = vec![in alloc; take(rt, alloc, 1), take(rt, alloc, 2), window, show];
    asks.ok().expect(rt, "memory")
}

/// Returns the steps that submit the requests, make a round of them, and receive the replies.
fn next<R: Abort>(rt: &R, alloc: Global, index: usize) -> Step {
    match index {
        0 => Step::Put(SEAT, asks(rt, alloc)),
        1 => Step::Round(64),
        _ => Step::Hear(SEAT),
    }
}

/// Makes a step, with a retry after a failed allocation. Returns true iff an allocation failed in a step that
/// succeeded.
fn is_starved<R: Abort>(rt: &R, alloc: Global, relay: &mut Relay, index: usize) -> bool {
    let first = next(rt, alloc, index);
    before(alloc).expect(rt, "memory");
    let is_made = relay.step(first).is_ok();
    let refused = was_refused(alloc);
    if !is_made {
        expect!(rt; refused);
        step(rt, relay, next(rt, alloc, index));
    }
    is_made && refused
}

/// Returns the number of datagrams that the relay took, by its counters after it was reopened.
fn taken_of<R: Abort>(rt: &R, alloc: Global, relay: &mut Relay) -> u64 {
    open_again(rt, relay, Torn::AsSynced);
    match told_once(rt, alloc, relay, Act::Show) {
        Some(Told::Shown(counts)) => counts.0,
        _ => panic!(rt; "the hop is not shown"),
    }
}

/// Returns the number of these replies.
fn count_of(told: &[Told], wanted: Told) -> usize {
    told.iter().filter(|each| **each == wanted).count()
}

/// Returns the number of replies that a datagram was taken.
fn taken_in(told: &[Told]) -> usize {
    told.iter()
        .filter(|each| matches!(each, Told::Taken(_)))
        .count()
}

/// Compares the replies. Returns the number taken, and whether all are Unsure.
fn expect_told<R: Abort>(rt: &R, told: &[Told], starved: bool) -> (u64, bool) {
    let taken = taken_in(told);
    let unsure = count_of(told, Told::Refused(Refusal::Unsure));
    expect!(rt; told.len() == ASKS);
    expect!(rt; starved || taken == 2);
    expect!(rt; count_of(told, Told::Refused(Refusal::OutOfMemory)) <= 1);
    expect!(rt; unsure == 0 || unsure == ASKS);
    (taken as u64, unsure == ASKS)
}

/// Makes the steps. Returns true iff an allocation failed in one that succeeded.
fn are_starved<R: Abort>(rt: &R, alloc: Global, relay: &mut Relay) -> bool {
    let mut starved = false;
    for index in 0..3 {
        starved |= is_starved(rt, alloc, relay, index);
    }
    starved
}

/// Makes the steps, and compares the replies and the state after them.
fn expect_steps_of<R: Abort>(rt: &R, alloc: Global, relay: &mut Relay) {
    let starved = are_starved(rt, alloc, relay);
    let told = told_in(rt, alloc, relay.replies_of(SEAT), 0);
    let (taken, unsure) = expect_told(rt, &told, starved);
    let stands = taken_of(rt, alloc, relay);
    expect!(rt;
        match unsure {
            true => stands == 0 || stands == 2,
            false => stands == taken,
        }
    );
}

/// Makes them on a new relay.
fn expect_steps<R: Abort>(rt: &R, alloc: Global) {
    let mut relay = new_relay(rt, alloc, &DEVICE);
    expect_steps_of(rt, alloc, &mut relay);
}

/// Both are taken, except one whose allocation failed; that is absent after the relay is reopened. If the disk in
/// memory couldn't grow, all replies are Unsure.
#[test]
fn steps_of_a_relay(rt: HostRuntime) {
    expect_steps(&rt, rt.alloc());
}
