//! Failed reads of the device: the calls that need them get that refusal, nothing changes, and the
//! relay continues.
use crate::relay::cycles::{DEVICE, Kind, Round, expect_rounds, rows_of};
use crate::relay::script::{Row, Told, expect_round, new_relay, open_at, told_of};
use rly_core::Refusal;
use rly_world_relay::Relay;
use std::alloc::Global;
use std::process::Abort;

/// An opening makes fewer device calls than this.
const MOST_CALLS: u64 = 64;

/// A relay gets 64 datagrams, 32 of which are in flight: its segment is full.
const FILLED: [Round; 3] = [
    (Kind::Take, (1, 1), 32),
    (Kind::Take, (33, 33), 32),
    (Kind::Pick, (1, 1), 32),
];

/// Returns true iff `count` replies report a failed read, and no other reply exists.
fn are_failed(told: &[Told], count: usize) -> bool {
    told.len() == count
        && told
            .iter()
            .all(|each| *each == Told::Refused(Refusal::DeviceRead))
}

/// Opens the relay and makes the requests; this device call fails. Returns whether replies were received: all of them
/// report the failed read.
fn is_told<R: Abort>(rt: &R, alloc: Global, relay: &mut Relay, rows: &[Row], at: u64) -> bool {
    open_at(rt, relay, at);
    let told = told_of(rt, alloc, relay, rows);
    expect!(rt; told.is_empty() || are_failed(&told, rows.len()));
    !told.is_empty()
}

/// Opens the relay and makes the requests; the first device call after an opening fails: if an earlier one does, no
/// relay is opened, and no reply is received. All replies report the failed read, and all requests succeed when they
/// are submitted again.
fn fails_once<R: Abort>(rt: &R, alloc: Global, relay: &mut Relay, rows: &[Row]) {
    for at in 1..MOST_CALLS {
        if is_told(rt, alloc, relay, rows, at) {
            expect_round(rt, alloc, relay, rows);
            return;
        }
    }
    panic!(rt; "no relay was opened");
}

/// The same with a relay that is filled before.
fn fills_and_fails<R: Abort>(rt: &R, alloc: Global, relay: &mut Relay, round: Round) {
    expect_rounds(rt, alloc, relay, &FILLED);
    fails_once(rt, alloc, relay, &rows_of(rt, alloc, round));
}

/// Runs it on new relays.
fn expect_failed_reads<R: Abort>(rt: &R, alloc: Global, rounds: &[Round]) {
    for round in rounds {
        let mut relay = new_relay(rt, alloc, &DEVICE);
        fills_and_fails(rt, alloc, &mut relay, *round);
    }
}

/// The read of a Fetch. And one that the opening of a segment needs: all replies of the round report that it failed.
const FAILED: [Round; 2] = [(Kind::Fetch, (1, 1), 1), (Kind::Pick, (33, 33), 4)];

#[test]
fn failed_reads_of_a_fetch_and_of_a_victim(rt: HostRuntime) {
    expect_failed_reads(&rt, rt.alloc(), &FAILED);
}
