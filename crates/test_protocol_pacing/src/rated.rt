//! A sending worker whose hop has a rate limit.

use crate::spools::{expect_counts, take_for};
use rly_core::{HopId, Params};
use rly_link::{MemLink, MemTurn, MemWaker};
use rly_machine::{Machine, Payload};
use rly_plan::Plan;
use rly_threads_workers::{Ends, MemDesk, sender_run};
use std::alloc::Global;
use std::process::Abort;
use std::sync::Wait;

/// Station 7, whose hop 1 has a rate of 1,246 bytes a second: a message of the longest payload without a limit,
/// with its headers. Hop 2 has no rate.
const PLAN: &str = r#"
station = 7
[[peer]]
id = 1
station = 3
listen = ""
remote = ""
[[hop]]
id = 1
station = 9
listen = ""
remote = ""
resend = 60_000
rate = 1_246
contacts = [[0, 1_000_000_000]]
[[hop]]
id = 2
station = 10
listen = ""
remote = ""
resend = 60_000
contacts = [[0, 1_000_000_000]]
"#;

/// The interfaces of a worker in these tests.
type MemEnds = Ends<MemLink, MemDesk, MemTurn, MemWaker>;

/// A link that receives nothing.
fn silence(alloc: Global) -> MemLink {
    MemLink::new(alloc, Vec::new(alloc), 0)
}

/// Eight of the longest datagrams wait for a hop, whose sender runs for this many turns of 250 ms without
/// receiving.
fn send<R: Abort + Wait>(rt: &R, alloc: Global, hop: HopId, turns: u64) -> MemEnds {
    // Nothing is dropped: the backlog is never above `maxpacket`.
    let params = Params {
        window: 64,
        maxpacket: 65_535,
        ..Params::DEFAULT
    };
    let mut machine: Machine<Payload> = Machine::new(alloc, params).expect(rt, "memory");
    let payload = [0; 1_200];
    for number in 1..=8 {
        take_for(rt, alloc, &mut machine, number, hop, &payload);
    }
    let mut ends = Ends {
        link: silence(alloc),
        desk: MemDesk::new(alloc, machine),
        turn: MemTurn::new(0, 250_000, turns),
        waker: MemWaker::new(),
    };
    let plan = Plan::from_toml(alloc, PLAN).ok().expect(rt, "a plan");
    sender_run(rt, alloc, &plan, hop, &params, &mut ends);
    ends
}

/// The number of turns, of calls and of sent packets. The rate permits a quarter of a message per turn, and
/// initially two of the longest, which have a limit and so five bytes more. Turns 3 and 5 send one each, and half a
/// message and ten bytes of credit are left. So turn 6 asks nothing, turn 7 picks, since there is room for one of
/// the longest, and turn 8 sends, which leaves a quarter and ten bytes. From then on every fourth turn sends one.
const RATED: [(u64, u64, usize); 10] = [
    (1, 1, 0),
    (2, 2, 0),
    (3, 3, 1),
    (4, 4, 1),
    (5, 5, 2),
    (6, 5, 2),
    (7, 6, 2),
    (8, 7, 3),
    (10, 7, 3),
    (12, 9, 4),
];

/// Checks the number of calls and of sent packets, and that the rest waits.
fn expect_paced<R: Abort>(rt: &R, ends: &MemEnds, calls: u64, sent: usize) {
    expect!(*rt; (ends.desk.calls(), ends.link.deliveries().len()) == (calls, sent));
    let flight = calls.saturating_sub(1).saturating_sub(sent as u64);
    expect_counts(rt, &ends.desk, (8u64.saturating_sub(flight), flight, 0));
}

/// The same after this many turns of the hop with a rate.
fn expect_rated<R: Abort + Wait>(rt: &R, alloc: Global, turns: u64, calls: u64, sent: usize) {
    expect_paced(rt, &send(rt, alloc, HopId(1), turns), calls, sent);
}

/// Datagrams above the rate stay in the spool: one is picked only if it may be sent at once.
#[test]
fn a_rate_is_kept(rt: HostRuntime) {
    for (turns, calls, sent) in &RATED {
        expect_rated(&rt, rt.alloc(), *turns, *calls, *sent);
    }
}

/// The number of packets that the hop without a rate sends in this many turns.
fn sent_without_a_rate<R: Abort + Wait>(rt: &R, alloc: Global, turns: u64) -> usize {
    send(rt, alloc, HopId(2), turns).link.deliveries().len()
}

/// The hop without a rate sends all eight by turn 9: 1, 2, 4 and 1.
#[test]
fn another_hop_has_no_rate(rt: HostRuntime) {
    expect!(rt; sent_without_a_rate(&rt, rt.alloc(), 9) == 8);
}
