//! A receiving worker over a link with a reorder buffer.
use crate::reorder::packets::{Sent, are_sent, data, put};
use rly_core::{Params, PeerId};
use rly_hop::StationId;
use rly_link::{MemLink, MemTurn, MemWaker};
use rly_link_reorder::{ReorderBuffer, ReorderedLink};
use rly_machine::Machine;
use rly_plan::Plan;
use rly_threads_workers::{Ends, MemDesk, receiver_run};
use std::alloc::Global;
use std::process::Abort;
use std::sync::Wait;

/// Station 7, after station 3, with a route to destination 12.
const PLAN: &str = r#"
station = 7
[[peer]]
id = 1
station = 3
listen = "127.0.0.1:4001"
remote = "127.0.0.1:4002"
[[hop]]
id = 1
station = 9
listen = "127.0.0.1:4003"
remote = "127.0.0.1:4004"
contacts = [[100, 200]]
[[route]]
destination = 12
hop = 1
"#;

/// A receiving worker of an empty spool with its link.
type MemEnds = Ends<ReorderedLink<MemLink>, MemDesk, MemTurn, MemWaker>;

/// Adds the Data of a turn to the receives of a link, and then nothing.
fn put_turn<R: Abort>(rt: &R, alloc: Global, coming: &mut Vec<Option<Vec<u8>>>, numbers: &[u8]) {
    for number in numbers {
        put(rt, alloc, coming, &data(*number));
    }
    put(rt, alloc, coming, &[]);
}

/// The interfaces of a worker whose link receives these turns.
fn ends_of<R: Abort>(rt: &R, alloc: Global, turns: &[&[u8]]) -> MemEnds {
    let mut coming = Vec::new(alloc);
    for numbers in turns {
        put_turn(rt, alloc, &mut coming, *numbers);
    }
    let early = ReorderBuffer::new(alloc, 1_223).expect(rt, "memory");
    let machine = Machine::new(alloc, Params::DEFAULT).expect(rt, "memory");
    Ends {
        link: ReorderedLink::new(
            MemLink::new(alloc, coming, 0),
            StationId(7),
            StationId(3),
            early,
        ),
        desk: MemDesk::new(alloc, machine),
        turn: MemTurn::new(150, 1, turns.len() as u64),
        waker: MemWaker::new(),
    }
}

/// What a row shows; the numbers of the Data of each turn; the packets that are sent; and then the number of datagrams
/// stored, of calls made, and of receives that waited. A number of calls or receives that is 0 isn't compared.
type Row = (
    &'static str,
    &'static [&'static [u8]],
    &'static [Sent],
    [u64; 3],
);

/// Returns true iff a worker that ended left what a row says.
fn is_left(ends: &MemEnds, row: &Row) -> bool {
    let [items, calls, waits] = row.3;
    let link = ends.link.link();
    are_sent(link, row.2)
        && ends.desk.machine().item_count() == items
        && (calls == 0 || ends.desk.calls() == calls)
        && (waits == 0 || link.waits() == waits)
}

/// The worker receives all packets of its link, and its link sends these.
fn run<R: Abort + Wait>(rt: &R, alloc: Global, ends: &mut MemEnds, row: &Row) {
    let plan = Plan::from_toml(alloc, PLAN).ok().expect(rt, "a plan");
    receiver_run(rt, alloc, &plan, PeerId(1), ends);
    crate::expect::expect(rt, is_left(ends, row), row.0);
}

/// A new worker receives the turns of a row.
fn receive<R: Abort + Wait>(rt: &R, alloc: Global, row: &Row) {
    let mut ends = ends_of(rt, alloc, row.1);
    run(rt, alloc, &mut ends, row);
}

const ROWS: [Row; 4] = [
    // In the turn in which 2 is received the eight after it are asked with it. The first custody has a Heard after it,
    // of 3 to 10.
    (
        "one lost packet of ten is sent again alone",
        &[&[1, 3, 4, 5, 6, 7, 8, 9, 10], &[2]],
        &[(2, 1, 0), (5, 1, 0x7f80_0000_0000_0000), (2, 10, 0)],
        [10, 18, 2],
    ),
    // 3 is stored, and custody stays at 1. A turn in which nothing came sends nothing.
    (
        "a stored Data is not acknowledged",
        &[&[1], &[3], &[], &[3]],
        &[
            (2, 1, 0),
            (2, 1, 0),
            (5, 1, 0x4000_0000_0000_0000),
            (2, 1, 0),
            (5, 1, 0x4000_0000_0000_0000),
        ],
        [1, 0, 0],
    ),
    (
        "packets that overtake each other within a turn are taken in it",
        &[&[3, 1, 2]],
        &[(2, 3, 0)],
        [3, 0, 0],
    ),
    (
        "in order nothing is asked twice",
        &[&[1, 2, 3], &[4, 5], &[6]],
        &[(2, 3, 0), (2, 5, 0), (2, 6, 0)],
        [6, 6, 0],
    ),
];

fn expect_rows<R: Abort + Wait>(rt: &R, alloc: Global, rows: &[Row]) {
    for row in rows {
        receive(rt, alloc, row);
    }
}

#[test]
fn workers_over_a_reorder_buffer(rt: HostRuntime) {
    expect_rows(&rt, rt.alloc(), &ROWS);
}
