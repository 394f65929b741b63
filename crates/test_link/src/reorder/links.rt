//! A link with a reorder buffer, over a link in memory. The stations are those of
//! docs/PROTOCOL.md, "An exchange, byte for byte". The longest Data, and one with a limit, are tested
//! with the program (tests/test_links.py).
use crate::expect::{expect, expect_row};
use crate::reorder::packets::{Sent, are_sent, custody, data, put, refused};
use rly_hop::StationId;
use rly_link::{Link, LinkFault, MAX_PACKET, MemLink, Sleep};
use rly_link_reorder::{ReorderBuffer, ReorderedLink};
use std::alloc::Global;
use std::process::Abort;

/// A call of a link, and its observed effect.
#[derive(Clone, Copy)]
enum Act {
    /// A receive that doesn't wait returns Data of this number.
    Data(u8),
    /// One that waits returns Data of this number.
    DataAtOnce(u8),
    /// One that waits returns nothing.
    Nothing,
    /// One that waits fails.
    Fails,
    /// The refusal of this number is sent.
    Refuses(u8),
    /// Custody of all numbers up to this one is sent.
    Acknowledges(u8),
    /// The same, and the call fails.
    AcknowledgesNot(u8),
    /// The link below had this many calls.
    Calls(u64),
    /// This many of them were receives that wait.
    Waited(u64),
    /// This many failed.
    Failed(u64),
    /// It sent this many Heards.
    Heards(u64),
}

/// A receive returns this packet, with or without a wait.
fn gives<R: Abort>(
    rt: &R,
    link: &mut ReorderedLink<MemLink>,
    waits: bool,
    packet: &[u8],
    row: u64,
) {
    let mut buffer = [0; MAX_PACKET];
    let sleep = if waits { Sleep::Woken } else { Sleep::No };
    let found = link.recv(sleep, &mut buffer);
    expect_row(rt, found == Ok(Some(packet.len())), "given", row);
    expect_row(rt, buffer.starts_with(packet), "itself", row);
}

/// The result of a receive that waits, whatever the packet.
fn waited(link: &mut ReorderedLink<MemLink>) -> Result<Option<usize>, LinkFault> {
    let mut buffer = [0; MAX_PACKET];
    link.recv(Sleep::Woken, &mut buffer)
}

/// Whether an act without a packet is observed.
fn is_seen(link: &mut ReorderedLink<MemLink>, act: &Act) -> bool {
    match act {
        Act::Data(_) | Act::DataAtOnce(_) => false,
        Act::Nothing => waited(link) == Ok(None),
        Act::Fails => waited(link) == Err(LinkFault),
        Act::Refuses(number) => link.send(&refused(*number)) == Ok(()),
        Act::Acknowledges(last) => link.send(&custody(*last)) == Ok(()),
        Act::AcknowledgesNot(last) => link.send(&custody(*last)) == Err(LinkFault),
        Act::Calls(calls) => link.link().calls() == *calls,
        Act::Waited(waits) => link.link().waits() == *waits,
        Act::Failed(failures) => link.failures() == *failures,
        Act::Heards(heards) => link.heards_sent() == *heards,
    }
}

/// Executes the acts, and checks the effect of each.
fn run<R: Abort>(rt: &R, link: &mut ReorderedLink<MemLink>, acts: &[Act]) {
    let mut row = 0u64;
    for act in acts {
        row = row.saturating_add(1);
        match act {
            Act::Data(number) => gives(rt, link, false, &data(*number), row),
            Act::DataAtOnce(number) => gives(rt, link, true, &data(*number), row),
            _ => expect_row(rt, is_seen(link, act), "seen", row),
        }
    }
}

/// What a row shows, the numbers of the Data that are received, 0 for a receive of nothing, the call of the link below
/// that fails, the acts, and the packets that are sent below.
type Row = (
    &'static str,
    &'static [u8],
    u64,
    &'static [Act],
    &'static [Sent],
);

/// The link of a row.
fn link_of<R: Abort>(
    rt: &R,
    alloc: Global,
    numbers: &[u8],
    fails_at: u64,
) -> ReorderedLink<MemLink> {
    let mut packets = Vec::new(alloc);
    for number in numbers {
        match number {
            0 => put(rt, alloc, &mut packets, &[]),
            _ => put(rt, alloc, &mut packets, &data(*number)),
        }
    }
    let below = MemLink::new(alloc, packets, fails_at);
    let early = ReorderBuffer::new(alloc, 1_223).expect(rt, "memory");
    ReorderedLink::new(below, StationId(7), StationId(3), early)
}

fn expect_told<R: Abort>(rt: &R, alloc: Global, row: &Row) {
    let (shows, numbers, fails_at, acts, sent) = row;
    let mut link = link_of(rt, alloc, *numbers, *fails_at);
    run(rt, &mut link, *acts);
    expect(rt, are_sent(&link.into_link(), *sent), *shows);
}

const ROWS: [Row; 9] = [
    // Data 3 is received, and no custody of it is sent. Once 2 is received, 3 is delivered again, without a receive of
    // the link below.
    (
        "a lost packet costs itself alone",
        &[1, 0, 3, 0, 2, 0],
        0,
        &[
            Act::Data(1),
            Act::Nothing,
            Act::Acknowledges(1),
            Act::Data(3),
            Act::Nothing,
            Act::Acknowledges(1),
            Act::Data(2),
            Act::Calls(8),
            Act::Data(3),
            Act::Calls(8),
            Act::Nothing,
            Act::Acknowledges(3),
            Act::Nothing,
        ],
        &[
            (2, 1, 0),
            (2, 1, 0),
            (5, 1, 0x4000_0000_0000_0000),
            (2, 3, 0),
        ],
    ),
    // 1 is kept, 2 was lost, and 3 and 4 wait for it: one Heard, the one of docs/PROTOCOL.md.
    (
        "a gap is told after the custody",
        &[1, 3, 4],
        0,
        &[
            Act::Data(1),
            Act::Data(3),
            Act::Data(4),
            Act::Heards(0),
            Act::Acknowledges(1),
            Act::Heards(1),
        ],
        &[(2, 1, 0), (5, 1, 0x6000_0000_0000_0000)],
    ),
    (
        "without a gap nothing is told",
        &[1, 2, 3],
        0,
        &[
            Act::Data(1),
            Act::Data(2),
            Act::Acknowledges(2),
            Act::Data(3),
            Act::Acknowledges(3),
            Act::Heards(0),
        ],
        &[(2, 2, 0), (2, 3, 0)],
    ),
    // A second custody has a Heard only if Data came since the first one, whatever Data that is.
    (
        "a gap is told again only after Data",
        &[1, 3, 0, 1],
        0,
        &[
            Act::Data(1),
            Act::Data(3),
            Act::Acknowledges(1),
            Act::Nothing,
            Act::Acknowledges(1),
            Act::Heards(1),
            Act::Data(1),
            Act::Acknowledges(1),
            Act::Heards(2),
        ],
        &[
            (2, 1, 0),
            (5, 1, 0x4000_0000_0000_0000),
            (2, 1, 0),
            (2, 1, 0),
            (5, 1, 0x4000_0000_0000_0000),
        ],
    ),
    // As 2 after 1 here; a refusal alone has no Heard after it.
    (
        "a number that was refused is marked",
        &[1, 2],
        0,
        &[
            Act::Data(1),
            Act::Data(2),
            Act::Refuses(2),
            Act::Calls(3),
            Act::Acknowledges(1),
        ],
        &[(3, 2, 0), (2, 1, 0), (5, 1, 0x8000_0000_0000_0000)],
    ),
    // None follows later without new Data.
    (
        "a custody that can't be sent has no Heard after it",
        &[1, 3],
        3,
        &[
            Act::Data(1),
            Act::Data(3),
            Act::AcknowledgesNot(1),
            Act::Failed(1),
            Act::Heards(0),
            Act::Acknowledges(1),
            Act::Heards(0),
        ],
        &[(2, 1, 0)],
    ),
    (
        "a Heard that can't be sent is a failure of the call, and counts as sent",
        &[1, 3],
        4,
        &[
            Act::Data(1),
            Act::Data(3),
            Act::AcknowledgesNot(1),
            Act::Failed(1),
            Act::Heards(1),
            Act::Acknowledges(1),
            Act::Heards(1),
        ],
        &[(2, 1, 0), (2, 1, 0)],
    ),
    (
        "a receive that waits returns a due packet at once",
        &[2],
        0,
        &[
            Act::Data(2),
            Act::Acknowledges(1),
            Act::DataAtOnce(2),
            Act::Waited(0),
            Act::Nothing,
            Act::Waited(1),
        ],
        &[(2, 1, 0), (5, 1, 0x8000_0000_0000_0000)],
    ),
    (
        "a call that fails below fails, and is counted there",
        &[2, 3],
        2,
        &[
            Act::Data(2),
            Act::Fails,
            Act::Failed(1),
            Act::Acknowledges(1),
            Act::Data(2),
            Act::Failed(1),
        ],
        &[(2, 1, 0), (5, 1, 0x8000_0000_0000_0000)],
    ),
];

#[test]
fn acts_on_a_link(rt: HostRuntime) {
    for row in &ROWS {
        expect_told(&rt, rt.alloc(), row);
    }
}
