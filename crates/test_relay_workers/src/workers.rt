//! The links, desks and clocks in memory of these tests.

ghost use Rattle.std.specs.Prelude.{None};

use rly_core::{HopId, Params, PeerId, Refusal};
use rly_line::{BatchError, CallError};
use rly_link::{MemLink, MemTurn, Waker};
use rly_machine::{Answer, Ask, Command, Machine, Payload, Reply};
use rly_plan::Plan;
use rly_threads_workers::{Desk, Ends, MemDesk};
use std::alloc::Global;
use std::process::Abort;
use std::sync::Wait;

/// Station 7, after station 3 and before stations 9 and 10.
const PLAN: &str = r#"
station = 7
[[peer]]
id = 1
station = 3
listen = "127.0.0.1:4001"
remote = "127.0.0.1:4002"
[[hop]]
id = 1
station = 9
listen = "127.0.0.1:4003"
remote = "127.0.0.1:4004"
resend = 40
contacts = [[100, 200], [300, 350], [1_000, 1_000_000_000]]
[[hop]]
id = 2
station = 10
listen = "127.0.0.1:4005"
remote = "127.0.0.1:4006"
resend = 3_000
contacts = [[1_000, 1_000_000_000]]
[[route]]
destination = 12
hop = 1
[[route]]
destination = 14
hop = 2
"#;

/// That plan.
pub(super) fn plan<R: Abort>(rt: &R, alloc: Global) -> Plan {
    Plan::from_toml(alloc, PLAN).ok().expect(rt, "a plan")
}

/// A packet under each of these numbers, each after this many receives without a packet. The number's last byte is
/// at offset 15; a shorter packet has none.
pub(super) type Packets<'a> = (usize, &'a [u8], &'a [u8]);

/// A packet under a number.
fn numbered<R: Abort>(rt: &R, alloc: Global, packet: &[u8], number: u8) -> Vec<u8> {
    let mut bytes = packet.to_vec(alloc).expect(rt, "memory");
    if let Some(last) = bytes.get_mut(15) {
        *last = number;
    }
    bytes
}

/// Adds this many receives without a packet, and then a packet.
fn give<R: Abort>(rt: &R, coming: &mut Vec<Option<Vec<u8>>>, silences: usize, packet: Vec<u8>) {
    for _receive in 0..silences {
        coming.push(None).expect(rt, "memory");
    }
    coming.push(Some(packet)).expect(rt, "memory");
}

/// Adds a packet under each of its numbers.
fn give_all<R: Abort>(
    rt: &R,
    alloc: Global,
    coming: &mut Vec<Option<Vec<u8>>>,
    (silences, packet, numbers): Packets<'_>,
) {
    for number in numbers {
        give(rt, coming, silences, numbered(rt, alloc, packet, *number));
    }
}

/// The packets of a link, receive by receive.
fn coming<R: Abort>(rt: &R, alloc: Global, packets: &[Packets<'_>]) -> Vec<Option<Vec<u8>>> {
    let mut coming = Vec::new(alloc);
    for some in packets {
        give_all(rt, alloc, &mut coming, *some);
    }
    coming
}

/// A link that receives only these. Of its calls that of number `fails_at` fails.
pub(super) fn link<R: Abort>(
    rt: &R,
    alloc: Global,
    heard: &[Packets<'_>],
    fails_at: u64,
) -> MemLink {
    MemLink::new(alloc, coming(rt, alloc, heard), fails_at)
}

/// Whether these are the first of the packets.
fn begin(packets: &[Option<Vec<u8>>], delivered: &[Vec<u8>]) -> bool {
    if delivered.len() > packets.len() {
        return false;
    }
    for (sent, packet) in delivered.iter().zip(packets) {
        match packet {
            Some(bytes) if bytes.as_slice() == sent.as_slice() => {}
            _ => return false,
        }
    }
    true
}

/// Whether the packets sent are the first of these.
pub(super) fn are_sent<R: Abort>(
    rt: &R,
    alloc: Global,
    delivered: &[Vec<u8>],
    packets: &[Packets<'_>],
) -> bool {
    begin(&coming(rt, alloc, packets), delivered)
}

/// A spool, and the number of datagrams that it has stored from a peer: first those for hop 1, then those for hop
/// 2.
#[derive(Clone, Copy)]
pub(super) struct Spool {
    pub(super) params: Params,
    pub(super) peer: u16,
    pub(super) first: u64,
    pub(super) second: u64,
}

/// A spool stores a datagram from a peer: its number, its hop and its payload.
fn take<R: Abort>(
    rt: &R,
    alloc: Global,
    machine: &mut Machine<Payload>,
    peer: u16,
    (number, hop, payload): (u64, u16, &[u8]),
) {
    let take = Ask::Command(Command::Take {
        peer: PeerId(peer),
        number,
        hop: HopId(hop),
        stamp: 0,
        limit: 0,
        payload: Payload::new(payload.to_vec(alloc).expect(rt, "memory")),
    });
    let reply = machine.evaluate(alloc, take);
    expect!(*rt; matches!(&reply, Ok(Reply::Taken(_))));
}

/// A spool stores its datagrams.
fn fill<R: Abort>(rt: &R, alloc: Global, machine: &mut Machine<Payload>, spool: &Spool) {
    for number in 1..=spool.first.saturating_add(spool.second) {
        let datagram: (u64, u16, &[u8]) = match number <= spool.first {
            true => (number, 1, b"\x00\x0c\x41"),
            false => (number, 2, b"\x00\x0e\x42"),
        };
        take(rt, alloc, machine, spool.peer, datagram);
    }
}

/// Such a spool.
pub(super) fn machine<R: Abort>(rt: &R, alloc: Global, spool: &Spool) -> Machine<Payload> {
    assert!(rt; spool.params.check().is_ok());
    let mut machine = Machine::new(alloc, spool.params).expect(rt, "memory");
    fill(rt, alloc, &mut machine, spool);
    machine
}

/// A desk in memory that may lose one answer: that to the ask of this number, counted from 1, is this refusal. 0 is
/// none.
#[derive(Drop)]
pub(super) struct Losing {
    pub(super) desk: MemDesk,
    pub(super) lost: (u64, Refusal),
}

impl Desk for Losing {
    ghost asked = { λ _. None };

    fn call<R: Wait>(&mut self, rt: &R, ask: Ask) -> Result<Answer, CallError> {
        let mut answer = self.desk.call(rt, ask)?;
        let (at, refusal) = self.lost;
        if self.desk.calls() == at {
            answer.reply = Reply::Refused(refusal);
        }
        Ok(answer)
    }

    fn call_all<R: Wait>(
        &mut self,
        rt: &R,
        asks: &mut Vec<Ask>,
        answers: &mut Vec<Answer>,
    ) -> Result<(), BatchError> {
        let before = self.desk.calls();
        self.desk.call_all(rt, asks, answers)?;
        let (at, refusal) = self.lost;
        let place = at.wrapping_sub(before).wrapping_sub(1);
        if let Some(answer) = answers.get_mut(place as usize) {
            answer.reply = Reply::Refused(refusal);
        }
        Ok(())
    }
}

/// A waker that stores the number of times that it woke a sender, the hop of the last, and how often a sender
/// listened.
#[derive(Drop)]
pub(super) struct Counting {
    pub(super) listens: u64,
    pub(super) wakes: u64,
    pub(super) hop: HopId,
}

impl Waker for Counting {
    ghost woken = { λ _. None };

    fn listen(&mut self, hop: HopId) {
        let _ = hop;
        self.listens = self.listens.saturating_add(1);
    }

    fn wake(&mut self, hop: HopId) {
        self.wakes = self.wakes.saturating_add(1);
        self.hop = hop;
    }

    fn wake_all(&mut self) {}
}

/// The interfaces of a worker in these tests.
pub(super) type MemEnds = Ends<MemLink, Losing, MemTurn, Counting>;
