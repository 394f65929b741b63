//! How often a datagram is sent over a link with a long round trip.

ghost use Rattle.std.specs.Prelude.{◌≤◌, IfSome, None, length};

use crate::spools::{expect_counts, take_for};
use rly_core::{HopId, Params};
use rly_hop::{MAX_MESSAGE, Message, StationId, read_message, write_message};
use rly_link::{Link, LinkFault, MemTurn, MemWaker, Sleep};
use rly_machine::{Machine, Payload};
use rly_plan::Plan;
use rly_threads_workers::{Ends, MemDesk, sender_run};
use std::alloc::Global;
use std::process::Abort;
use std::sync::Wait;

/// Station 7, before station 9.
const PLAN: &str = r#"
station = 7
[[peer]]
id = 1
station = 3
listen = ""
remote = ""
[[hop]]
id = 1
station = 9
listen = ""
remote = ""
resend = 40
contacts = [[100, 200], [300, 350], [1_000, 1_000_000_000]]
"#;

/// Station 9 at the far end of a link. It takes Data in order, and answers each with its cumulative Custody.
#[derive(Drop)]
struct Far {
    /// The number of turns from a Data to its answer.
    way: u64,
    /// The Data that is lost, counted from 1: none if 0.
    lost: usize,
    /// A packet that comes in each turn in addition to the answers.
    stray: Option<&'static [u8]>,
    /// The last number that it stored.
    last: u64,
    /// The turn, counted from 1, and the number of packets in it so far. A turn's receives end when nothing comes.
    turn: u64,
    came: u64,
    /// The number of receives that waited.
    waits: u64,
    /// The turn of each Custody.
    answers: Vec<(u64, u64)>,
    /// The numbers that were sent, in order.
    numbers: Vec<u64>,
}

impl Far {
    /// A station that has stored nothing.
    fn new(alloc: Global, way: u64, lost: usize, stray: Option<&'static [u8]>) -> Far {
        Far {
            way,
            lost,
            stray,
            last: 0,
            turn: 1,
            came: 0,
            waits: 0,
            answers: Vec::new(alloc),
            numbers: Vec::new(alloc),
        }
    }

    /// A Data is sent. It is taken if it is the next one, and answered. (A row fails if memory is refused.)
    fn carry(&mut self, number: u64) {
        let _kept = self.numbers.push(number);
        if self.numbers.len() == self.lost {
            return;
        }
        if number == self.last.saturating_add(1) {
            self.last = number;
        }
        // The receives of this turn are over.
        let due = self.turn.saturating_sub(1).saturating_add(self.way);
        let _kept = self.answers.push((due, self.last));
    }

    /// The numbers of the Custodies of this turn, in order.
    fn answer(&self) -> Option<u64> {
        let mut left = self.came;
        for (turn, last) in &self.answers {
            if *turn == self.turn {
                if left == 0 {
                    return Some(*last);
                }
                left -= 1;
            }
        }
        None
    }

    /// The number of Custodies in this turn.
    fn answer_count(&self) -> u64 {
        let mut count = 0u64;
        for (turn, _last) in &self.answers {
            if *turn == self.turn {
                count = count.saturating_add(1);
            }
        }
        count
    }

    /// The next receive: the answers of this turn, then the stray packet, then nothing.
    fn receive(&mut self, buffer: &mut [u8]) -> Option<usize>
        ensures bound { IfSome result (λ count. count ≤ length buffer.new) }
    {
        let answer = self.answer();
        let is_stray = self.came == self.answer_count();
        self.came = self.came.saturating_add(1);
        match (answer, self.stray) {
            (Some(last), _) => custody_in(last, buffer),
            (None, Some(stray)) if is_stray => copied(stray, buffer),
            (None, _) => {
                self.turn = self.turn.saturating_add(1);
                self.came = 0;
                None
            }
        }
    }
}

impl Link for Far {
    ghost heard = { λ _. None };

    ghost sent = { λ _. None };

    ghost failed = { λ _. 0 };

    fn recv(&mut self, sleep: Sleep, buffer: &mut [u8]) -> Result<Option<usize>, LinkFault> {
        if sleep != Sleep::No {
            self.waits = self.waits.saturating_add(1);
        }
        Ok(self.receive(buffer))
    }

    fn send(&mut self, packet: &[u8]) -> Result<(), LinkFault> {
        if let Ok(Message::Data { number, .. }) = read_message(packet) {
            self.carry(number);
        }
        Ok(())
    }

    fn failures(&self) -> u64 {
        0
    }
}

/// Copies station 9's Custody to the front of a buffer.
fn custody_in(last: u64, buffer: &mut [u8]) -> Option<usize>
    ensures bound { IfSome result (λ count. count ≤ length buffer.new) }
{
    let custody = Message::Custody {
        from: StationId(9),
        to: StationId(7),
        last,
    };
    let mut packet = [0; MAX_MESSAGE];
    let length = write_message(custody, &mut packet).ok()?;
    copied(packet.get(..length)?, buffer)
}

/// Copies a packet to the front of a buffer that has room for it.
pub(super) fn copied(packet: &[u8], buffer: &mut [u8]) -> Option<usize>
    ensures bound { IfSome result (λ count. count ≤ length buffer.new) }
{
    let length = packet.len();
    if length > buffer.len() {
        return None;
    }
    buffer[..length].copy_from_slice(packet);
    Some(length)
}

/// The round trip in turns, the length of a turn in microseconds, the number of waiting datagrams and the window.
#[derive(Clone, Copy)]
struct Way {
    turns: u64,
    step: u64,
    datagrams: u64,
    window: u64,
}

/// The number of such a sender's receives that waited, and the numbers sent, in order.
#[derive(Drop)]
struct Went {
    waits: u64,
    numbers: Vec<u64>,
}

/// The plan of station 7.
fn plan<R: Abort>(rt: &R, alloc: Global) -> Plan {
    Plan::from_toml(alloc, PLAN).ok().expect(rt, "a plan")
}

/// A spool's parameters with this window.
pub(super) fn with_window(window: u64) -> Params {
    Params {
        window,
        ..Params::DEFAULT
    }
}

/// A spool with this many datagrams for hop 1, and a window of 64, which drops none for its time in the queue.
pub(super) fn queue_of<R: Abort>(rt: &R, alloc: Global, datagrams: u64) -> Machine<Payload> {
    let params = Params {
        window: 64,
        target: 3_600_000_000,
        interval: 3_600_000_000,
        ..Params::DEFAULT
    };
    let mut machine = Machine::new(alloc, params).expect(rt, "memory");
    for number in 1..=datagrams {
        take_for(rt, alloc, &mut machine, number, HopId(1), b"\x00\x0c\x41");
    }
    machine
}

/// 1,500 turns, or six round trips: in the first ten datagrams go out, in the next two 20 each, and then 40.
fn turns_of(way: &Way) -> u64 {
    way.turns.saturating_mul(6).max(1_500)
}

/// Runs the sender of hop 1, whose `resend` is 40 ms.
fn hand_over<R: Abort + Wait>(
    rt: &R,
    alloc: Global,
    way: &Way,
    lost: usize,
    stray: Option<&'static [u8]>,
) -> Went {
    let mut ends = Ends {
        link: Far::new(alloc, way.turns, lost, stray),
        desk: MemDesk::new(alloc, queue_of(rt, alloc, way.datagrams)),
        turn: MemTurn::new(1_000, way.step, turns_of(way)),
        waker: MemWaker::new(),
    };
    let plan = plan(rt, alloc);
    sender_run(
        rt,
        alloc,
        &plan,
        HopId(1),
        &with_window(way.window),
        &mut ends,
    );
    expect_counts(rt, &ends.desk, (0, 0, way.datagrams));
    Went {
        waits: ends.link.waits,
        numbers: ends.link.numbers,
    }
}

/// Packets that are no message for the sender of hop 1: a byte, its own Data, and a Custody of station 10.
const STRAYS: [&[u8]; 3] = [
    b"x",
    b"\x52\x4c\x01\x01\x00\x07\x00\x09\x00\x00\x00\x00\x00\x00\x00\x01\x00\x03\x00\x0c\x41",
    b"\x52\x4c\x01\x02\x00\x0a\x00\x07\x00\x00\x00\x00\x00\x00\x00\x01",
];

/// The number of receives that wait if these numbers are sent, in order.
fn waits_of<R: Abort + Wait>(
    rt: &R,
    alloc: Global,
    way: &Way,
    (lost, numbers): (usize, &[u64]),
    stray: Option<&'static [u8]>,
) -> u64 {
    let went = hand_over(rt, alloc, way, lost, stray);
    expect!(*rt; went.numbers.as_slice() == numbers);
    went.waits
}

/// Checks that these numbers are sent, in order, and that a stray packet in each turn changes neither them nor the
/// number of receives that wait.
fn expect_numbers<R: Abort + Wait>(rt: &R, alloc: Global, way: &Way, numbers: &[u64]) {
    let waits = waits_of(rt, alloc, way, (0, numbers), None);
    for stray in &STRAYS {
        expect!(*rt; waits_of(rt, alloc, way, (0, numbers), Some(*stray)) == waits);
    }
}

/// The numbers from 1 on.
pub(super) fn up_to<R: Abort>(rt: &R, alloc: Global, last: u64) -> Vec<u64> {
    let mut numbers = Vec::new(alloc);
    for number in 1..=last {
        numbers.push(number).expect(rt, "memory");
    }
    numbers
}

/// A round trip.
fn of_turns(turns: u64, step: u64, datagrams: u64, window: u64) -> Way {
    Way {
        turns,
        step,
        datagrams,
        window,
    }
}

/// Round trips of less than a second.
fn short() -> [Way; 10] {
    [
        of_turns(1, 10_000, 20, 1),
        of_turns(4, 10_000, 20, 1),
        of_turns(3, 10_000, 20, 2),
        of_turns(4, 10_000, 20, 8),
        of_turns(4, 10_000, 70, 64),
        of_turns(400, 100, 20, 8),
        of_turns(400, 100, 70, 64),
        of_turns(12, 10_000, 20, 1),
        of_turns(60, 10_000, 20, 1),
        of_turns(99, 10_000, 70, 64),
    ]
}

/// Checks that each datagram is sent once over these round trips.
fn expect_once<R: Abort + Wait>(rt: &R, alloc: Global, ways: &[Way]) {
    for way in ways {
        expect_numbers(rt, alloc, way, up_to(rt, alloc, way.datagrams).as_slice());
    }
}

/// A second after the first datagram was sent it is sent again. It yields no sample, but the wait is now 2 s: the
/// second datagram is sent once, and from then on the wait is 1.5 s + 4 * 0.75 s.
const MEASURED: [u64; 6] = [1, 1, 2, 3, 4, 5];

/// The fourth Data is lost. The three in flight are sent again, once, one by one: station 9 takes only in order. The
/// seventh is the one new number that goes out meanwhile, and so it follows the sixth once more.
const AFTER_A_LOSS: [u64; 12] = [1, 2, 3, 4, 5, 6, 4, 5, 7, 6, 7, 8];

/// If the round trip is less than a second and nothing is lost, each datagram is sent once, whatever else is received. If
/// it is a second and a half, one datagram is sent twice. After a loss the flight is sent again, once.
fn expect_ways<R: Abort + Wait>(rt: &R, alloc: Global) {
    expect_once(rt, alloc, &short());
    expect_numbers(rt, alloc, &of_turns(150, 10_000, 5, 1), &MEASURED);
    let way = of_turns(2, 10_000, 8, 3);
    let _waits = waits_of(rt, alloc, &way, (4, &AFTER_A_LOSS), None);
}

#[test]
fn each_goes_out_once(rt: HostRuntime) {
    expect_ways(&rt, rt.alloc());
}
