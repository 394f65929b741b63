//! A sender whose neighbour keeps what comes ahead of a gap, and sends Heards, over a link in memory.

ghost use Rattle.std.specs.Prelude.{◌≤◌, IfSome, None, length};

use crate::copies::{copied, queue_of, up_to, with_window};
use crate::spools::expect_counts;
use rly_core::HopId;
use rly_hop::{MAX_MESSAGE, Message, StationId, marks, read_message, with_mark, write_message};
use rly_link::{Link, LinkFault, MemTurn, MemWaker, Sleep};
use rly_plan::Plan;
use rly_threads_workers::{Ends, MemDesk, sender_run};
use std::alloc::Global;
use std::process::Abort;
use std::sync::Wait;

/// Station 7, before station 9.
const PLAN: &str = r#"
station = 7
[[peer]]
id = 1
station = 3
listen = ""
remote = ""
[[hop]]
id = 1
station = 9
listen = ""
remote = ""
resend = 40
contacts = [[0, 1_000_000_000]]
"#;

/// The same with a rate.
const RATED_PLAN: &str = r#"
station = 7
[[peer]]
id = 1
station = 3
listen = ""
remote = ""
[[hop]]
id = 1
station = 9
listen = ""
remote = ""
resend = 40
rate = 1_000_000
contacts = [[0, 1_000_000_000]]
"#;

/// The number of turns from a Data to its answer.
const WAY: u64 = 2;

/// The bits of a Heard of 63 numbers, without the first.
const ALL_BUT_ONE: u64 = 0x7fff_ffff_ffff_ffff;

/// A message of station 9: the number that it has, and the bits of a Heard.
#[derive(Clone, Copy)]
enum FarMessage {
    Custody(u64),
    Heard(u64, u64),
    Refused(u64),
}

/// Station 9 at the far end of a link. If it is full it refuses a Data whose turn it is. It answers each other one by
/// its cumulative Custody, and by a Heard if anything waits ahead of a gap or was refused.
#[derive(Drop)]
struct Far {
    is_full: bool,
    /// Whether Data 1 is lost. Once 63 wait for it, station 9 restarts without them, and Data 1 is lost no longer.
    loses_first: bool,
    /// The last number that it stored, and the numbers after it that wait or were refused, as the bits of a Heard.
    last: u64,
    bits: u64,
    /// The turn, counted from 1, and the number of packets in it so far. A turn's receives end when nothing comes.
    turn: u64,
    came: u64,
    /// The turn of each answer.
    answers: Vec<(u64, FarMessage)>,
    /// The numbers that were sent, in order; after a restart those since then.
    numbers: Vec<u64>,
}

impl Far {
    /// A station that has stored nothing.
    fn new(alloc: Global, is_full: bool, loses_first: bool) -> Far {
        Far {
            is_full,
            loses_first,
            last: 0,
            bits: 0,
            turn: 1,
            came: 0,
            answers: Vec::new(alloc),
            numbers: Vec::new(alloc),
        }
    }

    /// An answer comes `WAY` turns after the Data. (A row fails if memory is refused.)
    fn answer(&mut self, answer: FarMessage) {
        // The receives of this turn are over.
        let due = self.turn.saturating_sub(1).saturating_add(WAY);
        let _kept = self.answers.push((due, answer));
    }

    /// A Data is sent.
    fn carry(&mut self, number: u64) {
        let _kept = self.numbers.push(number);
        if self.loses_first && number == 1 {
            return;
        }
        if self.is_full && number == self.last.saturating_add(1) {
            self.bits = with_mark(self.bits, 0);
            self.answer(FarMessage::Refused(number));
            return;
        }
        self.keep(number);
        self.answer(FarMessage::Custody(self.last));
        if self.bits > 0 {
            self.answer(FarMessage::Heard(self.last, self.bits));
        }
        if self.loses_first && self.bits == ALL_BUT_ONE {
            self.restart();
        }
    }

    /// A Data is kept. Those whose turn has come are stored.
    fn keep(&mut self, number: u64) {
        if number <= self.last {
            return;
        }
        let place = number.saturating_sub(self.last).saturating_sub(1);
        self.bits = with_mark(self.bits, place);
        if self.is_full {
            // The first number was refused: none after it has its turn.
            return;
        }
        for _number in 0..64 {
            if marks(self.bits, 0) {
                self.last = self.last.saturating_add(1);
                self.bits = self.bits << 1;
            }
        }
    }

    /// What wasn't stored is gone. The answers on their way are not.
    fn restart(&mut self) {
        self.bits = 0;
        self.loses_first = false;
        self.numbers.clear();
    }

    /// The next answer of this turn.
    fn next_answer(&self) -> Option<FarMessage> {
        let mut left = self.came;
        for (turn, answer) in &self.answers {
            if *turn == self.turn {
                if left == 0 {
                    return Some(*answer);
                }
                left -= 1;
            }
        }
        None
    }

    /// The next receive: the answers of this turn, then nothing.
    fn receive(&mut self, buffer: &mut [u8]) -> Option<usize>
        ensures bound { IfSome result (λ count. count ≤ length buffer.new) }
    {
        match self.next_answer() {
            Some(answer) => {
                self.came = self.came.saturating_add(1);
                written(answer, buffer)
            }
            None => {
                self.turn = self.turn.saturating_add(1);
                self.came = 0;
                None
            }
        }
    }
}

impl Link for Far {
    ghost heard = { λ _. None };

    ghost sent = { λ _. None };

    ghost failed = { λ _. 0 };

    fn recv(&mut self, sleep: Sleep, buffer: &mut [u8]) -> Result<Option<usize>, LinkFault> {
        let _ = sleep;
        Ok(self.receive(buffer))
    }

    fn send(&mut self, packet: &[u8]) -> Result<(), LinkFault> {
        if let Ok(Message::Data { number, .. }) = read_message(packet) {
            self.carry(number);
        }
        Ok(())
    }

    fn failures(&self) -> u64 {
        0
    }
}

/// Writes an answer of station 9 to the front of a buffer.
fn written(answer: FarMessage, buffer: &mut [u8]) -> Option<usize>
    ensures bound { IfSome result (λ count. count ≤ length buffer.new) }
{
    let (from, to) = (StationId(9), StationId(7));
    let message = match answer {
        FarMessage::Custody(last) => Message::Custody { from, to, last },
        FarMessage::Heard(last, bits) => Message::Heard {
            from,
            to,
            last,
            bits,
        },
        FarMessage::Refused(number) => Message::Refused {
            from,
            to,
            number,
            refusal: 6,
        },
    };
    let mut packet = [0; MAX_MESSAGE];
    let length = write_message(message, &mut packet).ok()?;
    copied(packet.get(..length)?, buffer)
}

/// A run: its plan, its turns and their length, and the window.
#[derive(Clone, Copy)]
struct Run<'a> {
    plan: &'a str,
    turns: u64,
    step: u64,
    window: u64,
}

/// Runs the sender of hop 1, for which 64 datagrams wait. The numbers that were sent.
fn sent_numbers<R: Abort + Wait>(
    rt: &R,
    alloc: Global,
    run: Run<'_>,
    far: Far,
    counts: (u64, u64, u64),
) -> Vec<u64> {
    let mut ends = Ends {
        link: far,
        desk: MemDesk::new(alloc, queue_of(rt, alloc, 64)),
        turn: MemTurn::new(1_000, run.step, run.turns),
        waker: MemWaker::new(),
    };
    let plan = Plan::from_toml(alloc, run.plan).ok().expect(rt, "a plan");
    let params = with_window(run.window);
    sender_run(rt, alloc, &plan, HopId(1), &params, &mut ends);
    expect_counts(rt, &ends.desk, counts);
    ends.link.numbers
}

/// Turns of 10 ms for 15 seconds.
const SHORT: Run<'static> = Run {
    plan: PLAN,
    turns: 1_500,
    step: 10_000,
    window: 64,
};

/// Data 1 is lost until 2 to 64 are kept ahead of it. Then station 9 restarts and has none of them, while its Heards
/// say that it does. Data 1 is missing, and its custody comes. Data 2 goes out again by a Timeout, and by its custody
/// the others are missing: each goes out again once, in order.
#[test]
fn a_neighbour_that_restarts_is_found_out(rt: HostRuntime) {
    let far = Far::new(rt.alloc(), false, true);
    let numbers = sent_numbers(&rt, rt.alloc(), SHORT, far, (0, 0, 64));
    expect!(rt; numbers.as_slice() == up_to(&rt, rt.alloc(), 64).as_slice());
}

/// Ten minutes in turns of 100 ms, from the third turn on, which sends the first number.
const TEN_MINUTES: Run<'static> = Run {
    plan: PLAN,
    turns: 6_003,
    step: 100_000,
    window: 64,
};

/// How often the first number goes out to a full neighbour in ten minutes, at least and at most: the plan, the window,
/// and both. The round trip is 200 ms.
///
/// A window of three is out in turn 5. The Heard of turn 7 yields a first sample, and with it a wait of 600 ms, which
/// doubles up to a sixteenth of the 923.8 s that are left of the contact then: seven Timeouts within 76.2 s, and one in each
/// 57.8 s after that. With the first sending that is 17.
///
/// A window of 64 with a rate takes longer to go out: 2.6 s at most. While it does, a number that wasn't heard before
/// may end the doubling, and no wait is shorter than 300 ms: eight Timeouts. After that waits that double from 300 ms
/// on are eight within 76.5 s, and then one in each 57.8 s.
const FULL: [(&str, u64, u64, u64); 3] = [
    (PLAN, 3, 17, 17),
    (RATED_PLAN, 3, 17, 17),
    (RATED_PLAN, 64, 17, 26),
];

/// How often the first number was sent, if each other one was sent once, in order, up to the last.
fn first_count(numbers: &[u64], last: u64) -> Option<u64> {
    let mut count = 0u64;
    let mut before = 1u64;
    for number in numbers {
        if *number == 1 {
            count = count.saturating_add(1);
        } else if *number == before.saturating_add(1) {
            before = *number;
        } else {
            return None;
        }
    }
    if before == last { Some(count) } else { None }
}

/// Checks how often a number goes out to a full neighbour.
fn expect_few<R: Abort + Wait>(
    rt: &R,
    alloc: Global,
    (plan, window, least, most): (&str, u64, u64, u64),
) {
    let far = Far::new(alloc, true, false);
    let minutes = Run {
        plan,
        window,
        ..TEN_MINUTES
    };
    let waiting = 64u64.saturating_sub(window);
    let numbers = sent_numbers(rt, alloc, minutes, far, (waiting, window, 0));
    let count = first_count(numbers.as_slice(), window).unwrap_or(0);
    expect!(*rt; least <= count && count <= most, window);
}

fn expect_all_few<R: Abort + Wait>(rt: &R, alloc: Global, rows: &[(&str, u64, u64, u64)]) {
    for row in rows {
        expect_few(rt, alloc, *row);
    }
}

/// A neighbour that is full for ten minutes gets its first number again by Timeouts alone, which double, and no other,
/// with a rate or without.
#[test]
fn a_full_neighbour_gets_few_packets(rt: HostRuntime) {
    expect_all_few(&rt, rt.alloc(), &FULL);
}
