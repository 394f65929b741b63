//! When a Timeout comes, and what ends the doubling of its wait. Moments are in microseconds. The numbers were computed by hand from
//! the rules of `rly_hop_pacing`.
use crate::script::Act::{
    self, Again, Answer, Contact, Custody, Hears, Left, Room, Sends, Spare, Unsent,
};
use crate::script::{PLAIN, Script, expect_done, follow_all, go_again, opened};
use rly_hop_pacing::CongestionControl;
use std::process::Abort;
use std::rt::HostRuntime;

/// A `resend` in milliseconds, round trips one after the other, and the wait for the number after them.
type Waiting<'a> = (u32, &'a [u64], u64);

/// A round trip R first has half of it as variation: 600 + 4 * 300 = 1,800 ms. From the second sample of 600 ms on the
/// variation is 225, 168.75, 126.562, 94.921 and 71.190 ms. Four times the last is less than half of 600, so the
/// wait is 600 + 300 ms. If a sample of 1,000 ms, or of 200, follows the first of 600, the variation is (3 * 300 + 400) / 4 =
/// 325 ms, and the round trip (7 * 600 + 1,000) / 8 = 650 ms, or (7 * 600 + 200) / 8 = 550 ms.
const WAITS: [Waiting<'static>; 10] = [
    (160, &[], 1_000_000),
    (2_000, &[], 2_000_000),
    (160, &[600_000], 1_800_000),
    (2_000, &[600_000], 2_000_000),
    (160, &[10_000], 160_000),
    (160, &[600_000, 600_000], 1_500_000),
    (160, &[600_000, 600_000, 600_000, 600_000, 600_000], 979_684),
    (
        160,
        &[600_000, 600_000, 600_000, 600_000, 600_000, 600_000],
        900_000,
    ),
    (160, &[600_000, 1_000_000], 1_950_000),
    (160, &[600_000, 200_000], 1_850_000),
];

/// Stops a test unless a Timeout asks for a number after a wait, and not before.
fn expect_timeout<R: Abort>(rt: &R, pace: &mut CongestionControl, number: u64, at: u64) {
    let early = go_again(pace, 64, at.saturating_sub(1), &[]);
    expect_done(rt, early, "no Timeout yet", at);
    let due = go_again(pace, 64, at, &[number]);
    expect_done(rt, due, "a Timeout", at);
}

fn expect_wait<R: Abort>(rt: &R, (resend, trips, wait): Waiting<'_>) {
    let mut pace = opened(rt, (resend, 64, false));
    let mut number = 1;
    let mut at = 0;
    for trip in trips {
        pace.on_sent(number, at);
        at = trip.saturating_add(at);
        pace.on_covered(number, at);
        number = 1u64.saturating_add(number);
    }
    pace.on_sent(number, at);
    expect_timeout(rt, &mut pace, number, at.saturating_add(wait));
}

fn expect_waits<R: Abort>(rt: &R, rows: &[Waiting<'_>]) {
    for row in rows {
        expect_wait(rt, *row);
    }
}

/// The wait follows the round trip, and `resend` is the least.
#[test]
fn waits(rt: HostRuntime) {
    expect_waits(&rt, &WAITS);
}

/// The waits of a number that is sent again after each Timeout, in seconds.
const DOUBLED: [u64; 8] = [1, 2, 4, 8, 16, 32, 60, 60];

fn expect_doubled<R: Abort>(rt: &R, waits: &[u64]) {
    let mut pace = opened(rt, PLAIN);
    let mut at = 0u64;
    for wait in waits {
        pace.on_sent(1, at);
        at = at.saturating_add(wait.saturating_mul(1_000_000));
        expect_timeout(rt, &mut pace, 1, at);
    }
}

/// Each Timeout doubles the wait, up to a minute.
#[test]
fn doubling(rt: HostRuntime) {
    expect_doubled(&rt, &DOUBLED);
}

const AFTER_TIMEOUTS: [Script<'static>; 15] = [
    // The repeat was covered a second after it was sent. A sample of it would make the wait 3 s.
    (
        "a number that was sent again yields no sample, and its custody leaves the wait doubled",
        PLAIN,
        &[
            (0, Sends(&[1])),
            (1_000_000, Again(&[1])),
            (1_000_000, Sends(&[1])),
            (2_000_000, Custody(1)),
            (2_000_000, Sends(&[2])),
            (3_999_999, Again(&[])),
            (4_000_000, Again(&[2])),
        ],
    ),
    (
        "what was heard before doesn't end the doubling of 1,200 ms",
        PLAIN,
        &[
            (0, Sends(&[1, 2])),
            (400_000, Hears(0, &[2])),
            (1_200_000, Again(&[1])),
            (1_200_000, Sends(&[1])),
            (1_300_000, Hears(0, &[2])),
            (3_599_999, Again(&[])),
            (3_600_000, Again(&[1])),
        ],
    ),
    // The third number of such an end comes 400 ms after it was sent again: twice that is below a second.
    (
        "an end without Heards gets its numbers one by one, and the next custody ends the doubling",
        PLAIN,
        &[
            (0, Sends(&[1, 2, 3])),
            (1_000_000, Again(&[1])),
            (1_000_000, Sends(&[1])),
            (1_400_000, Custody(1)),
            (3_399_999, Again(&[])),
            (3_400_000, Again(&[2])),
            (3_400_000, Sends(&[2])),
            (3_800_000, Custody(2)),
            (3_800_000, Again(&[3])),
            (3_800_000, Sends(&[3])),
            (4_200_000, Custody(3)),
            (4_200_000, Sends(&[4])),
            (5_199_999, Again(&[])),
            (5_200_000, Again(&[4])),
        ],
    ),
    // Custody of 2 comes 2,800 ms after that of 1, and the wait of 4 s is less than twice that. Custody of 4 comes 900 ms
    // after that of 3.
    (
        "twice the time between two of its custodies bounds the wait",
        PLAIN,
        &[
            (0, Sends(&[1, 2, 3, 4])),
            (1_000_000, Again(&[1])),
            (1_000_000, Sends(&[1])),
            (1_400_000, Custody(1)),
            (3_400_000, Again(&[2])),
            (3_400_000, Sends(&[2])),
            (4_200_000, Custody(2)),
            (4_200_000, Again(&[3])),
            (4_200_000, Sends(&[3])),
            (8_199_999, Again(&[])),
            (8_200_000, Again(&[3])),
            (8_200_000, Sends(&[3])),
            (8_200_000, Custody(3)),
            (8_200_000, Again(&[4])),
            (8_200_000, Sends(&[4])),
            (9_100_000, Custody(4)),
            (9_100_000, Sends(&[5])),
            (10_899_999, Again(&[])),
            (10_900_000, Again(&[5])),
        ],
    ),
    // The Heards of 400 and 1,300 ms are from before the hop's station restarted. The second comes after the Timeout,
    // and so 2, 3 and 4 count as heard until the next one, 1,200 ms after the custody, which ends the doubling: what goes
    // out again by that brings custody, 400 ms later, and the others are missing. A Heard from before that custody
    // doesn't change it.
    (
        "a Heard from before a Timeout that comes after it keeps nothing back for longer than the next Timeout",
        PLAIN,
        &[
            (0, Sends(&[1, 2, 3, 4])),
            (400_000, Hears(0, &[2, 3, 4])),
            (1_200_000, Again(&[1])),
            (1_200_000, Sends(&[1])),
            (1_300_000, Hears(0, &[2, 3, 4])),
            (1_600_000, Custody(1)),
            (2_799_999, Again(&[])),
            (2_800_000, Again(&[2])),
            (2_800_000, Sends(&[2])),
            (3_200_000, Custody(2)),
            (3_200_000, Again(&[3, 4])),
            (3_200_000, Hears(0, &[2, 3, 4])),
            (3_200_000, Again(&[3, 4])),
        ],
    ),
    // 2 alone is in flight, and neither Heard says that it was heard. The wait is 1,200 ms.
    (
        "a Heard of numbers that weren't sent changes nothing",
        PLAIN,
        &[
            (0, Sends(&[1])),
            (400_000, Custody(1)),
            (400_000, Sends(&[2])),
            (500_000, Hears(1, &[3, 4, 5, 65])),
            (500_000, Hears(3, &[])),
            (1_199_999, Again(&[])),
            (1_199_999, Spare(0)),
            (1_200_000, Spare(2)),
            (1_599_999, Again(&[])),
            (1_600_000, Again(&[2])),
        ],
    ),
    // The second sample makes the variation 150 ms, and the wait 1,000 ms.
    (
        "a number that wasn't heard before ends the doubling",
        PLAIN,
        &[
            (0, Sends(&[1, 2])),
            (400_000, Hears(0, &[2])),
            (1_200_000, Again(&[1])),
            (1_200_000, Sends(&[1, 3])),
            (1_600_000, Hears(0, &[2, 3])),
            (1_624_999, Again(&[])),
            (1_625_000, Again(&[1])),
            (1_700_000, Sends(&[1])),
            (2_699_999, Again(&[])),
            (2_700_000, Again(&[1])),
        ],
    ),
    (
        "no Timeout comes while the contact is closed, and a contact that opens ends the doubling",
        PLAIN,
        &[
            (0, Sends(&[1])),
            (1_000_000, Again(&[1])),
            (1_000_000, Sends(&[1])),
            (2_000_000, Contact(false)),
            (90_000_000, Again(&[])),
            (90_000_000, Room(0)),
            (90_000_000, Contact(true)),
            (90_000_000, Unsent(2, 1)),
            (90_000_000, Sends(&[1])),
            (90_999_999, Again(&[])),
            (91_000_000, Again(&[1])),
        ],
    ),
    (
        "as a contact opens the flight is sent again, and what was heard is forgotten",
        PLAIN,
        &[
            (0, Sends(&[1, 2, 3])),
            (400_000, Hears(0, &[2])),
            (450_000, Contact(false)),
            (10_000_000, Contact(true)),
            (10_000_000, Again(&[])),
            (10_000_000, Unsent(4, 3)),
            (10_000_000, Sends(&[1, 2, 3])),
            (10_000_000, Unsent(4, 0)),
            (10_400_000, Hears(0, &[3])),
            (10_424_999, Again(&[])),
            (10_425_000, Again(&[1, 2])),
        ],
    ),
    // The wait is 1,200 ms, doubled twice by 4 s. It has passed since 5.2 s where an answer comes at 7 s, but not since then.
    (
        "an answer ends the doubling, and draws the first number once the wait has passed since it was sent",
        PLAIN,
        &[
            (0, Sends(&[1])),
            (400_000, Custody(1)),
            (400_000, Sends(&[2])),
            (1_600_000, Again(&[2])),
            (1_600_000, Sends(&[2])),
            (4_000_000, Again(&[2])),
            (4_000_000, Sends(&[2])),
            (5_000_000, Answer),
            (5_199_999, Again(&[])),
            (5_200_000, Again(&[2])),
            (5_200_000, Sends(&[2])),
            (6_399_999, Answer),
            (6_399_999, Again(&[])),
            (6_400_000, Again(&[2])),
            (6_400_000, Sends(&[2])),
            (8_000_000, Answer),
            (8_000_000, Again(&[2])),
            (8_000_000, Sends(&[2])),
            (8_000_001, Answer),
            (8_000_001, Again(&[])),
            (9_199_999, Answer),
            (9_199_999, Again(&[])),
        ],
    ),
    (
        "an answer in silence ends the doubling before a round trip was measured",
        PLAIN,
        &[
            (0, Sends(&[1])),
            (1_000_000, Again(&[1])),
            (1_000_000, Sends(&[1])),
            (3_000_000, Again(&[1])),
            (3_000_000, Sends(&[1])),
            (3_500_000, Answer),
            (3_999_999, Again(&[])),
            (4_000_000, Again(&[1])),
        ],
    ),
    // The round trip is 1,400 ms or 400: the answer at 1,500 ms may be that to the first number's copy.
    (
        "an answer after news leaves the wait doubled before a round trip was measured",
        PLAIN,
        &[
            (0, Sends(&[1])),
            (1_000_000, Again(&[1])),
            (1_000_000, Sends(&[1])),
            (1_400_000, Custody(1)),
            (1_400_000, Sends(&[2])),
            (1_500_000, Answer),
            (3_399_999, Again(&[])),
            (3_400_000, Again(&[2])),
        ],
    ),
    // As in `SILENCE`, the wait is 1,000 ms.
    (
        "a Timeout after an answer isn't one without: the first number alone goes out again, though the window is full",
        (160, 3, false),
        &[
            (0, Sends(&[1])),
            (400_000, Custody(1)),
            (400_000, Sends(&[2, 3, 4])),
            (800_000, Hears(1, &[4])),
            (900_000, Sends(&[2, 3])),
            (1_900_000, Again(&[2])),
            (1_900_000, Sends(&[2])),
            (3_000_000, Answer),
            (3_000_000, Again(&[2])),
            (3_000_000, Sends(&[2])),
            (4_000_000, Again(&[2])),
            (4_000_000, Sends(&[2])),
            (6_000_000, Again(&[2, 3, 4])),
        ],
    ),
    (
        "in a contact of which 320 s are left a wait doubles up to 20 s",
        PLAIN,
        &[
            (0, Left(320_000)),
            (0, Sends(&[1])),
            (1_000_000, Again(&[1])),
            (1_000_000, Sends(&[1])),
            (3_000_000, Again(&[1])),
            (3_000_000, Sends(&[1])),
            (7_000_000, Again(&[1])),
            (7_000_000, Sends(&[1])),
            (15_000_000, Again(&[1])),
            (15_000_000, Sends(&[1])),
            (31_000_000, Again(&[1])),
            (31_000_000, Sends(&[1])),
            (50_999_999, Again(&[])),
            (51_000_000, Again(&[1])),
        ],
    ),
    (
        "and 10 s however little is left",
        PLAIN,
        &[
            (0, Left(1_000)),
            (0, Sends(&[1])),
            (1_000_000, Again(&[1])),
            (1_000_000, Sends(&[1])),
            (3_000_000, Again(&[1])),
            (3_000_000, Sends(&[1])),
            (7_000_000, Again(&[1])),
            (7_000_000, Sends(&[1])),
            (15_000_000, Again(&[1])),
            (15_000_000, Sends(&[1])),
            (24_999_999, Again(&[])),
            (25_000_000, Again(&[1])),
        ],
    ),
];

/// 2 and 3 go out again after a round trip of 400 ms, with a wait of 1,000 ms. The first Timeout comes after news.
const SILENCE: &[(u64, Act<'static>)] = &[
    (0, Sends(&[1])),
    (400_000, Custody(1)),
    (400_000, Sends(&[2, 3, 4])),
    (800_000, Hears(1, &[4])),
    (900_000, Sends(&[2, 3])),
    (1_899_999, Again(&[])),
    (1_900_000, Again(&[2])),
    (1_900_000, Sends(&[2])),
    (3_899_999, Again(&[])),
    (3_900_000, Again(&[2, 3, 4])),
    (3_900_000, Sends(&[2, 3, 4])),
    (3_900_000, Again(&[])),
];

const UNANSWERED: [Script<'static>; 3] = [
    (
        "the first numbers go out again if the window is full",
        (160, 3, false),
        SILENCE,
    ),
    (
        "the first number alone goes out again if the window isn't full",
        PLAIN,
        &[
            (0, Sends(&[1])),
            (400_000, Custody(1)),
            (400_000, Sends(&[2, 3, 4])),
            (800_000, Hears(1, &[4])),
            (900_000, Sends(&[2, 3])),
            (1_900_000, Again(&[2])),
            (1_900_000, Sends(&[2])),
            (3_900_000, Again(&[2])),
        ],
    ),
    // The wait is 1,200 ms after the custody, and then twice as long.
    (
        "an end without Heards gets one new number by a Timeout after news, and four by a further one",
        PLAIN,
        &[
            (0, Sends(&[1, 2, 3])),
            (400_000, Custody(1)),
            (1_600_000, Again(&[2])),
            (1_600_000, Room(2)),
            (1_600_000, Sends(&[2, 4])),
            (1_600_000, Room(0)),
            (4_000_000, Again(&[2])),
            (4_000_000, Sends(&[2, 5, 6, 7])),
            (4_000_000, Room(1)),
            (4_000_000, Sends(&[8])),
            (4_000_000, Room(0)),
        ],
    ),
];

/// As a contact opens, before anything is sent in it. The first sample of 400 ms makes a wait of 1.2 s.
const OPENINGS: [Script<'static>; 2] = [
    (
        "custody of what was sent before ends no round: the wait follows the one sample",
        PLAIN,
        &[
            (0, Sends(&[1, 2])),
            (400_000, Hears(0, &[2])),
            (400_000, Sends(&[3])),
            (500_000, Contact(false)),
            (1_000_000, Contact(true)),
            (1_000_000, Custody(1)),
            (1_000_000, Sends(&[2])),
            (2_199_999, Again(&[])),
            (2_200_000, Again(&[2])),
        ],
    ),
    (
        "ten may be sent after two minutes, also if a custody comes first",
        PLAIN,
        &[
            (0, Sends(&[1, 2])),
            (400_000, Hears(0, &[2])),
            (400_000, Sends(&[3])),
            (500_000, Contact(false)),
            (120_000_000, Contact(true)),
            (120_000_000, Room(10)),
            (120_000_000, Custody(1)),
            (120_000_000, Room(10)),
        ],
    ),
];

/// Timeouts and what ends their doubling, two with nothing heard between them, and that no round goes on from one contact to
/// the next.
#[test]
fn each_script_is_followed(rt: HostRuntime) {
    for scripts in [
        AFTER_TIMEOUTS.as_slice(),
        UNANSWERED.as_slice(),
        OPENINGS.as_slice(),
    ] {
        follow_all(&rt, scripts);
    }
}
