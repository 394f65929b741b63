//! Until when a sending worker may sleep if no packet comes. Moments are in microseconds. The numbers were computed by hand
//! from the rules of `rly_hop_pacing`.
use crate::script::Act::{Again, Contact, Custody, Hears, Next, Room, Sends, Spare};
use crate::script::{PLAIN, Script, follow_all};
use std::rt::HostRuntime;

/// A hop with a rate and a window of 4.
const RATED: (u32, u64, bool) = (160, 4, true);

const TIMEOUTS: [Script<'static>; 4] = [
    (
        "with nothing in flight only a new number wakes",
        PLAIN,
        &[(5, Next(false, 0)), (5, Next(true, 5))],
    ),
    (
        "nothing is to be done while the contact is closed",
        PLAIN,
        &[
            (0, Sends(&[1])),
            (5, Contact(false)),
            (5, Next(true, 0)),
            (2_000_000, Next(false, 0)),
        ],
    ),
    (
        "a Timeout, the number that it asks for, and the Timeout after it",
        PLAIN,
        &[
            (0, Sends(&[1])),
            (0, Next(false, 1_000_000)),
            (999_999, Next(false, 1_000_000)),
            (1_000_000, Next(false, 1_000_000)),
            (1_000_000, Again(&[1])),
            (1_000_000, Next(false, 1_000_000)),
            (1_000_000, Sends(&[1])),
            (1_000_000, Next(false, 3_000_000)),
        ],
    ),
    (
        "a full window has room after the Timeout",
        PLAIN,
        &[
            (0, Sends(&[1, 2, 3, 4, 5, 6, 7, 8, 9])),
            (7, Next(true, 7)),
            (7, Sends(&[10])),
            (7, Room(0)),
            (7, Next(true, 1_000_000)),
        ],
    ),
];

/// A round trip of 400 ms: a sixteenth of it is 25 ms, a quarter 100 ms, and the wait is 1,200 ms.
const NUMBERS: [Script<'static>; 4] = [
    (
        "a number is missing a sixteenth of the round trip after it should have been heard",
        PLAIN,
        &[
            (0, Sends(&[1, 2])),
            (400_000, Hears(0, &[2])),
            (400_000, Next(false, 425_000)),
            (424_999, Again(&[])),
            (425_000, Next(false, 425_000)),
            (425_000, Again(&[1])),
            (425_000, Sends(&[1])),
            (425_000, Next(false, 1_625_000)),
        ],
    ),
    // Number 2 comes after number 3, so number 1 may come a quarter of the round trip late.
    (
        "a quarter if the link reorders",
        PLAIN,
        &[
            (0, Sends(&[1, 2, 3])),
            (400_000, Hears(0, &[3])),
            (400_000, Next(false, 425_000)),
            (400_000, Hears(0, &[2, 3])),
            (400_000, Next(false, 500_000)),
            (499_999, Again(&[])),
            (500_000, Again(&[1])),
        ],
    ),
    // Two numbers of ten that may be on the way in 400 ms were sent, so one more may go out 40 ms later.
    (
        "the pacer, the probe two round trips after the last news, and the Timeout",
        PLAIN,
        &[
            (0, Sends(&[1, 2])),
            (400_000, Custody(2)),
            (400_000, Room(2)),
            (400_000, Sends(&[3, 4])),
            (400_000, Next(true, 440_000)),
            (439_999, Room(0)),
            (440_000, Next(true, 440_000)),
            (440_000, Next(false, 1_200_000)),
            (1_199_999, Spare(0)),
            (1_200_000, Spare(4)),
            (1_200_000, Next(false, 1_200_000)),
            (1_200_000, Sends(&[4])),
            (1_200_000, Next(false, 1_600_000)),
        ],
    ),
    // What is heard at 400 ms makes the window wide until 1,200 ms. The number that goes out at 1,150 ms would be spare
    // at 1,250 ms.
    (
        "a number is spare a quarter of the round trip after its last sending, while news are recent",
        RATED,
        &[
            (0, Sends(&[1, 2, 3, 4])),
            (400_000, Hears(0, &[2, 3, 4])),
            (400_000, Next(false, 425_000)),
            (425_000, Again(&[1])),
            (425_000, Sends(&[1])),
            (425_000, Next(false, 525_000)),
            (524_999, Spare(0)),
            (525_000, Spare(1)),
            (525_000, Next(false, 525_000)),
            (1_150_000, Sends(&[1])),
            (1_150_000, Next(true, 1_150_000)),
            (1_150_000, Next(false, 2_350_000)),
            (1_250_000, Spare(0)),
        ],
    ),
];

/// A worker sleeps until a Timeout, until there is room for what is to be sent, or until a number goes out again.
#[test]
fn each_script_is_followed(rt: HostRuntime) {
    for scripts in [TIMEOUTS.as_slice(), NUMBERS.as_slice()] {
        follow_all(&rt, scripts);
    }
}
