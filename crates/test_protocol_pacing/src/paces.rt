//! What goes out again, and how much may be sent, event by event. Moments are in microseconds. The numbers were computed by hand from
//! the rules of `rly_hop_pacing`.
use crate::script::Act::{
    self, Again, Contact, Custody, Few, Hears, Room, Sends, Spare, Unsent, WindowIs,
};
use crate::script::{PLAIN, Script, follow_all, is_done, opened};
use std::rt::HostRuntime;

const MISSING: [Script<'static>; 7] = [
    // A round trip is 400 ms, a sixteenth of it 25 ms. 3 was heard 400 ms after it was sent, and so 2 is missing 425 ms
    // after it was sent. The same for its repeat, since 4 was sent after it.
    (
        "a number is missing a sixteenth of the round trip after a later one was heard, and so is its repeat",
        PLAIN,
        &[
            (0, Sends(&[1])),
            (400_000, Custody(1)),
            (400_000, Sends(&[2])),
            (410_000, Sends(&[3])),
            (810_000, Hears(1, &[3])),
            (824_999, Again(&[])),
            (825_000, Again(&[2])),
            (900_000, Sends(&[2])),
            (900_000, Again(&[])),
            (910_000, Sends(&[4])),
            (1_310_000, Hears(1, &[3, 4])),
            (1_324_999, Again(&[])),
            (1_325_000, Again(&[2])),
        ],
    ),
    // 2 comes after 3, and was sent once. So 4 is missing 400 ms and a quarter of them after it was sent.
    (
        "where numbers come late, one is missing a quarter of the round trip after a later one was heard",
        PLAIN,
        &[
            (0, Sends(&[1])),
            (400_000, Custody(1)),
            (400_000, Sends(&[2, 3])),
            (800_000, Hears(1, &[3])),
            (820_000, Custody(3)),
            (820_000, Sends(&[4, 5])),
            (1_220_000, Hears(3, &[5])),
            (1_319_999, Again(&[])),
            (1_320_000, Again(&[4])),
        ],
    ),
    // 7/8 of the round trip are 350 ms. 4 was sent before the repeat of 2.
    (
        "a repeat that is heard too early is the first sending, after which nothing else was sent",
        PLAIN,
        &[
            (0, Sends(&[1])),
            (400_000, Custody(1)),
            (400_000, Sends(&[2, 3])),
            (600_000, Sends(&[4])),
            (800_000, Hears(1, &[3])),
            (900_000, Again(&[2])),
            (900_000, Sends(&[2])),
            (1_249_999, Hears(1, &[2, 3])),
            (1_500_000, Again(&[])),
        ],
    ),
    // 4 should have been heard 350 ms after it was sent, and 25 ms after that it is missing.
    (
        "a repeat that is heard 7/8 of a round trip after it was sent is a later sending",
        PLAIN,
        &[
            (0, Sends(&[1])),
            (400_000, Custody(1)),
            (400_000, Sends(&[2, 3])),
            (800_000, Hears(1, &[3])),
            (900_000, Again(&[2])),
            (900_000, Sends(&[4, 2])),
            (1_250_000, Hears(1, &[2, 3])),
            (1_274_999, Again(&[])),
            (1_275_000, Again(&[4])),
        ],
    ),
    // The second Heard is of numbers that weren't sent. By the last one 4 was heard after 1,100 ms.
    (
        "a Heard from before the last custody changes nothing, nor does one from after the last number",
        PLAIN,
        &[
            (0, Sends(&[1])),
            (400_000, Custody(1)),
            (400_000, Sends(&[2, 3, 4])),
            (800_000, Custody(2)),
            (800_000, Hears(1, &[4])),
            (800_000, Hears(5, &[])),
            (1_500_000, Again(&[])),
            (1_500_000, Hears(2, &[4])),
            (1_524_999, Again(&[])),
            (1_525_000, Again(&[3])),
        ],
    ),
    // The wait is 400 + 4 * 200 = 1,200 ms. After the Timeout 4 alone was heard, 400 ms after it was sent.
    (
        "after a Timeout the first number goes out again, and what was heard is forgotten",
        PLAIN,
        &[
            (0, Sends(&[1, 2, 3])),
            (400_000, Hears(0, &[3])),
            (424_999, Again(&[])),
            (425_000, Again(&[1, 2])),
            (1_199_999, Again(&[1, 2])),
            (1_200_000, Again(&[1])),
            (1_200_000, Sends(&[1])),
            (1_200_000, Again(&[])),
            (1_200_000, Sends(&[4])),
            (1_600_000, Hears(0, &[4])),
            (1_624_999, Again(&[2, 3])),
            (1_625_000, Again(&[1, 2, 3])),
        ],
    ),
    // Refused or kept, the hop's station has it.
    (
        "a number that was heard isn't missing, and no more are listed than may be sent",
        PLAIN,
        &[
            (0, Sends(&[1, 2, 3, 4])),
            (400_000, Hears(0, &[2, 4])),
            (500_000, Again(&[1, 3])),
            (500_000, Few(1, &[1])),
            (500_000, Few(0, &[])),
            (500_000, Hears(0, &[1, 2, 4])),
            (500_000, Again(&[3])),
            (500_000, Custody(4)),
            (500_000, Again(&[])),
        ],
    ),
];

/// Of 2, 3 and 4 the last two are heard after a round trip of 400 ms, and 2 is sent again.
const REPEATED: &[(u64, Act<'static>)] = &[
    (0, Sends(&[1])),
    (400_000, Custody(1)),
    (400_000, Sends(&[2, 3, 4])),
    (800_000, Hears(1, &[3, 4])),
    (900_000, Again(&[2])),
    (900_000, Sends(&[2])),
    (999_999, Spare(0)),
    (1_000_000, Spare(0)),
    (1_600_000, Spare(0)),
];

const SPARES: [Script<'static>; 8] = [
    (
        "two round trips after the last number was sent it goes out again, once",
        PLAIN,
        &[
            (0, Sends(&[1])),
            (400_000, Custody(1)),
            (400_000, Sends(&[2, 3])),
            (1_199_999, Spare(0)),
            (1_200_000, Spare(3)),
            (1_200_000, Sends(&[3])),
            (2_000_000, Spare(0)),
        ],
    ),
    (
        "two round trips after something was heard the last number goes out again, in an open contact",
        PLAIN,
        &[
            (0, Sends(&[1])),
            (400_000, Custody(1)),
            (400_000, Sends(&[2, 3])),
            (800_000, Hears(1, &[2])),
            (1_599_999, Spare(0)),
            (1_600_000, Spare(3)),
            (1_600_000, Contact(false)),
            (1_600_000, Spare(0)),
        ],
    ),
    (
        "it doesn't go out again before `resend` has passed, nor once it was heard",
        PLAIN,
        &[
            (0, Sends(&[1])),
            (40_000, Custody(1)),
            (40_000, Sends(&[2])),
            (199_999, Spare(0)),
            (200_000, Spare(2)),
            (200_000, Hears(1, &[2])),
            (400_000, Spare(0)),
        ],
    ),
    (
        "nothing was heard yet",
        PLAIN,
        &[(0, Sends(&[1])), (5_000_000, Spare(0))],
    ),
    // A quarter of the round trip after it was sent, up to two round trips after something was heard.
    (
        "with a rate and a full window a number that was sent again goes out once more",
        (160, 3, true),
        &[
            (0, Sends(&[1])),
            (400_000, Custody(1)),
            (400_000, Sends(&[2, 3, 4])),
            (800_000, Hears(1, &[3, 4])),
            (900_000, Again(&[2])),
            (900_000, Sends(&[2])),
            (900_000, Room(3)),
            (999_999, Spare(0)),
            (1_000_000, Spare(2)),
            (1_600_000, Spare(2)),
            (1_600_001, Spare(0)),
            (1_600_001, Hears(1, &[2, 3, 4])),
            (1_600_001, Spare(0)),
        ],
    ),
    (
        "with a rate, the window isn't full",
        (160, 4, true),
        REPEATED,
    ),
    (
        "without a rate, the window is full",
        (160, 3, false),
        REPEATED,
    ),
    ("without a rate", PLAIN, REPEATED),
];

/// Ten numbers, heard after 16 ms, and then twenty.
const TEN_AND_TWENTY: [(u64, Act<'static>); 5] = [
    (0, Sends(&[1, 2, 3, 4, 5, 6, 7, 8, 9, 10])),
    (16_000, Custody(10)),
    (16_000, Room(20)),
    (16_000, Sends(&[11, 12, 13, 14, 15, 16, 17, 18, 19, 20])),
    (16_000, Sends(&[21, 22, 23, 24, 25, 26, 27, 28, 29, 30])),
];

const ROOMS: [Script<'static>; 5] = [
    // In 400 ms ten were heard: twice as many may be on the way. They go out 20 ms apart, and two at once.
    (
        "ten may be sent at first, and twice as many after a round",
        PLAIN,
        &[
            (0, Room(10)),
            (0, Sends(&[1, 2, 3, 4, 5, 6, 7, 8, 9])),
            (0, Room(1)),
            (0, Sends(&[10])),
            (0, Room(0)),
            (400_000, Custody(10)),
            (400_000, Room(2)),
            (400_000, Sends(&[11, 12])),
            (419_999, Room(0)),
            (420_000, Room(1)),
        ],
    ),
    // Ten were heard in a millisecond, and so 40 in four: more than the hop's window. The next 16 took 3 ms.
    (
        "a round counts as at least 4 ms",
        (160, 16, false),
        &[
            (0, Sends(&[1, 2, 3, 4, 5, 6, 7, 8, 9, 10])),
            (1_000, Custody(10)),
            (1_000, Room(16)),
            (1_000, Sends(&[11, 12, 13, 14, 15, 16, 17, 18])),
            (1_000, Sends(&[19, 20, 21, 22, 23, 24, 25, 26])),
            (1_000, Room(0)),
            (4_000, Custody(26)),
            (4_000, Room(16)),
        ],
    ),
    // One was heard in the first round, and ten may be on the way still: 40 ms apart, and two at once.
    (
        "what was heard or is missing isn't on the way",
        PLAIN,
        &[
            (0, Sends(&[1, 2, 3, 4, 5, 6, 7, 8, 9, 10])),
            (400_000, Hears(0, &[2])),
            (424_999, Room(1)),
            (425_000, Room(2)),
            (425_000, Sends(&[1])),
            (425_000, Room(1)),
            (425_000, Sends(&[11])),
            (525_000, Room(0)),
        ],
    ),
    (
        "what was sent before a Timeout isn't on the way",
        PLAIN,
        &[
            (0, Sends(&[1, 2, 3, 4, 5, 6, 7, 8, 9, 10])),
            (999_999, Again(&[])),
            (999_999, Room(0)),
            (1_000_000, Again(&[1])),
            (1_000_000, Room(10)),
            (1_000_000, Sends(&[1])),
            (1_000_000, Room(9)),
        ],
    ),
    (
        "a flight that was answered is sent from its first number on",
        (160, 8, true),
        &[
            (0, WindowIs(6, 9)),
            (0, Room(8)),
            (0, Unsent(9, 3)),
            (0, Sends(&[6])),
            (0, Unsent(9, 2)),
            (400_000, Custody(9)),
            (400_000, Unsent(9, 2)),
            (400_000, Custody(8)),
            (400_000, Unsent(9, 0)),
        ],
    ),
];

/// How much may be sent if the twenty are heard at this moment.
const HEARD: [(u64, u64); 2] = [
    // In the shortest round, 16 ms, 20 * 16,000 / 19,999 numbers come, and twice as many may be on the way.
    (35_999, 33),
    // It took 4 ms longer: a buffer fills. So an eighth more than 16.
    (36_000, 18),
];

/// A buffer of the link fills if a round trip takes 4 ms longer, and an eighth of it.
#[test]
fn jitter(rt: HostRuntime) {
    for (at, room) in HEARD {
        let mut pace = opened(&rt, PLAIN);
        for (moment, act) in TEN_AND_TWENTY {
            expect!(rt; is_done(&mut pace, moment, act), at);
        }
        pace.on_covered(30, at);
        expect!(rt; pace.room(at) == room, at);
    }
}

/// Exactly what is missing goes out again, what goes out again if nothing else does, and how much may be sent.
#[test]
fn each_script_is_followed(rt: HostRuntime) {
    for scripts in [MISSING.as_slice(), SPARES.as_slice(), ROOMS.as_slice()] {
        follow_all(&rt, scripts);
    }
}
