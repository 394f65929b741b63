//! The rate limit: bytes a second, each message with 28 more. Moments are in microseconds.
use rly_hop_pacing::Rate;
use std::process::Abort;

/// What a rate is asked at a moment.
#[derive(Clone, Copy)]
enum Asked {
    /// The number of the longest messages that may go out.
    Room,
    /// Whether a message of so many bytes goes out: 1 if it does.
    Take(u32),
    /// The first moment with room for one of the longest.
    Next,
}

use Asked::{Next, Room, Take};

/// What a script shows; bytes a second, the longest message and the first moment; and what is asked, each with its moment
/// and the answer.
type Script = (&'static str, (u32, u32, u64), &'static [(u64, Asked, u64)]);

const SCRIPTS: [Script; 5] = [
    (
        "1,200 bytes a second, messages of at most 1,218 bytes: two of 1,246 bytes are sent at once, and the third 1.038333.. s later",
        (1_200, 1_218, 0),
        &[
            (0, Room, 2),
            (0, Take(1_218), 1),
            (0, Room, 1),
            (0, Take(1_218), 1),
            (1_038_333, Room, 0),
            (1_038_334, Room, 1),
            (1_038_333, Take(1_218), 0),
            (1_038_334, Take(1_218), 1),
        ],
    ),
    (
        "the first moment with room for one of the longest: of 1,246 bytes at 1,200 a second after two were sent",
        (1_200, 1_218, 0),
        &[
            (0, Next, 0),
            (0, Take(1_218), 1),
            (5, Next, 5),
            (0, Take(1_218), 1),
            (0, Next, 1_038_334),
            (1_038_333, Next, 1_038_334),
            (1_038_334, Next, 1_038_334),
            (2_000_000, Next, 2_000_000),
        ],
    ),
    (
        "without a rate there is none once the burst was sent",
        (0, 972, 5),
        &[
            (5, Take(972), 1),
            (6, Next, 6),
            (6, Take(972), 1),
            (7, Next, 18_446_744_073_709_551_615),
        ],
    ),
    (
        "a clock that falls adds no credit, and none twice as it rises again",
        (1_000, 972, 5_000_000),
        &[
            (5_000_000, Take(972), 1),
            (5_000_000, Take(972), 1),
            (1_000_000, Take(972), 0),
            (5_999_999, Take(972), 0),
            (6_000_000, Take(972), 1),
        ],
    ),
    (
        "at 10^9 bytes a second the burst is 20 ms of it, 20,000,000 bytes",
        (1_000_000_000, 1_218, 0),
        &[(0, Take(19_999_972), 1), (0, Take(0), 0), (1, Take(972), 1)],
    ),
];

fn answer(rate: &mut Rate, at: u64, asked: Asked) -> u64 {
    match asked {
        Room => rate.room(at),
        Take(bytes) => u64::from(rate.take(bytes, at)),
        Next => rate.next_moment(at),
    }
}

fn follow<R: Abort>(rt: &R, (shows, (bytes, longest, start), rows): Script) {
    let mut rate = Rate::new(bytes, longest, start);
    for (at, asked, wanted) in rows {
        let found = answer(&mut rate, *at, *asked);
        crate::script::expect_done(rt, found == *wanted, shows, *at);
    }
}

fn follow_each<R: Abort>(rt: &R, scripts: &[Script]) {
    for script in scripts {
        follow(rt, *script);
    }
}

#[test]
fn each_rate_is_kept(rt: HostRuntime) {
    follow_each(&rt, &SCRIPTS);
}
