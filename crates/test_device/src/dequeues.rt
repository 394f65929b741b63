//! Worked rows of CoDel's dequeue.
use crate::expect::expect;
use rly_codel::{CodelState, Lane, Verdict, dequeue, dequeue_with};
use rly_core::Params;
use rly_law::StepTable;
use std::process::Abort;

/// Equal items, as in the worked rows: 1,000 bytes each, stamped 0.
#[derive(Drop)]
struct EqualItems {
    count: u16,
}

impl Lane for EqualItems {
    ghost use Rattle.std.specs.Prelude.{replicate};

    ghost waiting = { λ lane. replicate lane.count (record { stamp = 0; bytes = 1000 }) };

    fn count(&self) -> usize {
        self.count as usize
    }

    fn stamp(&self, _index: usize) -> u64 {
        0
    }

    fn bytes_behind(&self, index: usize) -> u64 {
        (self.count as u64 - 1 - index as u64) * 1_000
    }
}

/// `first_above_time`, `drop_next`, `count` and `lastcount` of a state, and whether it is dropping.
type State = ([u64; 4], bool);

/// A state after a phase of five drops.
const BEHIND_FIVE: CodelState = CodelState {
    first_above_time: 1_000,
    drop_next: 1_000_000,
    count: 5,
    lastcount: 1,
    dropping: false,
};

/// Dequeues in order from a lane of equal items at these times, the number of drops of the last one, whether it
/// delivers, and the new state.
struct Row {
    shows: &'static str,
    before: CodelState,
    maxpacket: u64,
    counts: &'static [u16],
    moments: &'static [u64],
    verdict: (usize, bool),
    left: State,
}

const ROWS: [Row; 8] = [
    Row {
        shows: "the first of three dequeues of six items",
        before: CodelState::NEW,
        maxpacket: 1_500,
        counts: &[6],
        moments: &[10_000],
        verdict: (0, true),
        left: ([110_000, 0, 0, 0], false),
    },
    Row {
        shows: "the second, exactly at first_above_time",
        before: CodelState::NEW,
        maxpacket: 1_500,
        counts: &[6, 5],
        moments: &[10_000, 110_000],
        verdict: (1, true),
        left: ([110_000, 210_000, 1, 1], true),
    },
    Row {
        shows: "the third: its drop takes the front's last item, so it ends the phase and sets no new time",
        before: CodelState::NEW,
        maxpacket: 1_500,
        counts: &[6, 5, 3],
        moments: &[10_000, 110_000, 210_000],
        verdict: (1, true),
        left: ([0, 210_000, 2, 1], false),
    },
    Row {
        shows: "four drops are due at once",
        before: CodelState::NEW,
        maxpacket: 1_500,
        counts: &[10, 9, 7],
        moments: &[10_000, 110_000, 400_000],
        verdict: (4, true),
        left: ([110_000, 433_166, 5, 1], true),
    },
    Row {
        shows: "a phase begins with the count of a recent one",
        before: BEHIND_FIVE,
        maxpacket: 1_500,
        counts: &[3],
        moments: &[1_500_000],
        verdict: (1, true),
        left: ([0, 1_550_000, 4, 4], true),
    },
    Row {
        shows: "exactly 16 intervals after drop_next the last phase no longer counts",
        before: BEHIND_FIVE,
        maxpacket: 1_500,
        counts: &[3],
        moments: &[2_600_000],
        verdict: (1, true),
        left: ([0, 2_700_000, 1, 1], true),
    },
    Row {
        shows: "a phase begins before the last item",
        before: CodelState::NEW,
        maxpacket: 500,
        counts: &[3, 2],
        moments: &[10_000, 110_000],
        verdict: (1, true),
        left: ([0, 210_000, 1, 1], true),
    },
    Row {
        shows: "an empty lane ends it",
        before: CodelState::NEW,
        maxpacket: 500,
        counts: &[3, 2, 0],
        moments: &[10_000, 110_000, 120_000],
        verdict: (0, false),
        left: ([0, 210_000, 1, 1], false),
    },
];

fn rows() -> &'static [Row] {
    &ROWS
}

/// Makes one dequeue from `count` items, with the same result by a table of steps.
fn dequeue_from<R: Abort>(
    rt: &R,
    state: &mut CodelState,
    params: &Params,
    (count, now): (u16, u64),
) -> Verdict {
    assert!(rt; params.check().is_ok() && now < 1 << 52 && state.first_above_time < 1 << 53);
    assert!(rt;
        state.drop_next < 1 << 53 && state.lastcount <= state.count && state.count < 1 << 62
    );
    let (mut by_table, items) = (*state, EqualItems { count });
    let steps = StepTable::new(params.interval);
    let same = dequeue_with(&mut by_table, &items, now, params, &steps);
    let verdict = dequeue(state, &items, now, params);
    expect(rt, by_table == *state && same == verdict, "by a table");
    verdict
}

/// Makes the dequeues of a row.
fn expect_row<R: Abort>(rt: &R, row: &Row) {
    let params = Params {
        maxpacket: row.maxpacket,
        ..Params::DEFAULT
    };
    let mut state = row.before;
    let mut verdict = (0, false);
    for (count, now) in row.counts.iter().zip(row.moments) {
        let Verdict { dropped, delivered } = dequeue_from(rt, &mut state, &params, (*count, *now));
        verdict = (dropped, delivered);
    }
    let numbers = [
        state.first_above_time,
        state.drop_next,
        state.count,
        state.lastcount,
    ];
    let is_left = (numbers, state.dropping) == row.left;
    expect(rt, verdict == row.verdict && is_left, row.shows);
}

#[test]
fn worked_dequeues(rt: HostRuntime) {
    for row in rows() {
        expect_row(&rt, row);
    }
}
