//! Steps of CoDel's control law.
use rly_law::{Control, LONGEST_INTERVAL, Plain, StepTable, step};
use std::process::Abort;

/// An interval, a count, and the greatest d with d * d * count <= interval * interval, computed independently of this
/// code. They include the last step of a table, and the first one after it.
const STEPS: [(u64, u64, u64); 12] = [
    (100_000, 1, 100_000),
    (100_000, 2, 70_710),
    (100_000, 3, 57_735),
    (100_000, 4, 50_000),
    (100_000, 5, 44_721),
    (100_000, 1_024, 3_125),
    (100_000, 1_025, 3_123),
    (1, 1, 1),
    (1, 2, 0),
    (LONGEST_INTERVAL, 1, 3_600_000_000),
    (LONGEST_INTERVAL, 2, 2_545_584_412),
    (LONGEST_INTERVAL, u64::MAX, 0),
];

/// Returns the step after `count` drops: by itself, by a table, and by a `Control` without one.
fn steps<R: Abort>(rt: &R, interval: u64, count: u64) -> [u64; 3] {
    assert!(rt; count > 0 && interval <= LONGEST_INTERVAL);
    let by_table = StepTable::new(interval).step(count);
    [
        step(interval, count),
        by_table,
        Plain::new(interval).step(count),
    ]
}

#[test]
fn steps_of_intervals(rt: HostRuntime) {
    for (interval, count, want) in &STEPS {
        assert!(rt;
            steps(&rt, *interval, *count) == [*want; 3],
            "{interval} at {count}"
        );
    }
}
