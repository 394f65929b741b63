//! Tests of the messages between two relays and of the two protocol cores, against hand-written rows:
//! the bytes of messages, each fault, and each row of the two tables (docs/PROTOCOL.md); and of the
//! link clocks of a plan (docs/FORMATS.md). What else a plan has is tested with the program
//! (tests/test_plan_faults.py, tests/test_plan_texts.py).
#![tactic(auto)]

/// Like `assert!`, as one call: the prover then sees one path instead of two. `assert!` is used if a later call
/// needs the asserted fact. A number after the condition names a row.
#[cfg(test)]
macro_rules! expect {
    ($rt:expr; $cond:expr $(,)?) => {
        crate::expect::expect(&$rt, $cond, stringify!($cond))
    };
    ($rt:expr; $cond:expr, $row:expr $(,)?) => {
        crate::expect::expect_row(&$rt, $cond, stringify!($cond), $row)
    };
}

#[cfg(test)]
mod expect;
#[cfg(test)]
mod messages;
#[cfg(test)]
mod plans;
#[cfg(test)]
mod receiving;
#[cfg(test)]
mod sending;
