//! Tests of several crates together: the device calls of a format, a round and an opening, call by
//! call; a format that stops; rounds in which the device fails; and a journal in scarce memory.
//! Devices are in memory, with two segments and with three.
//!
//! Expected values were worked out by hand from docs/, or come from the plain state machine. A
//! failure means that crates disagree on a call or a state. Tests only; no crate calls it.
#![tactic(auto)]

/// Like `assert!`, as one call: the prover then sees one branch where `assert!` has two. `assert!` is used if a later
/// call needs the asserted fact. The number after the condition is the row.
#[cfg(test)]
macro_rules! expect {
    ($rt:expr; $cond:expr $(,)?) => {
        crate::expect::expect(&$rt, $cond, stringify!($cond))
    };
    ($rt:expr; $cond:expr, $row:expr $(,)?) => {
        crate::expect::expect_row(&$rt, $cond, stringify!($cond), $row)
    };
}

#[cfg(test)]
mod comparison;
#[cfg(test)]
mod device;
#[cfg(test)]
mod expect;
#[cfg(test)]
mod formats;
#[cfg(test)]
mod growths;
#[cfg(test)]
mod rounds;
#[cfg(test)]
mod script;
#[cfg(test)]
mod traces;
