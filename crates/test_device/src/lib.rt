//! Tests of disks and streams in memory: disks whose calls fail, disks that lose power, and streams
//! that fail; of CoDel's steps and dequeues; of records, with one allocation that fails, the largest
//! body of them and the largest checkpoint; and of a report with the greatest numbers.
//!
//! Expected values were worked out by hand. A failure means that a disk, a stream or CoDel does
//! something that its definition excludes. Tests only; no crate calls it.
#![tactic(auto)]

/// Like `assert!`, as one call: the prover then sees one branch where `assert!` has two. `assert!` is used if a later
/// call needs the asserted fact, and if the message shows more than a row number. The number after the condition is the
/// row.
#[cfg(test)]
macro_rules! expect {
    ($rt:expr; $cond:expr $(,)?) => {
        crate::expect::expect(&$rt, $cond, stringify!($cond))
    };
    ($rt:expr; $cond:expr, $row:expr $(,)?) => {
        crate::expect::expect_row(&$rt, $cond, stringify!($cond), $row)
    };
}

#[cfg(test)]
mod control_law;
#[cfg(test)]
mod dequeues;
#[cfg(test)]
mod disks;
#[cfg(test)]
mod expect;
#[cfg(test)]
mod growths;
#[cfg(test)]
mod large;
#[cfg(test)]
mod payloads;
#[cfg(test)]
mod reports;
#[cfg(test)]
mod streams;
