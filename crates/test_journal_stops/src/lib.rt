//! Tests of a journal whose device fails: scripts in rounds are stopped at each device call, and
//! continued after each failed call. Replies and recovered states are compared with the plain
//! machine's. Disks are in memory, with two to four segments.
//!
//! A failure means that a crash or a device failure loses a command. Tests only; no crate calls
//! it.
#![tactic(auto)]

/// Like `assert!`, as one call: the prover then sees one branch where `assert!` has two. `assert!` is used if a later
/// call needs the asserted fact. The number after the condition is the row.
#[cfg(test)]
macro_rules! expect {
    ($rt:expr; $cond:expr $(,)?) => {
        crate::expect::expect(&$rt, $cond, stringify!($cond))
    };
    ($rt:expr; $cond:expr, $row:expr $(,)?) => {
        crate::expect::expect_row(&$rt, $cond, stringify!($cond), $row)
    };
}

#[cfg(test)]
mod carried_over;
#[cfg(test)]
mod comparison;
#[cfg(test)]
mod device;
#[cfg(test)]
mod expect;
#[cfg(test)]
mod faults;
#[cfg(test)]
mod old_device;
#[cfg(test)]
mod replies;
#[cfg(test)]
mod script;
#[cfg(test)]
mod stops;
#[cfg(test)]
mod walks;
