//! Tests of `rly_hop_pacing` and of a sender over a link in memory: repeats, timers, windows and rates
//! that were computed by hand from RFC 6298, RFC 6675, RFC 8985 and RFC 6928 (docs/ARCHITECTURE.md,
//! "The pace of a hop"). A failure means that a hop is overrun, or waits too long. Tests only; no crate
//! calls it.
#![tactic(auto)]

/// Like `assert!`, as one call: the prover then sees one path instead of two. A number after the condition names a
/// row.
#[cfg(test)]
macro_rules! expect {
    ($rt:expr; $cond:expr $(,)?) => {
        crate::expect::expect(&$rt, $cond, stringify!($cond))
    };
    ($rt:expr; $cond:expr, $row:expr $(,)?) => {
        crate::expect::expect_row(&$rt, $cond, stringify!($cond), $row)
    };
}

#[cfg(test)]
mod copies;
#[cfg(test)]
mod expect;
#[cfg(test)]
mod gaps;
#[cfg(test)]
mod paces;
#[cfg(test)]
mod rated;
#[cfg(test)]
mod rates;
#[cfg(test)]
mod script;
#[cfg(test)]
mod sleeps;
#[cfg(test)]
mod spools;
#[cfg(test)]
mod timeouts;
