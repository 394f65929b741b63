//! Tests of the workers, each over a link, a journal client (`Desk`) and a clock in memory: a
//! worker runs for a number of turns, and its sent packets and requests are compared with
//! hand-written tables (docs/reference/DEFINITIONS.md, docs/PROTOCOL.md).
#![tactic(auto)]

/// Like `assert!`, as one call: the prover then sees one path instead of two. `assert!` is used if the text names a
/// row.
#[cfg(test)]
macro_rules! expect {
    ($rt:expr; $cond:expr $(,)?) => {
        crate::expect::expect(&$rt, $cond, stringify!($cond))
    };
}

#[cfg(test)]
mod expect;
#[cfg(test)]
mod failures;
#[cfg(test)]
mod receivers;
#[cfg(test)]
mod script;
#[cfg(test)]
mod senders;
#[cfg(test)]
mod workers;
