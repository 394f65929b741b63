//! Tests of the models that run real journals in memory: one relay (three cycles, a crash and an
//! opening, age limits, failed reads, refused memory), and two relays over a link that loses,
//! repeats and reorders packets.
//!
//! A step may refuse for want of memory and would still be proved, so one run has ample memory and
//! compares every reply.
#![tactic(auto)]

/// Like `assert!`, as one call: the prover then sees one branch where `assert!` has two.
#[cfg(test)]
macro_rules! expect {
    ($rt:expr; $cond:expr $(,)?) => {
        crate::expect::expect(&$rt, $cond, stringify!($cond))
    };
}

#[cfg(test)]
mod expect;
#[cfg(test)]
mod pair;
#[cfg(test)]
mod relay;
