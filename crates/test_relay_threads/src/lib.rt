//! Tests of the submission queue and of the committer, and of relays of workers: callers in threads
//! of their own, each with a seat, put their calls, and workers run to their end. Answers and results
//! are compared with hand-written rows (docs/reference/DEFINITIONS.md, docs/PROTOCOL.md). No contract says that
//! a thread runs or that a message arrives; these tests fail if one doesn't.
#![tactic(auto)]

/// Like `assert!`, as one call: the prover then sees one path instead of two.
#[cfg(test)]
macro_rules! expect {
    ($rt:expr; $cond:expr $(,)?) => {
        crate::expect::expect(&$rt, $cond, stringify!($cond))
    };
}

#[cfg(test)]
mod asks;
#[cfg(test)]
mod callers;
#[cfg(test)]
mod devices;
#[cfg(test)]
mod expect;
#[cfg(test)]
mod flushers;
#[cfg(test)]
mod growths;
#[cfg(test)]
mod lines;
#[cfg(test)]
mod links;
#[cfg(test)]
mod overlap;
#[cfg(test)]
mod pauses;
#[cfg(test)]
mod relayed;
#[cfg(test)]
mod relays;
#[cfg(test)]
mod rests;
#[cfg(test)]
mod rounds;
#[cfg(test)]
mod served;
#[cfg(test)]
mod waits;
