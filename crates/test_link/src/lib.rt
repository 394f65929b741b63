//! Tests of the HMAC of authenticated links (the vectors of RFC 4231), and of the reorder buffer (Data
//! beyond a gap, and a worker above it). Keys and packets with tags are tested with the program
//! (tests/test_links.py, tests/test_keys.py).
//!
//! Expected values are the standard's vectors and bytes worked by hand from docs/PROTOCOL.md.
#![tactic(auto)]

/// Like `assert!`, as one call: the prover then sees one path instead of two. A number after the condition names a
/// row.
#[cfg(test)]
macro_rules! expect {
    ($rt:expr; $cond:expr $(,)?) => {
        crate::expect::expect(&$rt, $cond, stringify!($cond))
    };
    ($rt:expr; $cond:expr, $row:expr $(,)?) => {
        crate::expect::expect_row(&$rt, $cond, stringify!($cond), $row)
    };
}

#[cfg(test)]
mod expect;
#[cfg(test)]
mod reorder;
#[cfg(test)]
mod vectors;
