//! Assertions of these tests.
use std::process::Abort;

/// Stops a test if a condition fails, and prints its description.
pub(crate) fn expect<R: Abort>(rt: &R, holds: bool, what: &str) {
    assert!(rt; holds, "not so: {what}");
}

/// The same in a numbered row.
pub(crate) fn expect_row<R: Abort>(rt: &R, holds: bool, what: &str, row: u64) {
    assert!(rt; holds, "not so in row {row}: {what}");
}
