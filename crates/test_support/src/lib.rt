//! Marks around a call of a test, between which `bench/scarce_memory` fails one allocation in each
//! run of the test, and no other.
//!
//! A mark is an allocation of a distinctive size; without `bench/scarce_memory`, as in the gate's
//! runs, it has no effect. No clause can express that an allocator fails, so there is none here.
//! Callers: the `growths` modules of the test crates.
#![tactic(auto)]

use std::alloc::{AllocError, Global};

/// The size in bytes of the mark before a call.
const BEFORE: usize = 1_000_003;

/// The size in bytes of the mark after it. It fails if an allocation of the call failed.
const AFTER: usize = 1_000_033;

/// Marks the start of a call.
pub fn before(alloc: Global) -> Result<(), AllocError> {
    let _mark: Vec<u8> = Vec::with_capacity(alloc, BEFORE)?;
    Ok(())
}

/// Marks the end of a call, and returns true iff one of its allocations failed.
pub fn was_refused(alloc: Global) -> bool {
    Vec::<u8>::with_capacity(alloc, AFTER).is_err()
}
