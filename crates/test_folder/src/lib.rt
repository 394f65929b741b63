//! Tests of folders in memory: their calls, crashes that leave some of the pending changes, and
//! folders whose calls fail.
//!
//! Expected values were worked out by hand. A failure means that a folder does something that its
//! definition excludes. Tests only; no crate calls it.
#![tactic(auto)]

/// Like `assert!`, as one call: the prover then sees one branch where `assert!` has two. The number after the condition
/// is the row.
#[cfg(test)]
macro_rules! expect {
    ($rt:expr; $cond:expr $(,)?) => {
        crate::expect::expect(&$rt, $cond, stringify!($cond))
    };
    ($rt:expr; $cond:expr, $row:expr $(,)?) => {
        crate::expect::expect_row(&$rt, $cond, stringify!($cond), $row)
    };
}

#[cfg(test)]
mod expect;
#[cfg(test)]
mod fault_folder;
#[cfg(test)]
mod folder_link;
#[cfg(test)]
mod gets;
#[cfg(test)]
mod hop_neighbour;
#[cfg(test)]
mod inbox;
#[cfg(test)]
mod mem;
#[cfg(test)]
mod outbox;
#[cfg(test)]
mod peer_neighbour;
#[cfg(test)]
mod puts;

#[cfg(test)]
use rly_folder::{Area, Folder};
#[cfg(test)]
use std::process::Abort;

/// The numbers of an area's files are these.
#[cfg(test)]
pub(crate) fn expect_listed<R: Abort, F: Folder>(
    rt: &R,
    folder: &mut F,
    area: Area,
    numbers: &[u64],
    row: u64,
) {
    let listed = folder.list(area).expect(rt, "no fault");
    expect!(*rt; listed.as_slice() == numbers, row);
}
