//! The reorder buffer of a receiving end: copies of at most 64 Data messages that arrived beyond a
//! gap.
//!
//! `ReorderBuffer` is the buffer (`specs/ReorderBuffer.antt`); it reserves its memory at the
//! start. `ReorderedLink` wraps any link and delivers a kept packet again once its turn has come
//! (`specs/ReorderedLink.antt`), so the worker above sees a late copy (`specs/ReorderRuns.antt`).
//! After a custody it sends a Heard, if Data came ahead of a gap (`law_heard_came`), and beside
//! that only the packets that it is given. Callers: the stations' links.
#![tactic(auto)]

mod laws;
mod reorder_buffer;
mod reorder_slot;
mod reordered_link;

pub use crate::laws::{law_given_again_came_before, law_heard_came};
pub use crate::reorder_buffer::{ReorderBuffer, SLOTS};
pub use crate::reordered_link::ReorderedLink;
