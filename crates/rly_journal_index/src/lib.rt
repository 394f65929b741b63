//! The journal's index in memory: the machine with a device address for each payload, the current
//! segment with its used length, and a counter of live bytes for each segment.
//!
//! A command costs what it changes; only `begin` visits all items (`specs/Index.antt`). The laws
//! say that the index matches the device after reading a head (checkpoint), opening a segment,
//! applying a command, and writing a group (`specs/IndexRelation.antt`). Reads and writes no
//! device. Caller: `rly_journal`.
#![tactic(auto)]

mod commands;
mod fetches;
mod heads;
mod index;
mod segment_counters;

pub use crate::commands::{law_commanded, law_written};
pub use crate::fetches::law_fetched;
pub use crate::heads::{law_begun, law_opened};
pub use crate::index::Index;
