//! Atomic group writes on a disk: several bytes become durable together, or none of them.
//!
//! A group is a gate (commit byte, open if `a5`), a length, a body and a closed gate
//! (docs/FORMATS.md, "Groups"). `append_group` writes one: a crash leaves its gate closed, or the
//! whole group (`law_append`). `read_group` reads one (`specs/GroupReads.antt`). Callers: crates
//! that read or write a device.
#![tactic(auto)]

mod append;
mod durable_write;
mod gate;
mod laws;
mod read;

pub use crate::append::append_group;
pub use crate::durable_write::settle;
pub use crate::gate::{CLOSED_GATE, OPEN_GATE};
pub use crate::laws::law_append;
pub use crate::read::{GroupFault, ReadFault, fill, is_open, read_bytes, read_group};
