//! The journal: a spool on a device of 2 to 256 segments that a crash at any moment leaves whole.
//!
//! `Journal::open` recovers the state that the device's bytes stand for (`specs/Recovery.antt`),
//! or returns the first check that fails (`specs/Faults.antt`). `Journal::round` answers 1 to 64
//! calls after their commands are durable: one commit group, two syncs (`specs/Rounds.antt`,
//! `specs/RoundCalls.antt`). Payloads stay on the device; memory holds an index
//! (`specs/Journal.antt`). Works on any disk that meets the disk model, in one thread. Callers:
//! `rly_flush`, `rly_audit`, the commands, and the models `rly_world_relay` and `rly_world_pair`.
#![tactic(auto)]

mod evaluation;
mod fault_laws;
mod group;
mod group_laws;
mod journal;
mod next_segment;
mod open_fault;
mod placement;
mod recovery;
mod recovery_laws;
mod tail;

pub use crate::fault_laws::law_refused_stands_for_none;
pub use crate::group::Group;
pub use crate::group_laws::{
    law_brought, law_gathered, law_grouped, law_holds, law_places, law_room,
};
pub use crate::journal::Journal;
pub use crate::open_fault::OpenFault;
pub use crate::placement::{inline_command, is_recordable, placed_at};
pub use crate::recovery_laws::{
    law_formatted_stands, law_frame, law_inline_head, law_opened, law_stands_for_one,
};
pub use crate::tail::Tail;
