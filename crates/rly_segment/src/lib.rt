//! The device format: a header, and 2 to 256 segments; each begins with a head (a checkpoint).
//!
//! `read_header`, `newest`, `read_head` and `read_placed_head` check what they read
//! (`specs/Answers.antt`). `format` makes a device. `open_segment` writes a head: after a crash the
//! segment has the complete new head, or no head that is newer than the last one (`law_opening`).
//! Callers: `rly_journal`, `rly_journal_index` and `rly_journal_relocate`; `rly_daemon` and
//! `rly_daemon_commands` for `format` and `audit`.
#![tactic(auto)]

mod formatter;
mod generations;
mod head_bytes;
mod header;
mod heads;
mod laws;
mod layout;
mod opener;
mod placed_heads;

pub use crate::formatter::{FormatFault, format};
pub use crate::generations::{NewestFault, NewestHead, newest};
pub use crate::header::{HeaderFault, read_header};
pub use crate::heads::{Head, HeadFault, read_head, read_head_of};
pub use crate::laws::{law_head_addresses, law_one_head, law_opening};
pub use crate::layout::{segment_end, segment_place};
pub use crate::opener::{OpeningFault, Target, open_segment};
pub use crate::placed_heads::read_placed_head;
