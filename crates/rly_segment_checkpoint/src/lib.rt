//! The encoding of a whole spool: its checkpoint, in the head (checkpoint header) of a segment.
//! Payloads are inline (`Payload`) or by device address (`Stored`).
//!
//! `specs/Checkpoint.antt` defines it (docs/FORMATS.md, "Heads"). Reading returns the one sound
//! state with this encoding; only bytes without one are malformed. Callers: `rly_segment` and the
//! crates of the journal.
#![tactic(auto)]

mod form;
mod head_form;
mod laws;
mod reader;
mod restore;
mod sound;
mod stored;
mod writer;

pub use crate::form::Form;
pub use crate::head_form::HeadForm;
pub use crate::laws::{law_inline, law_length, law_one_spelling, law_one_state};
pub use crate::restore::{read_checkpoint, read_state};
pub use crate::stored::{DeviceAddress, Stored};
pub use crate::writer::{append_state, checkpoint_len, most_len, write_checkpoint};
pub use rly_record::DecodeFault;
