//! The encoding of commands: a record for each accepted command, and the body of a journal's
//! group, which is 1 to 64 records (docs/FORMATS.md, "Bodies and records").
//!
//! Each command has one encoding (`specs/Spelling.antt`). Readers return the command that the
//! bytes encode; only bytes that encode none are malformed. Callers: `rly_journal`, and
//! `rly_segment_checkpoint`, which uses its field readers.
#![tactic(auto)]

mod decode_fault;
mod kind;
mod laws;
mod reader;
mod writer;

pub use crate::decode_fault::DecodeFault;
pub use crate::laws::{law_lengths, law_no_body_begins_another, law_no_record_begins_another};
pub use crate::reader::{read_body, read_command};
pub use crate::writer::{record_len, write_body, write_command};
