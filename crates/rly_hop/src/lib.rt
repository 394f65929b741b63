//! The custody protocol between two neighbouring stations: its messages, each one UDP datagram,
//! and the state machines of its receiving and sending ends. `read_message` and `write_message`
//! decode and encode (`specs/MessageReads.antt`, `specs/Spelling.antt`); `data_number`,
//! `custody_number` and `refused_number` read the number of one kind at a packet's fixed bytes, and
//! `heard_packet` encodes a Heard (`specs/FixedBytes.antt`); `marks` and `with_mark` read and set
//! its bits (`specs/HeardBits.antt`). `Receiving::step` and `Sending::step` return at most one
//! action per event, without I/O or memory (`specs/Receiving.antt`, `specs/Sending.antt`;
//! `docs/PROTOCOL.md`). Callers: `rly_threads_workers`, `rly_world_pair`, link crates,
//! `rly_daemon_report`.
#![tactic(auto)]

mod fixed_bytes;
mod heard_bits;
mod kind;
mod laws;
mod message;
mod reader;
mod receiving;
mod sending;
mod writer;

pub use crate::fixed_bytes::{custody_number, data_number, refused_number};
pub use crate::heard_bits::{marks, with_mark};
pub use crate::laws::{
    law_cursor_is_in_order, law_custody_follows_an_answer, law_data_is_what_was_fetched,
    law_fetch_was_given, law_fetched_again_changes_nothing, law_longest_message, law_marks,
    law_no_fault_is_a_spelling, law_nothing_is_named_while_an_answer_is_due, law_one_spelling,
    law_refused_follows_an_answer, law_release_was_acknowledged, law_repeat_was_sent,
    law_take_follows_data,
};
pub use crate::message::{HEARD_LENGTH, MAX_MESSAGE, Message, StationId, longest_message};
pub use crate::reader::read_message;
pub use crate::receiving::{InAction, InEvent, Receiving, TakeAnswer};
pub use crate::sending::{OutAction, OutEvent, Sending};
pub use crate::writer::{heard_packet, write_message};
