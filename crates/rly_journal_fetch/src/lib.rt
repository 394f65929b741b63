//! Payload reads for the Fetches of a round, after the round's group is durable.
//!
//! `Outcome` is a call's reply, or the device address of the payload that it requests.
//! `answer_all` makes the reads in order; a failed read or allocation refuses that call alone
//! (`specs/FetchReads.antt`). It writes nothing. Caller: `rly_journal`.
#![tactic(auto)]

mod answers;
mod outcome;
mod payloads;

pub use crate::answers::{answer_all, refuse_all};
pub use crate::outcome::{Outcome, place_of};
pub use crate::payloads::read_payload;
