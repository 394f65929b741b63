//! The state machine of a spool (the queues of stored datagrams): its state in memory, and the
//! effect of each command on it.
//!
//! `specs/State.antt` defines the state and `specs/Step.antt` the step. `Machine::apply` is
//! exactly that step, over any payload that has a length: checks run in order, a refusal changes
//! nothing, and it never allocates (`reserve_for` does). Callers: the journal, `rly sim`.
#![tactic(auto)]

mod call;
mod command;
mod content;
mod growth;
mod history_law;
mod hop;
mod lane;
mod laws;
mod live;
mod machine;
mod question;
mod queue;
mod reply;
mod room;
mod rules;

pub use crate::call::{Answer, Call, SeatId};
pub use crate::command::{Ask, Command, Query};
pub use crate::content::{Content, Payload};
pub use crate::history_law::law_history;
pub use crate::hop::{Hop, Item};
pub use crate::laws::{law_balance, law_custody, law_expiry, law_map, law_relocate};
pub use crate::machine::Machine;
pub use crate::queue::Queue;
pub use crate::reply::{HopStatus, Ids, Reply};
pub use crate::room::Room;
pub use rly_codel::CodelState;
