//! The workers of a relay: a receiver for each upstream neighbour, and a sender with congestion
//! control for each next hop (`specs/SenderState.antt`). In each turn a worker receives up to 64
//! packets, passes them to its `rly_hop` state machine, submits the journal calls that this requests
//! as one batch through its `Desk` (the journal's client), and sends the resulting messages; a
//! receiver wakes the sender of a hop that has a new datagram. The contracts of `receiver_run` and
//! `sender_run` fix each receive, call, packet and wake-up: `specs/ReceiverTurns.antt`,
//! `specs/SenderTurns.antt`. Callers: `rly_threads`, `rly_daemon_reporter`.
#![tactic(auto)]

mod calls;
mod desk;
mod ends;
mod mem_desk;
mod receiver;
mod sender;
mod sender_state;

pub use crate::desk::Desk;
pub use crate::ends::Ends;
pub use crate::mem_desk::MemDesk;
pub use crate::receiver::receiver_run;
pub use crate::sender::{
    law_sleep_misses_nothing, law_strays_draw_nothing, law_turns_keep_the_rate, sender_run,
};
