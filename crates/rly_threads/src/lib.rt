//! The relay: the workers of a plan, each in a thread of its own, and the committer in the calling
//! thread. `run_relay` starts them, waits for them, and returns their results: each worker kept the
//! contract of `rly_threads_workers` over its seat in the submission queue (`specs/Relay.antt`). Once
//! the journal is broken, all workers stop (`specs/Cut.antt`). That they run in parallel is only
//! tested. Callers: `rly_daemon_reporter` and `rly_daemon_serve`.
#![tactic(auto)]

mod cut;
mod relay;
mod seat_desk;

pub use crate::cut::TurnOwner;
pub use crate::relay::{Ended, Relayed, run_relay, run_relay_at};
pub use crate::seat_desk::SeatDesk;
