//! A simulated relay: the real journal on a disk in memory that fails as requested, with seats
//! (client handles) that submit requests and receive replies.
//!
//! Each `Relay::step` is a list of events of the model of one relay in `rly_world`
//! (`specs/Steps.antt`), so `law_relay` holds after every list of steps. Callers: tests only.
#![tactic(auto)]

mod batch;
mod relay;
mod round;
mod seat;
mod spool;
mod step;

pub use crate::relay::Relay;
pub use crate::step::Step;
