//! Two simulated relays: real journals over devices in memory, the two protocol cores, and every
//! packet between them.
//!
//! Each `Pair::step` is an event of the model of two relays in `rly_world`
//! (`specs/PairSteps.antt`), so `law_two` holds after every list of steps: real code implements
//! the model. Callers: tests only.
#![tactic(auto)]

mod calls;
mod lent;
mod relays;
mod spool;
mod station;
mod step;

pub use crate::relays::Pair;
pub use crate::spool::Fault;
pub use crate::step::Step;
