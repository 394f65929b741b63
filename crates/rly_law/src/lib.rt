//! CoDel's control law (RFC 8289 section 5) in integers: the time from one drop to the next.
//!
//! `step` returns the RFC's `interval / sqrt(count)` rounded down: the greatest d with `d * d *
//! count <= interval * interval` (`specs/ControlLaw.antt`); no floats, no allocation. `Control` is
//! the law at one interval: `Plain` computes each step, `StepTable` caches the first 1,024.
//! Callers: `rly_codel` for each drop time, and `rly_machine`, which owns a `StepTable`.
#![tactic(auto)]

mod control;
mod control_law;
mod laws;
mod step_table;

pub use control::{Control, Plain};
pub use control_law::{LONGEST_INTERVAL, step};
pub use laws::{law_step_falls, law_step_is_the_only_greatest};
pub use step_table::StepTable;
