//! Types that every crate of the relay uses: ids, the parameters of a spool with their limits, the
//! geometry of a device, and the refusals (error replies) with their numbers and texts.
//!
//! `Params::check` returns `Ok` iff each parameter is within its limits (`specs/Limits.antt`).
//! `Refusal` displays as the line that the program prints (`specs/Refusals.antt`).
#![tactic(auto)]

mod ids;
pub mod limits;
mod params;
mod refusal;

pub use crate::ids::{HopId, PeerId};
pub use crate::params::{Geometry, Params};
pub use crate::refusal::Refusal;
