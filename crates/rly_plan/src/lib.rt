//! Contact plans: when the link to each next hop is open, and the next hop of each payload.
//! `Plan::from_toml` parses and checks a plan, or returns its first fault (`specs/Passes.antt`;
//! `docs/FORMATS.md`, "The plan"). `Plan::link` is the link clock: the open time of a hop's link
//! before a moment, in microseconds (`specs/LinkClock.antt`). A plan takes no memory after it was
//! read. Callers: `rly_threads_workers`, and each crate above that is given a plan.
#![tactic(auto)]

mod contacts;
mod far_end;
mod laws;
mod neighbour;
mod number_paths;
mod passes;
mod plan;
mod plan_fault;
mod route;

pub use crate::far_end::{FarEnd, FolderEnd};
pub use crate::laws::{
    law_edge_wait, law_link_grows_with_time, law_link_never_falls, law_link_runs_while_open,
    law_link_stands_while_closed, law_next_change, law_plan_is_sound,
};
pub use crate::neighbour::Neighbour;
pub use crate::number_paths::{MAX_FILES, MAX_LIMIT};
pub use crate::passes::{MAX_LEAD, MAX_RATE};
pub use crate::plan::{NextHop, Plan};
pub use crate::plan_fault::PlanFault;
pub use crate::route::{Destination, Route};
pub use rly_plan_syntax::{Addresses, KeyPath, PlanKey, PlanPath, Position, Row, SocketEnd, Spot};
