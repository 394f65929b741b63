//! A network of plans: the stations whose plans lead datagrams to each other. `check` returns
//! what the plans disagree on, each with its place (`specs/Check.antt`; `docs/NETWORK.md`). If that
//! is nothing, each datagram that a station takes arrives (`law_network_leads`): following
//! `Plan::hop_for` from plan to plan leads over links whose ends agree into a folder, and by a route
//! of its own into one of the destination's station. Pure; no caller yet.
#![tactic(auto)]

mod addresses;
mod checks;
mod disagreement;
mod laws;
mod links;
mod paths;
mod station_plan;
mod stations;

pub use crate::checks::check;
pub use crate::disagreement::{Conflict, Disagreement, Trouble, lines_of};
pub use crate::laws::{law_declared_arrives, law_network_leads, law_takes};
pub use crate::station_plan::StationPlan;
