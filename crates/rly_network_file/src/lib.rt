//! A network in one file: `NetworkFile::from_toml` reads it (`docs/NETWORK.md`, "A network file"),
//! `assign` gives each neighbour of a station its id, which never changes its meaning
//! (`specs/Ids.antt`), and `write` makes each station's plan and settings. What `write` returns
//! was read again and checked: each plan is that of its station by these ids, and the plans
//! disagree on nothing (`specs/Written.antt`), so the laws of `rly_network` hold of them. Pure;
//! called by `rly_network_command`.
#![tactic(auto)]

mod assignment;
mod contacts;
mod distinct;
mod fault;
mod folders;
mod ids;
mod items;
mod kept;
mod links;
mod loads;
mod names;
mod neighbours;
mod network_file;
mod passes;
mod paths;
mod picture;
mod places;
mod plans;
mod station_files;
mod stations;
mod values;
mod written;

pub use crate::assignment::assign;
pub use crate::fault::NetworkFault;
pub use crate::ids::{NetworkIds, StationIds};
pub use crate::network_file::{NetworkFile, is_network};
pub use crate::passes::{PassFile, pass_files};
pub use crate::picture::draw;
pub use crate::station_files::StationFiles;
pub use crate::stations::StationNumber;
pub use crate::written::write;
