//! What stops a link to a socket, as its packets show it, and the log of that; no socket and no
//! clock.
//!
//! `LinkLog` is given each packet that a worker's link heard or sends, with its moment. It counts
//! the causes by their kinds and logs those that are due (`specs/LinkLog.antt`): refusals, packets of
//! other stations, tags without a key, a minute of silence (`specs/Silence.antt`), a Data that
//! is lost again and again while shorter ones arrive (`specs/SentData.antt`), and routes that lead back
//! (`specs/BackRoutes.antt`). `SourceLog` logs packets from another address (`specs/SourceLog.antt`).
//! Caller: `rly_link_udp`.
#![tactic(auto)]

mod back_routes;
mod heard_data;
mod link_causes;
mod link_log;
mod seen;
mod sent_data;
mod silence;
mod source_log;

pub use crate::back_routes::{BackRoute, BackRoutes};
pub use crate::link_log::LinkLog;
pub use crate::source_log::SourceLog;
