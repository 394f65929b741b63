//! Runs the relay of a station on a journal until its workers have ended. `serve` logs the startup
//! lines, starts the workers, each with its link and its clock, and returns their results, also if
//! the journal broke (`specs/ServedRelay.antt`); an error means that nothing was started.
//! `serve_reporting` also runs a reporter (`specs/ReportedRelay.antt`), and `serve_with_events` a
//! thread that writes the events of the hops. Caller: `rly_daemon`, whose disk is a file.
#![tactic(auto)]

mod relay_with_events;
mod reported_relay;
mod served_relay;
mod wall_report_clock;

pub use crate::relay_with_events::{Events, serve_with_events};
pub use crate::reported_relay::{Reports, UdpReported, serve_reporting};
pub use crate::served_relay::{RelaySettings, Served, UdpRelayed, serve};
pub use crate::wall_report_clock::WallReportClock;
