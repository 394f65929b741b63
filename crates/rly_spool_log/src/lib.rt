//! The log of a spool: which datagrams CoDel drops and which expire, and how full the spool is. No
//! thread or file.
//!
//! `SpoolLog` sees the calls and the answers of each round. It logs the first discard of a hop and
//! each thousandth, with the datagram's origin (`specs/SpoolLog.antt`), the spool at 90 % and again
//! under 80 %, and a hop whose datagrams are more than half of it. `SpoolWatch` shows it the rounds of
//! a flusher, at the moments of a clock. Caller: `rly_daemon_serve`.
#![tactic(auto)]

mod asked;
mod hop_log;
mod spool_log;
mod spool_watch;
mod takes;

pub use crate::hop_log::HopLog;
pub use crate::spool_log::SpoolLog;
pub use crate::spool_watch::SpoolWatch;
