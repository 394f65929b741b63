//! Lines of output: the line of a reply, the counts of a hop that `show`, an audit and a report
//! share, and one read or write of a stream.
//!
//! `specs/Replies.antt` has the lines, `specs/Counts.antt` the counts. `read_some` and
//! `write_whole` say how much of a stream is left after a failure (`specs/Beginnings.antt`).
//! Callers: `rly_audit`, `rly_daemon_lines`, `rly_daemon_report` and `rly_daemon_reporter`.
#![tactic(auto)]

mod fault;
mod hop_counts;
mod reply_line;
mod status_line;
mod streams;

pub use crate::fault::StreamFault;
pub use crate::hop_counts::{Expired, HopCounts};
pub use crate::reply_line::{ReplyLine, Subject};
pub use crate::status_line::StatusLine;
pub use crate::streams::{read_some, write_whole};
