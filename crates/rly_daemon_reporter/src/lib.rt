//! The reporter: writes periodic reports on a serving station, for a person or a collector. For
//! each report it queries every hop through a seat of its own, reads the counters, and writes the
//! text. `reporter_run` takes any `Desk`, `ReportClock`, `Counters` and writer, and writes exactly
//! the text of their history (`specs/ReporterRun.antt`); `run_reported` runs a relay with a
//! reporter in parallel (`specs/ReporterAtSeat.antt`). Callers: `rly_daemon_serve` and
//! `rly_daemon`.
#![tactic(auto)]

mod beside;
mod counted_link;
mod counters;
mod report_clock;
mod reporter;
mod reporter_at_seat;
mod tallied_link;
mod tally;

pub use crate::counted_link::CountedLink;
pub use crate::counters::Counters;
pub use crate::report_clock::ReportClock;
pub use crate::reporter::{Reporter, ReporterEnd, reporter_run};
pub use crate::reporter_at_seat::{FinishedReporter, Reported, run_reported};
pub use crate::tallied_link::TalliedLink;
pub use crate::tally::Tally;
