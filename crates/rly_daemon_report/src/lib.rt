//! The periodic report of a serving station, as text. `PeerCounts` counts the packets of a peer's
//! link (`specs/Counts.antt`), `HopCounts` those of a hop's (`specs/HopCounts.antt`), and
//! `LinkReport::of` returns the counts of either (`specs/LinkCounts.antt`). `show_asks` and
//! `HopReport::at` query and format the hops (`specs/Hops.antt`), and `text_of` returns the text of
//! `specs/ReportText.antt` (`docs/reference/DEFINITIONS.md`, "Reports"); `text_of_answers` makes it from the
//! answers and counts (`specs/CountedReport.antt`). No I/O. Caller: `rly_daemon_reporter`.
#![tactic(auto)]

mod asks;
mod counted_report;
mod counting;
mod hop_counts;
mod link_counts;
mod peer_counts;
mod report;
mod report_text;

pub use crate::asks::show_asks;
pub use crate::counted_report::{Counted, text_of_answers};
pub use crate::hop_counts::HopCounts;
pub use crate::link_counts::{LinkCounts, LinkReport};
pub use crate::peer_counts::PeerCounts;
pub use crate::report::{DeviceReport, HopReport, PeerReport, Report};
pub use crate::report_text::text_of;
