//! The events of a station's hops, for a script that switches a modem: a line before a hop opens,
//! when it opens, when its sender rests or no longer does, and when it closes
//! (`docs/COMMANDS.md`, "Events"). `next_event` is the line that follows the last one
//! (`specs/HopEvents.antt`; `laws` says what a reader may rely on), `HopLines` writes the lines of
//! all hops, and `Rests` tells of senders that rest and ends the wait for that. Callers:
//! `rly_daemon_reporter`, whose links fill `Rests`, and `rly_daemon_serve`.
#![tactic(auto)]

mod hop_event;
mod hop_lines;
mod hop_look;
mod laws;
mod rests;
mod shared_output;

pub use crate::hop_event::{HopEvent, HopLine, next_event, next_wait};
pub use crate::hop_lines::HopLines;
pub use crate::hop_look::HopLook;
pub use crate::laws::{
    law_line_is_true, law_lines_follow_each_other, law_no_line_before_the_wait,
    law_no_line_is_missing, law_open_and_closed_alternate, law_two_lines_at_most,
};
pub use crate::rests::{Rests, rest_at};
pub use crate::shared_output::{OutputShare, SharedOutput};
