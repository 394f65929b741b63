//! The text of `rly plan`: a contact plan with the state of its links at a moment. `text_of`
//! returns the text that `specs/PlanText.antt` defines (`docs/COMMANDS.md`, "rly plan"). Moments
//! are written as dates of the Gregorian calendar in UTC (`specs/Utc.antt`), computed by `jiff`.
//! `codel_text_of` says what CoDel of a device does at the plan's hops (`specs/CodelText.antt`).
//! `warnings_of` returns the warnings that `specs/PlanWarnings.antt` defines: mistakes with which a
//! text is a plan none the less. `plan_advice_of` says of a text that is no plan what is wrong and
//! what to write (`specs/PlanAdvice.antt`). The crate does no I/O. Callers: `rly_daemon_commands`,
//! `rly_daemon`.
#![tactic(auto)]

mod address_form;
mod codel;
mod plan_advice;
mod plan_text;
mod plan_warning;
mod plan_warnings;
mod utc;

pub use crate::codel::{backlog_of, codel_text_of, room_text_of};
pub use crate::plan_advice::plan_advice_of;
pub use crate::plan_text::text_of;
pub use crate::plan_warning::{Mistake, PlanWarning};
pub use crate::plan_warnings::{lines_of, warnings_of};
pub use crate::utc::Utc;
