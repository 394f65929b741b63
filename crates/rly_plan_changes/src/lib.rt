//! What changes from one plan to the next, and the ids that serve as names on a device. `changes_of`
//! returns the lines that `specs/PlanChanges.antt` defines, one for each difference
//! (`docs/COMMANDS.md`, "rly plan"). `other_station` finds the first id of two plans that names
//! another station. `ids_to_keep` makes of the kept ids of a device and of a plan those that are kept
//! next, or refuses a plan in which an id means another station (`specs/PlanIds.antt`;
//! `docs/FORMATS.md`, "The ids of a device"). The crate does no I/O. Caller: `rly_daemon_commands`.
#![tactic(auto)]

mod contact_changes;
mod field_changes;
mod kept_ids;
mod plan_changes;
mod plan_ids;
mod route_changes;

pub use crate::kept_ids::{IdsFault, ids_to_keep};
pub use crate::plan_changes::changes_of;
pub use crate::plan_ids::{OtherStation, PlanIds, other_station};
