//! The commands of `rly` that start no relay: `sim`, `format`, `play`, `audit`, `plan` and `key`.
//! `specs/Commands.antt`, `PlanCommand.antt` and `NewKey.antt` define the result of each that
//! succeeds, `specs/FormatCommand.antt` the check before a device is formatted, and
//! `specs/OptionFaults.antt` the first option out of its limits. `FileDisk` is a device in a file,
//! locked while open unless it is a copy. `open_served` opens that of a station: its file is looked
//! after, and the ids of the plan are kept beside it (`specs/IdsFile.antt`). The crate starts no
//! thread and opens no socket. Caller: `rly_daemon`.
#![tactic(auto)]

mod allocation;
mod command_fault;
mod commands;
mod file_disk;
mod format_check;
mod geometry;
mod ids_fault;
mod ids_file;
mod new_key;
mod option_fault;
mod plan_command;
mod watched_file;

pub use crate::command_fault::CommandFault;
pub use crate::commands::{
    open_journal, refusal_with_cause, run_audit, run_format, run_play, run_sim,
};
pub use crate::file_disk::FileDisk;
pub use crate::format_check::{UseFault, check_unused};
pub use crate::ids_fault::{IdsFileFault, IdsWord};
pub use crate::ids_file::open_served;
pub use crate::new_key::{NewKeyFault, write_key};
pub use crate::option_fault::{OptionFault, OptionName, format_fault, params_fault};
pub use crate::plan_command::run_plan;
