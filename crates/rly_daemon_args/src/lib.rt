//! The command line of `rly`, as typed settings. `settings` returns the command, files and numbers
//! that `clap` matched in the words, or the defaults (`specs/CommandLine.antt`,
//! `docs/COMMANDS.md`), or a `SettingsFault`, which separates a request for help or the version
//! from a bad command line. Limits of a spool are checked by whoever uses the numbers. Caller:
//! `rly_daemon`.
#![tactic(auto)]

mod arguments;
mod command_line;
mod commands;
mod given;

pub use crate::command_line::settings;
pub use crate::given::{Settings, SettingsFault};
