//! `rly network`: what the plans of a network disagree on (`specs/NetworkCheck.antt`;
//! `docs/NETWORK.md`), the files of a network file's stations (`specs/NetworkWrite.antt`), and its
//! picture. `check_network`, `write_network` and `draw_network` are over any shelf of files, and
//! their contracts name its calls; the commands open the system's files, without a lock, and start
//! no thread and no socket. Caller: `rly_daemon`.
#![tactic(auto)]

mod network_check;
mod network_command_fault;
mod network_file;
mod network_write;
mod plan_reads;
mod station_wishes;

pub use crate::network_check::{check_network, run_network_check};
pub use crate::network_command_fault::NetworkCommandFault;
pub use crate::network_write::{draw_network, run_network_draw, run_network_write, write_network};
pub use crate::plan_reads::plan_and_device;
