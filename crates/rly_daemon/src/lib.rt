//! The program `rly` as a library. `run` takes a command line and streams, executes the command
//! and returns the exit status; `specs/Program.antt` defines the result of each command that
//! succeeds, and `complaint_of` makes the lines of one that fails. It dispatches to
//! `rly_daemon_commands`, `rly_daemon_lines`, `rly_daemon_args`, `rly_daemon_folder`,
//! `rly_network_command`, `rly_station` and `rly_daemon_serve`. Caller: only the program `rly`.
#![tactic(auto)]

mod complaint;
mod counted_disk;
mod file_look;
mod folder_commands;
mod gate_tally;
mod network_commands;
mod program;
mod program_fault;
mod serve_command;

pub use crate::counted_disk::CountedDisk;
pub use crate::program::{Host, run};
pub use rly_daemon_args::{Settings, SettingsFault, settings};
pub use rly_daemon_commands::{FileDisk, NewKeyFault, UseFault, check_unused, write_key};
pub use rly_daemon_folder::{
    FolderCommandFault, Form, GetSettings, InputForm, PutSettings, run_get, run_put,
};
pub use rly_daemon_lines::{TextFault, play, sim};
pub use rly_daemon_serve::{
    Events, RelaySettings, Reports, Served, UdpRelayed, UdpReported, WallReportClock, serve,
    serve_reporting, serve_with_events,
};
pub use rly_link_udp::{UdpLink, WallClock};
pub use rly_posts::NeighbourLink;
pub use rly_station::{
    AddressFault, Cause, End, EndFault, ErrorOutput, FileFault, FilePart, FolderFault, FolderWord,
    KeyFault, KeyWord, KeyedWorker, LineForm, NamedKey, PlanKeys, ServeFault, SystemWord, key_in,
    read_keys, read_plan,
};
