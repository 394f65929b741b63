//! A station's files, keys, faults and warnings; no socket, clock or thread.
//!
//! `read_plan` and `read_keys` read the plan, the keys of its links and the paths of its folders
//! (`specs/Keys.antt`).
//! `ServeFault` and `FileFault` say why a station can't serve (`specs/Faults.antt`). `FailedCalls`
//! counts failed sends and reads and logs the first of each kind and every thousandth
//! (`specs/Warnings.antt`), and `OpeningLine` is the line of a link that is opened while the station
//! serves (`specs/Openings.antt`); `buffer_warning` decides which receive buffer is too small
//! (`specs/ReceiveBuffers.antt`). Callers: `rly_link_udp`, `rly_posts`, `rly_daemon_commands`,
//! `rly_daemon_serve` and `rly_daemon`.
#![tactic(auto)]

mod address_fault;
mod error_lines;
mod error_output;
mod failed_calls;
mod file_fault;
mod folder_fault;
mod folder_stop;
mod key_fault;
mod kind_count;
mod line_form;
mod line_write;
mod link_cause;
mod logger;
mod moment;
mod opening;
mod plan_file;
mod plan_keys;
mod receive_buffer;
mod serve_fault;
mod spool_warning;
mod warning;
mod worker_name;
mod workers;

pub use crate::address_fault::{AddressFault, End, EndFault};
pub use crate::error_lines::ErrorLines;
pub use crate::error_output::ErrorOutput;
pub use crate::failed_calls::FailedCalls;
pub use crate::file_fault::{Cause, FileFault, FilePart, SystemWord};
pub use crate::folder_fault::{FolderFault, FolderPart, FolderWord};
pub use crate::folder_stop::FolderStop;
pub use crate::key_fault::{KeyFault, KeyWord};
pub use crate::kind_count::KindCount;
pub use crate::line_form::LineForm;
pub use crate::link_cause::{CountedCause, LinkCause};
pub use crate::logger::Logger;
pub use crate::moment::moment_of;
pub use crate::opening::{Opening, OpeningLine};
pub use crate::plan_file::read_plan;
pub use crate::plan_keys::{KeyedWorker, NamedKey, PlanKeys, key_in, read_keys};
pub use crate::receive_buffer::{buffer_warning, wanted_buffer};
pub use crate::serve_fault::ServeFault;
pub use crate::spool_warning::{Discard, Load, Origin, SpoolWarning};
pub use crate::warning::{ClockStep, SystemCall, Warning};
pub use crate::worker_name::WorkerName;
pub use crate::workers::neighbour_of;
