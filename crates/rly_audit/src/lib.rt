//! The audit: a report on the content of a device, for its operator. `audit` opens a device,
//! writes the report on its state to any writer, and hands the device back unchanged
//! (`specs/Audit.antt`). The report is a function of the state alone (`specs/Report.antt`).
//! `audit_made` reads its header alone, and writes what it was made with (`specs/Made.antt`).
//! `live_items` counts the live datagrams of an open journal. Callers: `rly_daemon_commands` and
//! `rly_daemon_serve`.
#![tactic(auto)]

mod books;
mod device_audit;
mod fault;
mod live;
mod made;

pub use crate::device_audit::audit;
pub use crate::fault::AuditFault;
pub use crate::live::live_items;
pub use crate::made::audit_made;
