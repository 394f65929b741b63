//! The check before a device is formatted.

ghost use Rattle.std.specs.Prelude.{◌≡◌, IfErr, IfOk, MatchResult, false};
ghost use Rattle.rly_daemon_commands.specs.FormatCommand.{FindsNoneLive, HoldsLive, IsFree};
ghost use Rattle.rly_gate.specs.GroupReads.{OnlyRead};

use rly_audit::live_items;
use rly_core::Refusal;
use rly_disk::Disk;
use rly_journal::{Journal, OpenFault};
use std::alloc::Global;

/// The reason why a device may not be formatted.
#[derive(Clone, Copy, PartialEq, Eq)]
pub enum UseFault {
    /// It has this many live datagrams.
    Live(u64),
    /// A call of it failed, or memory was refused, so that this is unknown.
    Refused(Refusal),
}

/// Checks that a device has no live datagrams, and hands the disk back. A file that is no device, or a damaged one,
/// has none. The disk is only read.
pub fn check_unused<D: Disk>(alloc: Global, disk: D) -> Result<D, (UseFault, D)>
    ensures free { (D.state disk).honest → IfOk result (λ left. IsFree (D.state disk).seen) }
    ensures live { (D.state disk).honest → IfErr result (λ failed. HoldsLive (D.state disk).seen failed.0) }
    // It was opened as a journal, whole and without live datagrams, or was refused for its bytes.
    ensures looked { IfOk result (λ left. FindsNoneLive D.state disk left) }
    ensures only { MatchResult result (λ left. OnlyRead (D.state disk) (D.state left))
        (λ failed. OnlyRead (D.state disk) (D.state failed.1)) }
{
    match Journal::open(alloc, disk) {
        Ok(journal) => {
            let live = live_items(&journal);
            let disk = journal.into_disk();
            if live > 0 {
                return Err((UseFault::Live(live), disk));
            }
            Ok(disk)
        }
        Err((OpenFault::OutOfMemory, disk)) => {
            Err((UseFault::Refused(Refusal::OutOfMemory), disk))
        }
        Err((OpenFault::Device, disk)) => Err((UseFault::Refused(Refusal::Device), disk)),
        Err((OpenFault::NotADevice | OpenFault::BadGeometry | OpenFault::Damaged(_), disk)) => {
            Ok(disk)
        }
    }
}
