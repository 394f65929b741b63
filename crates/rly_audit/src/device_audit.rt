ghost use Rattle.std.specs.Prelude.{◌≡◌, ◌⊎◌, IfErr, IfOk, MatchResult, OnOk, false, true};
ghost use Rattle.std.specs.Io.KnownBytes.{Appends, Keeps};
ghost use Rattle.rly_core.specs.declared.refusal.Refusal.{Refusal as ARefusal};
ghost use Rattle.rly_disk.specs.DiskModel.{Settled};
ghost use Rattle.rly_disk.specs.Trace.{Makes};
ghost use Rattle.rly_gate.specs.GroupReads.{OnlyRead};
ghost use Rattle.rly_journal.specs.OpenCalls.{BreaksOpening, Scan as AScan, open_calls};
ghost use Rattle.rly_daemon_reply.specs.Beginnings.{BreaksOff};
ghost use Rattle.rly_audit.specs.Audit.{IsBegun, IsRefusal, IsReported, audit_calls_succeeded};
ghost use Rattle.rly_audit.specs.Report.{balances, books_of, report_of};

use crate::books::Books;
use crate::fault::AuditFault;
use rly_core::Refusal;
use rly_daemon_reply::write_whole;
use rly_disk::Disk;
use rly_journal::Journal;
use std::alloc::Global;
use std::io::Write;

/// Opens a device, and writes the report on its state (`docs/COMMANDS.md`, "rly audit"). Doesn't write to the
/// device, and hands it back. The report is complete in memory before its first byte is written, so a refusal of
/// memory leaves nothing written.
pub fn audit<D: Disk, W: Write>(
    alloc: Global,
    disk: D,
    writer: &mut W,
) -> Result<D, (AuditFault, D)>
    // The bytes written are the report on the state of the device.
    ensures written { OnOk result (IsReported (D.state disk) (W.contents writer.old) (W.contents writer.new)) }
    // If the writer fails, a prefix of that report was written, and never all.
    ensures begun { IfErr result
        (λ failed. failed.0 ≡ AuditFault.Output
        → IsBegun (D.state disk) (W.contents writer.old) (W.contents writer.new)) }
    // On a refusal nothing was written; it is that of the first check of opening that fails, or 14 or 23.
    ensures silent { IfErr result (λ failed. (refusal : ARefusal) → failed.0 ≡ AuditFault.Refused refusal
        → Keeps (W.contents writer.old) (W.contents writer.new)) }
    ensures refused { (D.state disk).honest
        → IfErr result (λ failed. (refusal : ARefusal) → failed.0 ≡ AuditFault.Refused refusal
        → IsRefusal (D.state disk).seen refusal) }
    // Only opening calls the device. 23 is returned iff such a call failed, which was then the last.
    ensures trace { MatchResult result (λ left. (x : AScan) × Makes D.state (open_calls x) true disk left)
        (λ failed. BreaksOpening D.state (audit_calls_succeeded failed.0) disk failed.1) }
    ensures only { MatchResult result (λ left. OnlyRead (D.state disk) (D.state left))
        (λ failed. OnlyRead (D.state disk) (D.state failed.1)) }
    ensures settled { (D.state disk).honest → IfOk result (λ left. Settled (D.state left)) }
{
    let journal = match Journal::open(alloc, disk) {
        Ok(journal) => journal,
        Err((fault, disk)) => return Err((AuditFault::from(fault), disk)),
    };
    let outcome = report(alloc, &journal, writer);
    let disk = journal.into_disk();
    match outcome {
        Ok(()) => Ok(disk),
        Err(fault) => Err((fault, disk)),
    }
}

/// Writes the report on the state of a journal that was just opened.
#[tactic(auto, using(crate::proofs::Balance::balance_of))]
fn report<D: Disk, W: Write>(
    alloc: Global,
    journal: &Journal<D>,
    writer: &mut W,
) -> Result<(), AuditFault>
    requires whole { journal.now.broken ≡ false }
    requires counted { journal.now.position ≡ journal.now.state.seq }
    ensures written { OnOk result
        (Appends (W.contents writer.old) (W.contents writer.new) (report_of journal.now.state)) }
    ensures balance { balances (books_of journal.now.state) ≡ true }
    ensures fault { IfErr result (λ fault. ((fault ≡ AuditFault.Output)
        × BreaksOff (W.contents writer.old) (W.contents writer.new) (report_of journal.now.state))
        ⊎ ((fault ≡ AuditFault.Refused Refusal.OutOfMemory) × Keeps (W.contents writer.old) (W.contents writer.new))) }
{
    journal.law_sound();
    let books = Books::of(alloc, journal)?;
    let mut text = String::new(alloc);
    books.write(&mut text)?;
    match write_whole(writer, text.as_bytes()) {
        Ok(()) => Ok(()),
        Err(_) => Err(AuditFault::Output),
    }
}
