//! The journal of an end of a link, on a device in memory.

ghost use Rattle.std.specs.Prelude.{◌≡◌, OnErr, IfOk, List, ℕ};
ghost use Rattle.rly_disk.specs.FaultDisk.{fault_state};
ghost use Rattle.rly_disk.specs.MemDisk.{mem_state};
ghost use Rattle.rly_world_pair.specs.HelpersStation.{IsCalled, IsDurableSpool, IsNewSpool, IsReopened, IsSpoolCalled};
ghost use Rattle.rly_world_pair.specs.HelpersStation.{disk_of};

use rly_core::{Geometry, Refusal};
use rly_disk::{After, Disk, FaultDisk, MemDisk, Torn};
use rly_journal::{Journal, law_formatted_stands, law_stands_for_one};
use rly_machine::{Ask, Call, Reply, SeatId};
use rly_segment::{FormatFault, format};
use std::alloc::{AllocError, Global};

/// The journal of an end, or its device if the opening failed.
#[derive(Drop)]
pub(crate) enum Spool {
    Open(Journal<FaultDisk<MemDisk>>),
    Shut(FaultDisk<MemDisk>),
}

/// The call of a reopened device that fails, and how: `FaultDisk::new` defines each number.
#[derive(Clone, Copy, PartialEq, Eq)]
pub struct Fault {
    /// The number of the failing call, counted from the opening's first, which is 1; with 0 none fails.
    pub at: u64,
    /// The number of bytes that a failing write writes.
    pub torn: u64,
    /// The behaviour after it.
    pub after: After,
}

/// Makes the journal of an end on a new device. The errors are those of `format` and `Journal::open`.
pub(crate) fn make_spool(alloc: Global, geometry: &Geometry) -> Result<Spool, Refusal>
    ensures { IfOk result (λ spool. IsNewSpool geometry.now.params spool) }
{
    let size = device_length(geometry).ok_or(Refusal::BadGeometry)?;
    let Ok(bytes) = Vec::from_elem(alloc, 0, size) else {
        return Err(Refusal::OutOfMemory);
    };
    let mut disk = FaultDisk::new(MemDisk::new(alloc, bytes), 0, 0, After::GoesOn);
    match format(alloc, &mut disk, geometry) {
        Ok(()) => {}
        Err(FormatFault::OutOfMemory) => return Err(Refusal::OutOfMemory),
        Err(FormatFault::BadGeometry) => return Err(Refusal::BadGeometry),
        Err(FormatFault::Device) => return Err(Refusal::Device),
    }
    law_formatted_stands();
    law_stands_for_one();
    match Journal::open(alloc, disk) {
        Ok(journal) => Ok(Spool::Open(journal)),
        Err((fault, _)) => Err(fault.into()),
    }
}

/// Returns the size in bytes of a device of this geometry, if it fits 64 bits.
fn device_length(geometry: &Geometry) -> Option<usize> {
    let bytes = geometry.segments.checked_mul(geometry.length)?;
    Some(bytes.checked_add(64)? as usize)
}

/// Returns the device of an end.
pub(crate) fn disk_of(spool: Spool) -> FaultDisk<MemDisk>
    ensures disk { result ≡ disk_of spool }
    ensures durable { IsDurableSpool spool }
{
    match spool {
        Spool::Open(journal) => {
            journal.law_durable();
            journal.into_disk()
        }
        Spool::Shut(disk) => disk,
    }
}

/// Opens a device after a crash that left this image of the pending writes. It then fails according to `fault`.
pub(crate) fn reopen(alloc: Global, disk: FaultDisk<MemDisk>, torn: Torn, fault: Fault) -> Spool
    ensures { (image : List ℕ) × (fault_state mem_state disk).images image × IsReopened image result }
{
    let left = disk.into_inner().crash(torn);
    let disk = FaultDisk::new(left, fault.at, fault.torn, fault.after);
    match Journal::open(alloc, disk) {
        Ok(journal) => Spool::Open(journal),
        Err((_, disk)) => Spool::Shut(disk),
    }
}

/// Makes one call of an end's journal. A journal that isn't open is broken.
pub(crate) fn call_spool(
    alloc: Global,
    spool: &mut Option<Spool>,
    ask: Ask,
) -> Result<Reply, AllocError>
    ensures err { OnErr result (spool.new ≡ spool.old) }
    ensures called { IfOk result (λ reply. IsSpoolCalled spool.old spool.new ask reply) }
{
    match spool {
        Some(Spool::Open(journal)) => call_journal(alloc, journal, ask),
        Some(Spool::Shut(_)) | None => Ok(Reply::Refused(Refusal::Broken)),
    }
}

/// Makes one call, in a round of its own.
fn call_journal<D: Disk>(
    alloc: Global,
    journal: &mut Journal<D>,
    ask: Ask,
) -> Result<Reply, AllocError>
    ensures err { OnErr result (journal.new ≡ journal.old) }
    ensures called { (D.state journal.old.disk).honest
        → IfOk result (λ reply. IsCalled D.state journal.old journal.new ask reply) }
{
    let mut calls = Vec::with_capacity(alloc, 1)?;
    let mut answers = Vec::with_capacity(alloc, 1)?;
    calls.push_reserved(Call {
        seat: SeatId(0),
        number: 0,
        ask,
    });
    journal.round(alloc, &mut calls, &mut answers)?;
    Ok(answers.remove(0).reply)
}
