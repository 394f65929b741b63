//! The commands that make, play and audit a device in a file, and `sim`, which needs none.

ghost use Rattle.std.specs.Prelude.{◌≡◌, ◌↔◌, ◌≤◌, Err, IfErr, IfOk, IfSome, IsErr, OnOk, false, not};
ghost use Rattle.std.specs.Io.KnownBytes.{Appends, Keeps};
ghost use Rattle.rly_core.specs.Limits.{IsWithinLimits};
ghost use Rattle.rly_core.specs.declared.refusal.Refusal.{Refusal as ARefusal};
ghost use Rattle.rly_audit.specs.Audit.{IsReported};
ghost use Rattle.rly_audit.specs.Made.{IsMadeTold};
ghost use Rattle.rly_machine.specs.State.{new_state};
ghost use Rattle.rly_journal.specs.Faults.{opening_refusal};
ghost use Rattle.rly_journal.specs.declared.open_fault.OpenFault.{OpenFault};
ghost use Rattle.rly_segment.specs.Device.{IsLayout, device_length};
ghost use Rattle.rly_daemon_commands.specs.Commands.{HasAudited, HasFormatted, HasPlayed, size_line};
ghost use Rattle.rly_daemon_commands.specs.FileDisk.{file_state, first_fault, is_locked};
ghost use Rattle.rly_daemon_commands.specs.FormatCommand.{FindsNoneLive, HasMade, wanted_geometry};
ghost use Rattle.rly_station.specs.Faults.{device_cause};
ghost use Rattle.rly_station.specs.declared.file_fault.Cause.{Cause as ACause};
ghost use Rattle.rly_daemon_lines.specs.Text.{text_for};

use crate::command_fault::CommandFault;
use crate::file_disk::FileDisk;
use crate::format_check::{UseFault, check_unused};
use crate::geometry::{device_size, geometry_of};
use crate::ids_file::forget_ids;
use rly_audit::{AuditFault, audit, audit_made};
use rly_core::{Geometry, Params, Refusal};
use rly_daemon_lines::{TextFault, play, sim};
use rly_journal::Journal;
use rly_segment::{FormatFault, format};
use rly_station::{Cause, FileFault};
use std::alloc::Global;
use std::fs::{File, Files};
use std::io::{Read, Write};

/// Maximum number of lines per round.
const MAX_BATCH: u64 = 64;

/// Runs `sim`. Values out of their limits are refused before any read.
pub fn run_sim<R: Read, W: Write>(
    alloc: Global,
    params: Params,
    reader: &mut R,
    writer: &mut W,
) -> Result<(), CommandFault>
    ensures limits { OnOk result (IsWithinLimits params) }
    ensures written { OnOk result (IfSome (R.remaining reader.old) (λ input.
        Appends (W.contents writer.old) (W.contents writer.new) (text_for (new_state params) input))) }
    ensures refused { ¬ IsWithinLimits params → (result ≡ Err (CommandFault.Refused Refusal.BadGeometry Cause.Options))
        × (reader.new ≡ reader.old) × (writer.new ≡ writer.old) }
{
    if let Err(refusal) = params.check() {
        return Err(CommandFault::Refused(refusal, Cause::Options));
    }
    sim(alloc, params, reader, writer)?;
    Ok(())
}

/// Makes a new device in a file, and prints its size in bytes. Values out of their limits are refused before any
/// file is touched. Without `force` a device with live datagrams is left unchanged. With `allocate` the device's room on its
/// disk is taken first.
pub fn run_format<H: AllocGlobal + Files<File = File>, W: Write>(
    rt: &H,
    file: &str,
    params: Params,
    segments: u64,
    length: Option<u64>,
    force: bool,
    allocate: bool,
    writer: &mut W,
) -> Result<(), CommandFault>
    ensures formatted { OnOk result
        (HasFormatted (wanted_geometry params segments length) force (W.contents writer.old) (W.contents writer.new)) }
    ensures refused { ¬ IsLayout (wanted_geometry params segments length)
        (device_length (wanted_geometry params segments length))
        → (result ≡ Err (CommandFault.Refused Refusal.BadGeometry Cause.Options)) × (writer.new ≡ writer.old) }
{
    let geometry = requested_geometry(params, segments, length)?;
    let size = format_file(rt, file, &geometry, force, allocate)?;
    forget_ids(rt, file);
    print_size(size, writer)?;
    Ok(())
}

/// The requested geometry. Values out of their limits are refused before any file is touched.
fn requested_geometry(
    params: Params,
    segments: u64,
    length: Option<u64>,
) -> Result<Geometry, CommandFault>
    ensures geometry { IfOk result
        (λ geometry. (geometry ≡ wanted_geometry params segments length) × IsLayout geometry (device_length geometry)) }
    ensures refused { IfErr result (λ fault. fault ≡ CommandFault.Refused Refusal.BadGeometry Cause.Options) }
    ensures limits { IsErr result
        ↔ ¬ IsLayout (wanted_geometry params segments length) (device_length (wanted_geometry params segments length)) }
{
    match geometry_of(params, segments, length) {
        Ok(geometry) => Ok(geometry),
        Err(refusal) => Err(CommandFault::Refused(refusal, Cause::Options)),
    }
}

/// Makes a new device in a file, and returns its size in bytes.
fn format_file<H: AllocGlobal + Files<File = File>>(
    rt: &H,
    file: &str,
    geometry: &Geometry,
    force: bool,
    allocate: bool,
) -> Result<u64, CommandFault>
    requires { IsLayout geometry.now (device_length geometry.now) }
    ensures size { IfOk result (λ size. size ≡ device_length geometry.now) }
    ensures made { OnOk result (HasMade geometry.now force) }
{
    let size = device_size(geometry);
    let disk = FileDisk::make(rt, file)?;
    let mut disk = free_disk(rt.alloc(), disk, force)?;
    make_room(rt.alloc(), file, &mut disk, size, allocate)?;
    match format(rt.alloc(), &mut disk, geometry) {
        Ok(()) => Ok(size),
        Err(FormatFault::OutOfMemory) => Err(refusal_with_cause(Refusal::OutOfMemory, &disk)),
        Err(FormatFault::BadGeometry) => Err(refusal_with_cause(Refusal::BadGeometry, &disk)),
        Err(FormatFault::Device) => Err(refusal_with_cause(Refusal::Device, &disk)),
    }
}

/// Extends the file of a device to its size, if it is shorter, and takes its room on the disk with `allocate`.
fn make_room(
    alloc: Global,
    file: &str,
    disk: &mut FileDisk,
    size: u64,
    allocate: bool,
) -> Result<(), FileFault>
    ensures size { OnOk result (size ≤ (file_state disk.new).size) }
    ensures same { disk.new ≡ record disk.old { size = disk.new.size } }
{
    disk.extend(size)?;
    if allocate {
        disk.take_room(alloc, file, size)?;
    }
    Ok(())
}

/// A disk without live datagrams, or any if `force` is set.
fn free_disk(alloc: Global, disk: FileDisk, force: bool) -> Result<FileDisk, CommandFault>
    ensures looked { IfOk result (λ left. force ≡ false → FindsNoneLive file_state disk left) }
{
    if force {
        return Ok(disk);
    }
    match check_unused(alloc, disk) {
        Ok(disk) => Ok(disk),
        Err((UseFault::Live(count), _disk)) => Err(CommandFault::Live(count)),
        Err((UseFault::Refused(refusal), disk)) => Err(refusal_with_cause(refusal, &disk)),
    }
}

/// Prints the size of a new device in bytes.
fn print_size<W: Write>(size: u64, writer: &mut W) -> Result<(), TextFault>
    ensures { OnOk result (Appends (W.contents writer.old) (W.contents writer.new) (size_line size)) }
{
    writeln!(writer, "formatted {size}").map_err(|_| TextFault::Output)?;
    writer.flush().map_err(|_| TextFault::Output)
}

/// Runs `play` on the device in a file, `batch` lines per round. If the journal breaks, the remaining lines are
/// answered, and then an error is returned.
pub fn run_play<H: AllocGlobal + Files<File = File>, R: Read, W: Write>(
    rt: &H,
    file: &str,
    batch: u64,
    reader: &mut R,
    writer: &mut W,
) -> Result<(), CommandFault>
    ensures played { OnOk result
        (HasPlayed batch (R.remaining reader.old) (W.contents writer.old) (W.contents writer.new)) }
{
    let disk = FileDisk::open(rt, file)?;
    let mut journal = open_journal(rt.alloc(), disk)?;
    // The command line refuses any other number.
    let batch = batch.clamp(1, MAX_BATCH);
    play(rt.alloc(), reader, writer, &mut journal, batch)?;
    if journal.is_broken() {
        return Err(refusal_with_cause(Refusal::Broken, &journal.into_disk()));
    }
    Ok(())
}

/// Writes the report on the device in a file, which is only read; with `made` the line of what it was made with, and
/// nothing else. The file of a copy isn't locked.
pub fn run_audit<H: AllocGlobal + Files<File = File>, W: Write>(
    rt: &H,
    file: &str,
    made: bool,
    copy: bool,
    writer: &mut W,
) -> Result<(), CommandFault>
    ensures reported { OnOk result (HasAudited made copy (W.contents writer.old) (W.contents writer.new)) }
    ensures silent { IfErr result (λ fault. (refusal : ARefusal) (cause : ACause)
        → fault ≡ CommandFault.Refused refusal cause → Keeps (W.contents writer.old) (W.contents writer.new)) }
{
    let disk = audited_disk(rt, file, copy)?;
    if made {
        tell_made(rt.alloc(), disk, writer)
    } else {
        report_disk(rt.alloc(), disk, writer)
    }
}

/// Opens the device in a file, or a copy of one.
fn audited_disk<H: Files<File = File>>(
    files: &H,
    file: &str,
    copy: bool,
) -> Result<FileDisk, FileFault>
    ensures lock { IfOk result (λ disk. is_locked disk ≡ not copy) }
{
    if copy {
        FileDisk::open_copy(files, file)
    } else {
        FileDisk::open(files, file)
    }
}

/// Writes the line of what a device was made with.
fn tell_made<W: Write>(alloc: Global, disk: FileDisk, writer: &mut W) -> Result<(), CommandFault>
    ensures told { OnOk result (IsMadeTold (file_state disk) (W.contents writer.old) (W.contents writer.new)) }
    ensures silent { IfErr result (λ fault. (refusal : ARefusal) (cause : ACause)
        → fault ≡ CommandFault.Refused refusal cause → Keeps (W.contents writer.old) (W.contents writer.new)) }
{
    let mut disk = disk;
    match audit_made(alloc, &mut disk, writer) {
        Ok(()) => {
            writer.flush().map_err(|_| TextFault::Output)?;
            Ok(())
        }
        Err(AuditFault::Refused(refusal)) => Err(refusal_with_cause(refusal, &disk)),
        Err(AuditFault::Output) => Err(CommandFault::Text(TextFault::Output)),
    }
}

/// Writes the report on a device.
fn report_disk<W: Write>(alloc: Global, disk: FileDisk, writer: &mut W) -> Result<(), CommandFault>
    ensures reported { OnOk result (IsReported (file_state disk) (W.contents writer.old) (W.contents writer.new)) }
    ensures silent { IfErr result (λ fault. (refusal : ARefusal) (cause : ACause)
        → fault ≡ CommandFault.Refused refusal cause → Keeps (W.contents writer.old) (W.contents writer.new)) }
{
    match audit(alloc, disk, writer) {
        Ok(_disk) => {
            writer.flush().map_err(|_| TextFault::Output)?;
            Ok(())
        }
        Err((AuditFault::Refused(refusal), disk)) => Err(refusal_with_cause(refusal, &disk)),
        Err((AuditFault::Output, _disk)) => Err(CommandFault::Text(TextFault::Output)),
    }
}

/// Opens the journal on a device.
pub fn open_journal(alloc: Global, disk: FileDisk) -> Result<Journal<FileDisk>, CommandFault>
    ensures whole { IfOk result (λ journal. journal.broken ≡ false) }
    ensures refusal { IfErr result
        (λ told. (fault : OpenFault) × (cause : ACause) × (told ≡ CommandFault.Refused (opening_refusal fault) cause)) }
{
    match Journal::open(alloc, disk) {
        Ok(journal) => Ok(journal),
        Err((fault, disk)) => Err(refusal_with_cause(Refusal::from(fault), &disk)),
    }
}

/// A refusal of a device, with the system's error of the first failed call.
pub fn refusal_with_cause(refusal: Refusal, disk: &FileDisk) -> CommandFault
    ensures { result ≡ CommandFault.Refused refusal (device_cause refusal (first_fault disk.now)) }
{
    CommandFault::Refused(refusal, Cause::of_device(refusal, disk.fault()))
}
