ghost use Rattle.std.specs.Prelude.{◌≡◌, ◌++◌, IfErr, IfOk, OnOk, string_bytes, true};
ghost use Rattle.std.specs.Io.KnownBytes.{Keeps};
ghost use Rattle.rly_core.specs.declared.refusal.Refusal.{Refusal as ARefusal};
ghost use Rattle.rly_disk.specs.Trace.{Makes};
ghost use Rattle.rly_segment.specs.Calls.{header_reads};
ghost use Rattle.rly_audit.specs.Made.{IsMadeBegun, IsMadeRefusal, IsMadeTold, codel_text, header_refusal, layout_text};
ghost use Rattle.rly_audit.specs.Made.{made_line, sizes_text};

use crate::fault::AuditFault;
use rly_core::{Geometry, Refusal};
use rly_daemon_reply::write_whole;
use rly_disk::Disk;
use rly_segment::{HeaderFault, read_header};
use std::alloc::{AllocError, Global};
use std::io::Write;

/// Writes the line of what a device was made with (`docs/COMMANDS.md`, "rly audit"), and nothing else. Only the
/// header is read, so a device whose segments are damaged has the line too.
pub fn audit_made<D: Disk, W: Write>(
    alloc: Global,
    disk: &mut D,
    writer: &mut W,
) -> Result<(), AuditFault>
    // The bytes written are the line of the geometry in the header.
    ensures written { OnOk result (IsMadeTold (D.state disk.old) (W.contents writer.old) (W.contents writer.new)) }
    // If the writer fails, a proper prefix of that line was written.
    ensures begun { IfErr result (λ fault. fault ≡ AuditFault.Output
        → IsMadeBegun (D.state disk.old) (W.contents writer.old) (W.contents writer.new)) }
    // On a refusal nothing was written; of an honest disk it is that of the header's fault, or 14.
    ensures silent { IfErr result (λ fault. (refusal : ARefusal) → fault ≡ AuditFault.Refused refusal
        → Keeps (W.contents writer.old) (W.contents writer.new)) }
    ensures refused { (D.state disk.old).honest
        → IfErr result (λ fault. (refusal : ARefusal) → fault ≡ AuditFault.Refused refusal
        → IsMadeRefusal (D.state disk.old).seen refusal) }
    // The device is asked for its header alone.
    ensures trace { OnOk result (Makes D.state (header_reads (D.state disk.old).size) true disk.old disk.new) }
{
    let geometry = match read_header(disk) {
        Ok(geometry) => geometry,
        Err(fault) => return Err(AuditFault::Refused(header_refusal(fault))),
    };
    let text = made_text(alloc, &geometry)?;
    match write_whole(writer, text.as_bytes()) {
        Ok(()) => Ok(()),
        Err(_) => Err(AuditFault::Output),
    }
}

/// The refusal of a device for the fault of its header.
fn header_refusal(fault: HeaderFault) -> Refusal
    ensures { result ≡ header_refusal fault }
{
    match fault {
        HeaderFault::NotADevice => Refusal::NotADevice,
        HeaderFault::BadGeometry => Refusal::BadGeometry,
        HeaderFault::Device => Refusal::Device,
    }
}

/// The line of what a device was made with.
fn made_text(alloc: Global, geometry: &Geometry) -> Result<String, AllocError>
    ensures { IfOk result (λ text. string_bytes text ≡ made_line geometry.now) }
{
    let mut text = String::new(alloc);
    write_sizes(&mut text, geometry)?;
    write_codel(&mut text, geometry)?;
    write_layout(&mut text, geometry)?;
    Ok(text)
}

/// Appends the sizes of the spool.
fn write_sizes(text: &mut String, geometry: &Geometry) -> Result<(), AllocError>
    ensures { OnOk result (string_bytes text.new ≡ string_bytes text.old ++ sizes_text geometry.now.params) }
{
    let params = &geometry.params;
    let (hops, peers, window) = (params.hops, params.peers, params.window);
    let (items, bytes) = (params.items, params.bytes);
    write!(
        text,
        "made hops {hops} peers {peers} window {window} items {items} bytes {bytes}"
    )
}

/// Appends the parameters of CoDel, and the longest payload.
fn write_codel(text: &mut String, geometry: &Geometry) -> Result<(), AllocError>
    ensures { OnOk result (string_bytes text.new ≡ string_bytes text.old ++ codel_text geometry.now.params) }
{
    let params = &geometry.params;
    let (maxpacket, target) = (params.maxpacket, params.target);
    let (interval, payload) = (params.interval, params.payload);
    write!(
        text,
        " maxpacket {maxpacket} target {target} interval {interval} payload {payload}"
    )
}

/// Appends the segments of the device.
fn write_layout(text: &mut String, geometry: &Geometry) -> Result<(), AllocError>
    ensures { OnOk result (string_bytes text.new ≡ string_bytes text.old ++ layout_text geometry.now) }
{
    let (segments, length) = (geometry.segments, geometry.length);
    writeln!(text, " segments {segments} length {length}")
}
