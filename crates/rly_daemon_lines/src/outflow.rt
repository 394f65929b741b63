ghost use Rattle.std.specs.Prelude.{◌≡◌, [], Err, IfErr, IfOk, IsOk, OnErr, OnOk, string_bytes, string_capacity};
ghost use Rattle.std.specs.Io.KnownBytes.{Appends};
ghost use Rattle.rly_daemon_reply.specs.Beginnings.{AppendsBeginning};
ghost use Rattle.rly_daemon_lines.specs.HelpersOutflow.{Adds, AddsBeginning, HasRoomForPayload, outflow_of};

use crate::line_reader::LineReader;
use crate::text_fault::TextFault;
use rly_core::limits;
use rly_daemon_reply::write_whole;
use std::alloc::{AllocError, Global};
use std::io::Write;

/// The length in bytes at which reply text is written, even if no line waits for the reader.
const WRITE_THRESHOLD: usize = 65_536;

/// The longest reply line with a payload, in bytes with its newline: two digits per byte of the longest payload of any
/// spool, and a word, spaces and numbers.
const PAYLOAD_LINE: usize = 2 * limits::MAX_PAYLOAD as usize + 70;

/// The reserved capacity of the reply text: the threshold, and a reply line with a payload. A reply that lists many
/// datagrams may take more.
const TEXT_CAPACITY: usize = WRITE_THRESHOLD + PAYLOAD_LINE;

/// Empty reply text, with its usual capacity.
pub(crate) fn new_text(alloc: Global) -> Result<String, AllocError>
    ensures empty { IfOk result (λ text. string_bytes text ≡ []) }
    ensures room { IfOk result (λ text. HasRoomForPayload (string_capacity text)) }
{
    String::with_capacity(alloc, TEXT_CAPACITY)
}

/// Writes and flushes the pending replies, if the next line waits for the reader.
pub(crate) fn hand_on<W: Write>(
    lines: &LineReader,
    text: &mut String,
    writer: &mut W,
) -> Result<(), TextFault>
    ensures same { OnOk result
        (Adds (outflow_of (W.contents writer.old) (string_bytes text.old))
        (outflow_of (W.contents writer.new) (string_bytes text.new)) []) }
    ensures begun { OnErr result
        (AddsBeginning (outflow_of (W.contents writer.old) (string_bytes text.old))
        (outflow_of (W.contents writer.new) (string_bytes text.new)) []) }
{
    if !lines.is_drained() {
        return Ok(());
    }
    hand_over(text, writer)
}

/// Writes the pending replies, if they are long.
pub(crate) fn relieve<W: Write>(text: &mut String, writer: &mut W) -> Result<(), TextFault>
    ensures same { OnOk result
        (Adds (outflow_of (W.contents writer.old) (string_bytes text.old))
        (outflow_of (W.contents writer.new) (string_bytes text.new)) []) }
    ensures begun { OnErr result
        (AddsBeginning (outflow_of (W.contents writer.old) (string_bytes text.old))
        (outflow_of (W.contents writer.new) (string_bytes text.new)) []) }
{
    if text.len() < WRITE_THRESHOLD {
        return Ok(());
    }
    write_held(text, writer)
}

/// Writes and flushes the pending replies when a command ends, and returns its outcome.
pub(crate) fn finish<W: Write>(
    outcome: Result<(), TextFault>,
    text: &mut String,
    writer: &mut W,
) -> Result<(), TextFault>
    ensures ok { OnOk result (IsOk outcome) }
    ensures fault { IfErr outcome (λ fault. result ≡ Err fault) }
    ensures written { OnOk result (Appends (W.contents writer.old) (W.contents writer.new) (string_bytes text.old)) }
    ensures begun { OnErr result
        (AppendsBeginning (W.contents writer.old) (W.contents writer.new) (string_bytes text.old)) }
{
    let handed = hand_over(text, writer);
    outcome?;
    handed
}

/// Writes the pending replies, and flushes.
fn hand_over<W: Write>(text: &mut String, writer: &mut W) -> Result<(), TextFault>
    ensures written { OnOk result (Appends (W.contents writer.old) (W.contents writer.new) (string_bytes text.old)) }
    ensures begun { OnErr result
        (AppendsBeginning (W.contents writer.old) (W.contents writer.new) (string_bytes text.old)) }
    ensures emptied { string_bytes text.new ≡ [] }
{
    write_held(text, writer)?;
    match writer.flush() {
        Ok(()) => Ok(()),
        Err(_) => Err(TextFault::Output),
    }
}

/// Writes the pending replies, and discards them even if the writer fails.
#[tactic(auto, using(rly_daemon_reply::proofs::Flows::begins_broken))]
fn write_held<W: Write>(text: &mut String, writer: &mut W) -> Result<(), TextFault>
    ensures written { OnOk result (Appends (W.contents writer.old) (W.contents writer.new) (string_bytes text.old)) }
    ensures begun { OnErr result
        (AppendsBeginning (W.contents writer.old) (W.contents writer.new) (string_bytes text.old)) }
    ensures emptied { string_bytes text.new ≡ [] }
{
    let written = write_whole(writer, text.as_bytes());
    text.clear();
    written?;
    Ok(())
}
