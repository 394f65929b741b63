ghost use Rattle.std.specs.Prelude.{◌≡◌, ◌^◌, ◌<◌, OnErr, OnOk, Ok, string_bytes, true, IfOk, false};
ghost use Rattle.std.specs.Io.KnownBytes.{prepend_known};
ghost use Rattle.rly_core.specs.Bounds.{IsIn};
ghost use Rattle.rly_daemon_lines.specs.HelpersOutflow.{outflow_of};
ghost use Rattle.rly_daemon_lines.specs.HelpersPlay.{AddsPlay, BeginsPlay, EndsAt, IsEmptyBatch, PlaysSome};
ghost use Rattle.rly_daemon_lines.specs.PlayedText.{PlaysAll, PlaysFront};

use crate::line_batch::LineBatch;
use crate::line_reader::LineReader;
use crate::outflow::{finish, new_text};
use crate::text_fault::TextFault;
use rly_disk::Disk;
use rly_journal::Journal;
use std::alloc::Global;
use std::io::{Read, Write};

/// Executes commands from a reader on a journal, and writes a reply line for each line. `batch` lines make one
/// round of the journal, fewer at the end; a line that is no command counts among them. Replies are flushed before
/// a wait for the reader. If it stops early, the lines read for a round that wasn't made are lost.
pub fn play<D: Disk, R: Read, W: Write>(
    alloc: Global,
    reader: &mut R,
    writer: &mut W,
    journal: &mut Journal<D>,
    batch: u64,
) -> Result<(), TextFault>
    requires { IsIn 1 64 batch }
    // The bytes written are the text for the bytes read.
    ensures written { OnOk result (PlaysAll batch D.state journal.old journal.new
        (R.remaining reader.old) (W.contents writer.old) (W.contents writer.new)) }
    // If it stops early, a prefix of such a text was written.
    ensures begun { OnErr result (PlaysFront batch D.state journal.old journal.new
        (R.remaining reader.old) (W.contents writer.old) (W.contents writer.new)) }
{
    let mut lines = LineReader::new(alloc)?;
    let mut round = LineBatch::new(alloc, batch)?;
    let mut text = new_text(alloc)?;
    let outcome = play_lines(
        alloc, journal, &mut round, &mut lines, &mut text, reader, writer,
    );
    finish(outcome, &mut text, writer)
}

/// Plays all lines. The last replies may remain in `text`.
fn play_lines<D: Disk, R: Read, W: Write>(
    alloc: Global,
    journal: &mut Journal<D>,
    round: &mut LineBatch,
    lines: &mut LineReader,
    text: &mut String,
    reader: &mut R,
    writer: &mut W,
) -> Result<(), TextFault>
    requires { IsEmptyBatch round.old }
    ensures played { OnOk result
        (AddsPlay round.old.most D.state journal.old journal.new
        (prepend_known lines.old.ahead (R.remaining reader.old))
        (outflow_of (W.contents writer.old) (string_bytes text.old))
        (outflow_of (W.contents writer.new) (string_bytes text.new))) }
    ensures begun { OnErr result
        (BeginsPlay round.old.most D.state journal.old journal.new
        (prepend_known lines.old.ahead (R.remaining reader.old))
        (outflow_of (W.contents writer.old) (string_bytes text.old))
        (outflow_of (W.contents writer.new) (string_bytes text.new))) }
{
    'rounds: while play_round(alloc, journal, round, lines, text, reader, writer)? {}
    Ok(())
}

/// Plays the lines of one round, and returns whether there may be more.
fn play_round<D: Disk, R: Read, W: Write>(
    alloc: Global,
    journal: &mut Journal<D>,
    round: &mut LineBatch,
    lines: &mut LineReader,
    text: &mut String,
    reader: &mut R,
    writer: &mut W,
) -> Result<bool, TextFault>
    requires { IsEmptyBatch round.old }
    ensures ready { OnOk result (IsEmptyBatch round.new) }
    ensures most { OnOk result (round.new.most ≡ round.old.most) }
    ensures played { OnOk result (PlaysSome round.old.most D.state journal.old journal.new
        (prepend_known lines.old.ahead (R.remaining reader.old))
        (prepend_known lines.new.ahead (R.remaining reader.new))
        (outflow_of (W.contents writer.old) (string_bytes text.old))
        (outflow_of (W.contents writer.new) (string_bytes text.new))) }
    ensures ended { result ≡ Ok false
        → EndsAt (prepend_known lines.old.ahead (R.remaining reader.old))
        (prepend_known lines.new.ahead (R.remaining reader.new)) }
    ensures begun { OnErr result
        (BeginsPlay round.old.most D.state journal.old journal.new
        (prepend_known lines.old.ahead (R.remaining reader.old))
        (outflow_of (W.contents writer.old) (string_bytes text.old))
        (outflow_of (W.contents writer.new) (string_bytes text.new))) }
    ensures progress { result ≡ Ok true → (lines.old.taken < lines.new.taken) × (lines.new.taken < 2 ^ 64) }
{
    let full = round.gather(alloc, lines, text, reader, writer)?;
    round.answer(alloc, journal)?;
    round.tell(text, writer)?;
    Ok(full)
}
