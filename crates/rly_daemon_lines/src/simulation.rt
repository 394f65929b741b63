ghost use Rattle.std.specs.Prelude.{◌≡◌, ◌<◌, ◌^◌, IfOk, IfSome, Ok, OnErr, OnOk, string_bytes, true};
ghost use Rattle.std.specs.Io.KnownBytes.{Appends, prepend_known};
ghost use Rattle.rly_core.specs.Limits.{IsWithinLimits};
ghost use Rattle.rly_machine.specs.State.{new_state};
ghost use Rattle.rly_daemon_reply.specs.Beginnings.{AppendsBeginning};
ghost use Rattle.rly_daemon_lines.specs.HelpersOutflow.{outflow_of};
ghost use Rattle.rly_daemon_lines.specs.HelpersAnswers.{AnswersAll, AnswersLine, BeginsAnswer};
ghost use Rattle.rly_daemon_lines.specs.Text.{text_for};

use crate::line_evaluation::answer_line;
use crate::line_reader::LineReader;
use crate::outflow::{finish, hand_on, new_text, relieve};
use crate::text_fault::TextFault;
use rly_core::Params;
use rly_machine::{Machine, Payload};
use std::alloc::Global;
use std::io::{Read, Write};

/// Executes commands from a reader on a new machine in memory, and writes a reply line for each line. Memory grows
/// with the live datagrams, never with the length of the input. Replies are flushed before a wait for the reader,
/// so that commands may be typed one by one.
pub fn sim<R: Read, W: Write>(
    alloc: Global,
    params: Params,
    reader: &mut R,
    writer: &mut W,
) -> Result<(), TextFault>
    requires { IsWithinLimits params }
    // The bytes written are the text for the bytes read.
    ensures written { OnOk result (IfSome (R.remaining reader.old) (λ input.
        Appends (W.contents writer.old) (W.contents writer.new) (text_for (new_state params) input))) }
    // If it stops early, a prefix of that text was written.
    ensures begun { OnErr result (IfSome (R.remaining reader.old) (λ input.
        AppendsBeginning (W.contents writer.old) (W.contents writer.new) (text_for (new_state params) input))) }
{
    let mut machine = Machine::new(alloc, params)?;
    let mut lines = LineReader::new(alloc)?;
    let mut text = new_text(alloc)?;
    let outcome = answer_lines(alloc, &mut machine, &mut lines, &mut text, reader, writer);
    finish(outcome, &mut text, writer)
}

/// Answers all lines. The last replies may remain in `text`.
fn answer_lines<R: Read, W: Write>(
    alloc: Global,
    machine: &mut Machine<Payload>,
    lines: &mut LineReader,
    text: &mut String,
    reader: &mut R,
    writer: &mut W,
) -> Result<(), TextFault>
    ensures answered { OnOk result (AnswersAll (prepend_known lines.old.ahead (R.remaining reader.old))
        (outflow_of (W.contents writer.old) (string_bytes text.old))
        (outflow_of (W.contents writer.new) (string_bytes text.new)) machine.old.state) }
    ensures begun { OnErr result (BeginsAnswer (prepend_known lines.old.ahead (R.remaining reader.old))
        (outflow_of (W.contents writer.old) (string_bytes text.old))
        (outflow_of (W.contents writer.new) (string_bytes text.new)) machine.old.state) }
{
    'answers: while answer_next(alloc, machine, lines, text, reader, writer)? {}
    Ok(())
}

/// Answers the next line, and returns whether there was one.
fn answer_next<R: Read, W: Write>(
    alloc: Global,
    machine: &mut Machine<Payload>,
    lines: &mut LineReader,
    text: &mut String,
    reader: &mut R,
    writer: &mut W,
) -> Result<bool, TextFault>
    ensures answered { IfOk result (λ more. AnswersLine more
        (prepend_known lines.old.ahead (R.remaining reader.old))
        (prepend_known lines.new.ahead (R.remaining reader.new))
        (outflow_of (W.contents writer.old) (string_bytes text.old))
        (outflow_of (W.contents writer.new) (string_bytes text.new))
        machine.old.state machine.new.state) }
    ensures begun { OnErr result (BeginsAnswer (prepend_known lines.old.ahead (R.remaining reader.old))
        (outflow_of (W.contents writer.old) (string_bytes text.old))
        (outflow_of (W.contents writer.new) (string_bytes text.new)) machine.old.state) }
    ensures progress { result ≡ Ok true → (lines.old.taken < lines.new.taken) × (lines.new.taken < 2 ^ 64) }
{
    hand_on(lines, text, writer)?;
    if !lines.next_line(reader)? {
        return Ok(false);
    }
    answer_line(alloc, machine, lines.number(), lines.line(), text)?;
    relieve(text, writer)?;
    Ok(true)
}
