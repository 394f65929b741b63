ghost use Rattle.std.specs.Prelude.{◌≡◌, ◌≤◌, ◌<◌, ◌^◌, ◌++◌, [], IfOk, OnErr, OnOk, Ok, length, map, string_bytes};
ghost use Rattle.std.specs.Prelude.{true, false};
ghost use Rattle.std.specs.Io.KnownBytes.{prepend_known};
ghost use Rattle.rly_core.specs.Bounds.{IsIn};
ghost use Rattle.rly_disk.specs.DiskModel.{Later};
ghost use Rattle.rly_daemon_lines.specs.Grammar.{ask_in_line};
ghost use Rattle.rly_daemon_lines.specs.HelpersLineReader.{TakesLine};
ghost use Rattle.rly_daemon_lines.specs.HelpersOutflow.{Adds, AddsBeginning, outflow_of};
ghost use Rattle.rly_daemon_lines.specs.HelpersPlay.{EndsAt, Gathers, IsAnsweredBy, IsPut, IsEmptyBatch};
ghost use Rattle.rly_daemon_lines.specs.HelpersPlay.{answers_behind, asks_of, round_text, slot_text};

use crate::grammar::parse_line;
use crate::line_evaluation::{add_refused_line, add_reply};
use crate::line_note::note_line;
use crate::line_reader::LineReader;
use crate::outflow::{hand_on, relieve};
use crate::text_fault::TextFault;
use rly_daemon_reply::Subject;
use rly_disk::Disk;
use rly_journal::Journal;
use rly_machine::{Answer, Ask, Call, SeatId};
use std::alloc::{AllocError, Global};
use std::io::{Read, Write};

/// The lines of one round, and its answers. Its memory is reused from round to round.
#[derive(Drop)]
pub(crate) struct LineBatch {
    most: u64,
    slots: Vec<Option<Subject>>,
    calls: Vec<Call>,
    answers: Vec<Answer>,
}

impl LineBatch {
    /// A batch for this many lines.
    pub(crate) fn new(alloc: Global, most: u64) -> Result<LineBatch, AllocError>
        requires { IsIn 1 64 most }
        ensures ready { IfOk result (λ batch. IsEmptyBatch batch) }
        ensures most { IfOk result (λ batch. batch.most ≡ most) }
    {
        Ok(LineBatch {
            most,
            slots: Vec::with_capacity(alloc, most as usize)?,
            calls: Vec::with_capacity(alloc, most as usize)?,
            answers: Vec::with_capacity(alloc, most as usize)?,
        })
    }

    /// Reads lines until a round is full, and returns whether it is.
    pub(crate) fn gather<R: Read, W: Write>(
        &mut self,
        alloc: Global,
        lines: &mut LineReader,
        text: &mut String,
        reader: &mut R,
        writer: &mut W,
    ) -> Result<bool, TextFault>
        requires { IsEmptyBatch self.old }
        ensures gathered { OnOk result (Gathers (prepend_known lines.old.ahead (R.remaining reader.old))
            (prepend_known lines.new.ahead (R.remaining reader.new)) self.new.slots.items
            (asks_of self.new.calls.items)) }
        ensures lines { OnOk result (length self.new.slots.items ≤ self.old.most) }
        ensures count { OnOk result (length self.new.calls.items ≤ 64) }
        ensures ended { result ≡ Ok false
            → EndsAt (prepend_known lines.old.ahead (R.remaining reader.old))
            (prepend_known lines.new.ahead (R.remaining reader.new)) }
        ensures progress { result ≡ Ok true → (lines.old.taken < lines.new.taken) × (lines.new.taken < 2 ^ 64) }
        ensures answers { self.new.answers ≡ self.old.answers }
        ensures most { self.new.most ≡ self.old.most }
        ensures same { OnOk result
            (Adds (outflow_of (W.contents writer.old) (string_bytes text.old))
            (outflow_of (W.contents writer.new) (string_bytes text.new)) []) }
        ensures begun { OnErr result
            (AddsBeginning (outflow_of (W.contents writer.old) (string_bytes text.old))
            (outflow_of (W.contents writer.new) (string_bytes text.new)) []) }
    {
        while (self.slots.len() as u64) < self.most {
            if !self.take_line(alloc, lines, text, reader, writer)? {
                return Ok(false);
            }
        }
        Ok(true)
    }

    /// Reads the next line, and returns whether there was one.
    fn take_line<R: Read, W: Write>(
        &mut self,
        alloc: Global,
        lines: &mut LineReader,
        text: &mut String,
        reader: &mut R,
        writer: &mut W,
    ) -> Result<bool, TextFault>
        ensures line { IfOk result (λ found. TakesLine found (prepend_known lines.old.ahead (R.remaining reader.old))
            (prepend_known lines.new.ahead (R.remaining reader.new)) lines.new.line) }
        ensures put { result ≡ Ok true → IsPut (ask_in_line lines.new.line) self.old self.new }
        ensures none { result ≡ Ok false → self.new ≡ self.old }
        ensures progress { result ≡ Ok true → (lines.old.taken < lines.new.taken) × (lines.new.taken < 2 ^ 64) }
        ensures answers { self.new.answers ≡ self.old.answers }
        ensures most { self.new.most ≡ self.old.most }
        ensures same { OnOk result
            (Adds (outflow_of (W.contents writer.old) (string_bytes text.old))
            (outflow_of (W.contents writer.new) (string_bytes text.new)) []) }
        ensures begun { OnErr result
            (AddsBeginning (outflow_of (W.contents writer.old) (string_bytes text.old))
            (outflow_of (W.contents writer.new) (string_bytes text.new)) []) }
    {
        hand_on(lines, text, writer)?;
        if !lines.next_line(reader)? {
            return Ok(false);
        }
        let ask = parse_line(alloc, lines.line())?;
        note_refused(alloc, lines, &ask);
        self.put(ask)?;
        Ok(true)
    }

    /// Appends the ask of a line.
    fn put(&mut self, ask: Option<Ask>) -> Result<(), AllocError>
        ensures put { OnOk result (IsPut ask self.old self.new) }
        ensures answers { self.new.answers ≡ self.old.answers }
        ensures most { self.new.most ≡ self.old.most }
    {
        let Some(ask) = ask else {
            self.slots.push(None)?;
            return Ok(());
        };
        self.slots.push(Some(Subject::of(&ask)))?;
        let number = self.slots.len() as u64;
        self.calls.push(Call {
            seat: SeatId(0),
            number,
            ask,
        })?;
        Ok(())
    }

    /// Makes one round of the journal, if a line has an ask.
    pub(crate) fn answer<D: Disk>(
        &mut self,
        alloc: Global,
        journal: &mut Journal<D>,
    ) -> Result<(), AllocError>
        requires count { length self.old.calls.items ≤ 64 }
        requires none { self.old.answers.items ≡ [] }
        ensures answered { OnOk result
            (IsAnsweredBy D.state journal.old journal.new self.old.calls.items self.new.answers.items) }
        ensures emptied { OnOk result (self.new.calls.items ≡ []) }
        ensures slots { self.new.slots ≡ self.old.slots }
        ensures most { self.new.most ≡ self.old.most }
        ensures err { OnErr result (journal.new ≡ journal.old) }
        ensures later { Later (D.state journal.old.disk) (D.state journal.new.disk) }
    {
        if self.calls.is_empty() {
            return Ok(());
        }
        journal.law_tail();
        journal.round(alloc, &mut self.calls, &mut self.answers)
    }

    /// Appends the reply line of each line, in order, and clears the lines. Writes the text once it is long.
    pub(crate) fn tell<W: Write>(
        &mut self,
        text: &mut String,
        writer: &mut W,
    ) -> Result<(), TextFault>
        ensures told { OnOk result
            (Adds (outflow_of (W.contents writer.old) (string_bytes text.old))
            (outflow_of (W.contents writer.new) (string_bytes text.new))
            (round_text self.old.slots.items self.old.answers.items)) }
        ensures begun { OnErr result
            (AddsBeginning (outflow_of (W.contents writer.old) (string_bytes text.old))
            (outflow_of (W.contents writer.new) (string_bytes text.new))
            (round_text self.old.slots.items self.old.answers.items)) }
        ensures slots { OnOk result (self.new.slots.items ≡ []) }
        ensures answers { OnOk result (self.new.answers.items ≡ []) }
        ensures calls { self.new.calls ≡ self.old.calls }
        ensures most { self.new.most ≡ self.old.most }
    {
        add_replies(&self.slots, &self.answers, text, writer)?;
        self.slots.clear();
        self.answers.clear();
        Ok(())
    }
}

/// Appends the reply lines of a round. There is an answer for each line with an ask.
fn add_replies<W: Write>(
    slots: &[Option<Subject>],
    answers: &[Answer],
    text: &mut String,
    writer: &mut W,
) -> Result<(), TextFault>
    ensures told { OnOk result
        (Adds (outflow_of (W.contents writer.old) (string_bytes text.old))
        (outflow_of (W.contents writer.new) (string_bytes text.new)) (round_text slots.now answers.now)) }
    ensures begun { OnErr result
        (AddsBeginning (outflow_of (W.contents writer.old) (string_bytes text.old))
        (outflow_of (W.contents writer.new) (string_bytes text.new)) (round_text slots.now answers.now)) }
{
    let mut rest = answers;
    for slot in slots {
        rest = add_slot(*slot, rest, text)?;
        relieve(text, writer)?;
    }
    Ok(())
}

/// Appends the reply line of one line, and returns the remaining answers.
fn add_slot<'a>(
    slot: Option<Subject>,
    answers: &'a [Answer],
    text: &mut String,
) -> Result<&'a [Answer], AllocError>
    ensures rest { IfOk result (λ rest. rest.now ≡ answers_behind slot answers.now) }
    ensures text { OnOk result (string_bytes text.new ≡ string_bytes text.old ++ slot_text slot answers.now) }
    ensures none { OnErr result (string_bytes text.new ≡ []) }
{
    let Some(subject) = slot else {
        add_refused_line(text)?;
        return Ok(answers);
    };
    let Some((answer, rest)) = answers.split_first() else {
        return Ok(answers);
    };
    add_reply(text, subject, &answer.reply)?;
    Ok(rest)
}

/// Says on standard error what is wrong with the last line, if it has no ask.
fn note_refused(alloc: Global, lines: &LineReader, ask: &Option<Ask>) {
    if ask.is_none() {
        note_line(alloc, lines.number(), lines.line());
    }
}
