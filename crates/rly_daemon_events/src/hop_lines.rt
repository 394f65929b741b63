//! Writes the lines of hops.

ghost use Rattle.std.specs.Prelude.{◌≡◌, ◌≤◌, ◌<◌, ◌+◌, ◌∷◌, ◌++◌, [], ℕ, IfOk, IfSome, None, OnOk, length};
ghost use Rattle.std.specs.Prelude.{slice_index_or, slice_set, string_bytes};
ghost use Rattle.std.specs.Io.KnownBytes.{Appends};
ghost use Rattle.rly_daemon_events.specs.HopEvents.{events_at, hop_at, last_after, lasts_at, line_text, lines_at};
ghost use Rattle.rly_daemon_events.specs.HopEvents.{lines_text, mark_at, none_told, place_look, told_at, wait_at};

use crate::hop_event::{HopEvent, HopLine, next_event, next_wait};
use crate::hop_look::HopLook;
use rly_core::HopId;
use rly_core::limits::MAX_HOPS;
use rly_daemon_reply::{StreamFault, write_whole};
use rly_plan::Plan;
use std::alloc::{AllocError, Global};
use std::io::Write;
use std::marker::Model;

/// Bytes of the longest line.
const LONGEST: usize = 32;

/// The longest wait for the next line, in microseconds: the wall clock may be set.
const LONGEST_WAIT: u64 = 1_000_000;

/// The lines of a plan's hops: the last one of each, and memory for one line. The model: the last ones, in the order of the
/// hops.
#[derive(Drop)]
pub struct HopLines {
    lasts: Vec<Option<HopEvent>>,
    line: String,
}

impl Model for HopLines {
    ghost use Rattle.std.specs.Prelude.{◌≤◌, List, Option, length};
    ghost use Rattle.rly_core.specs.declared.limits.TheConstants.{MAX_HOPS};
    ghost use Rattle.rly_daemon_events.specs.declared.hop_event.HopEvent.{HopEvent};

    ghost Value = { List (Option HopEvent) };

    ghost view = { λ h. h.lasts.items };

    ghost invariant = { λ h. length h.lasts.items ≤ MAX_HOPS };
}

impl HopLines {
    ghost use Rattle.rly_plan.specs.Sound.{IsSoundPlan};

    /// The lines of a plan's hops: none yet. `Err`: out of memory.
    pub fn new(alloc: Global, plan: &Plan) -> Result<HopLines, AllocError>
        requires { IsSoundPlan plan.now }
        ensures { IfOk result (λ lines. lines ≡ none_told plan.now) }
    {
        let lasts = plan.hops().iter().map(|_hop| None).collect(alloc)?;
        let line = String::with_capacity(alloc, LONGEST)?;
        Ok(HopLines { lasts, line })
    }

    /// Writes the lines that follow at a moment of the wall clock, each in one write, and flushes: those of a hop by its place,
    /// with whether its sender rests. `Err`: the writer failed, and some of them are missing.
    pub fn tell<W: Write>(
        &mut self,
        plan: &Plan,
        now: u64,
        resting: &[bool],
        writer: &mut W,
    ) -> Result<(), StreamFault>
        ensures written { OnOk result
            (Appends (W.contents writer.old) (W.contents writer.new) (lines_at plan.now now resting.now self.old)) }
        ensures told { OnOk result (self.new ≡ lasts_at plan.now now resting.now self.old) }
    {
        for place in 0..self.lasts.len() {
            self.tell_at(place, plan, now, resting, writer)?;
        }
        Ok(())
    }

    /// Writes the lines of the hop at a place.
    fn tell_at<W: Write>(
        &mut self,
        place: usize,
        plan: &Plan,
        now: u64,
        resting: &[bool],
        writer: &mut W,
    ) -> Result<(), StreamFault>
        requires { place < length self.old }
        ensures written { OnOk result
            (Appends (W.contents writer.old) (W.contents writer.new)
            (lines_text (hop_at place)
            (told_at plan.now now resting.now place (slice_index_or self.old place None)))) }
        ensures told { OnOk result
            (self.new ≡ slice_set self.old place
            (last_after (slice_index_or self.old place None)
            (told_at plan.now now resting.now place (slice_index_or self.old place None)))) }
    {
        let mut last = self.lasts[place];
        let look = look_at(plan, now, resting, place);
        let outcome = tell_hop(&mut self.line, hop_at(place), &mut last, &look, writer);
        self.lasts[place] = last;
        outcome
    }

    /// How many microseconds no line follows the last ones by itself, if none does now and the senders go on so: at most a
    /// second, since the wall clock may be set.
    pub fn wait(&self, plan: &Plan, now: u64, resting: &[bool]) -> u64
        ensures bound { result ≤ 1000000 }
        ensures each { (place : ℕ) → place < length self.now
            → IfSome (wait_at plan.now now resting.now self.now place) (λ wait. result ≤ wait) }
    {
        let mut wait = LONGEST_WAIT;
        for place in 0..self.lasts.len() {
            let look = look_at(plan, now, resting, place);
            wait = wait.min(next_wait(self.lasts[place], &look).unwrap_or(LONGEST_WAIT));
        }
        wait
    }
}

/// The hop at a place.
fn hop_at(place: usize) -> HopId
    requires { place < MAX_HOPS }
    ensures { result ≡ hop_at place }
{
    HopId(place as u16 + 1)
}

/// The hop at a place, at a moment.
fn look_at(plan: &Plan, now: u64, resting: &[bool], place: usize) -> HopLook
    requires { place < MAX_HOPS }
    ensures { result ≡ place_look plan.now now resting.now place }
{
    HopLook::at(plan, hop_at(place), now, mark_at(resting, place))
}

/// The mark at a place: false if there is none.
fn mark_at(marks: &[bool], place: usize) -> bool
    ensures { result ≡ mark_at marks.now place }
{
    match marks.get(place) {
        Some(mark) => *mark,
        None => false,
    }
}

/// Writes the lines that follow the last one of a hop at a look, each in one write, and flushes. `Err`: the writer failed, or
/// memory for a line was refused.
fn tell_hop<W: Write>(
    line: &mut String,
    hop: HopId,
    last: &mut Option<HopEvent>,
    look: &HopLook,
    writer: &mut W,
) -> Result<(), StreamFault>
    ensures written { OnOk result
        (Appends (W.contents writer.old) (W.contents writer.new) (lines_text hop (events_at last.old look.now))) }
    ensures last { OnOk result (last.new ≡ last_after last.old (events_at last.old look.now)) }
{
    let Some(first) = next_event(*last, look) else {
        return Ok(());
    };
    write_line(line, hop, first, writer)?;
    *last = Some(first);
    let Some(second) = next_event(*last, look) else {
        return Ok(());
    };
    write_line(line, hop, second, writer)?;
    *last = Some(second);
    Ok(())
}

/// Writes a line of a hop, and flushes.
fn write_line<W: Write>(
    line: &mut String,
    hop: HopId,
    event: HopEvent,
    writer: &mut W,
) -> Result<(), StreamFault>
    ensures { OnOk result (Appends (W.contents writer.old) (W.contents writer.new) (line_text hop event ++ 10 ∷ [])) }
{
    line.clear();
    if write_text(line, hop, event).is_err() {
        return Err(StreamFault::Output);
    }
    write_whole(writer, line.as_bytes())?;
    match writer.flush() {
        Ok(()) => Ok(()),
        Err(_) => Err(StreamFault::Output),
    }
}

/// Appends a line of a hop.
fn write_text(line: &mut String, hop: HopId, event: HopEvent) -> Result<(), AllocError>
    ensures { OnOk result (string_bytes line.new ≡ string_bytes line.old ++ line_text hop event ++ 10 ∷ []) }
{
    writeln!(line, "{}", HopLine { hop, event })?;
    Ok(())
}
