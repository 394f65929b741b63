//! The batches of one round, and their answers.

ghost use Rattle.std.specs.Prelude.{◌≡◌, ◌+◌, ◌<◌, ◌≤◌, ◌++◌, ◌∷◌, [], List, None, false, true, length, map};
ghost use Rattle.std.specs.Prelude.{vec_capacity, IfNone, IfOk, IfSome, MatchBool};
ghost use Rattle.std.specs.List.{zip};
ghost use Rattle.rly_core.specs.Bounds.{IsIn};
ghost use Rattle.rly_machine.specs.declared.call.Call.{Call as ACall};
ghost use Rattle.rly_machine.specs.History.{LegalBy, harm_after, state_after, without_bytes};
ghost use Rattle.rly_line.specs.Batches.{calls_in_batch, calls_put, no_answers};
ghost use Rattle.rly_line.specs.EndViews.{names_of};
ghost use Rattle.rly_line.specs.ResponderView.{AreLeft, IsOneResponder};
ghost use Rattle.rly_flush.specs.HelpersFlusher.{AreCollected, HasRoundRoom, IsGathering, IsRoundReady};
ghost use Rattle.rly_flush.specs.HelpersFlusher.{StaysCollected, answers_said, calls_said};

use rly_core::limits;
use rly_line::{Answers, Batch, HasState, Responder};
use rly_machine::{Answer, Ask, Call};
use std::alloc::{AllocError, Global};
use std::marker::Model;
use std::snapshot::Snapshot;
use std::sync::Wait;
use std::thread;
use std::time::{Clock, Duration};

/// Maximum number of calls in a round.
const MAX_CALLS: usize = limits::MAX_ROUND as usize;

/// The lists of one round, empty between rounds. Their memory is reserved once.
#[derive(Drop)]
pub(crate) struct Lists {
    /// The calls of its batches.
    pub(crate) calls: Vec<Call>,
    /// Its batches, for the history. They have no size at run time.
    pub(crate) said: Vec<Snapshot<Batch>>,
    /// The destination of each batch's answers.
    pub(crate) wanted: Vec<Answers>,
    /// The answers to the calls.
    pub(crate) answers: Vec<Answer>,
}

impl Lists {
    /// Empty lists with room for one round, or the refusal of memory.
    pub(crate) fn reserve(alloc: Global) -> Result<Lists, AllocError>
        ensures { IfOk result (λ lists. IsRoundReady lists) }
    {
        let calls = Vec::with_capacity(alloc, MAX_CALLS)?;
        let said = Vec::with_capacity(alloc, MAX_CALLS)?;
        let wanted = Vec::with_capacity(alloc, MAX_CALLS)?;
        let answers = Vec::with_capacity(alloc, MAX_CALLS)?;
        Ok(Lists {
            calls,
            said,
            wanted,
            answers,
        })
    }

    /// Adds a batch; there is room for its calls.
    fn add(&mut self, batch: Batch)
        requires calls_room { length self.old.calls.items + length batch.asks ≤ vec_capacity self.old.calls }
        requires said_room { length self.old.said.items < vec_capacity self.old.said }
        requires wanted_room { length self.old.wanted.items < vec_capacity self.old.wanted }
        requires wanted { self.old.wanted.items ≡ answers_said self.old.said.items }
        ensures calls { self.new.calls.items ≡ self.old.calls.items ++ calls_in_batch batch }
        ensures said { calls_said self.new.said.items ≡ calls_said self.old.said.items ++ calls_in_batch batch }
        ensures wanted { self.new.wanted.items ≡ answers_said self.new.said.items }
        ensures count { length self.new.said.items ≡ length self.old.said.items + 1 }
        ensures calls_capacity { vec_capacity self.new.calls ≡ vec_capacity self.old.calls }
        ensures said_capacity { vec_capacity self.new.said ≡ vec_capacity self.old.said }
        ensures wanted_capacity { vec_capacity self.new.wanted ≡ vec_capacity self.old.wanted }
        ensures answers { self.new.answers ≡ self.old.answers }
    {
        self.said.push_reserved(Snapshot::of(&batch));
        let wanted = batch.into_calls(&mut self.calls);
        self.wanted.push_reserved(wanted);
    }

    /// Whether more calls would share the syncs of this round: it has a command, and room for another call.
    fn can_share(&self) -> bool {
        self.calls.len() < MAX_CALLS
            && self
                .calls
                .iter()
                .any(|call| matches!(&call.ask, Ask::Command(_)))
    }
}

/// The batch that was kept, or else the next of the queue, after a wait. `None`: no batch and no seat is left.
fn first_batch<T: HasState, R: Wait>(
    rt: &R,
    line: &mut Responder<T>,
    kept: &mut Option<Batch>,
) -> Option<Batch>
    requires holds { IsOneResponder line.old }
    ensures emptied { kept.new ≡ None }
    ensures some { IfSome result (λ batch. AreCollected line.old line.new kept.old None (calls_in_batch batch)) }
    ensures none { IfNone result ((kept.old ≡ None) × (line.new ≡ record line.old { over = true })) }
    ensures holds { IsOneResponder line.new }
{
    match kept.take() {
        Some(batch) => Some(batch),
        None => line.wait(rt),
    }
}

/// Takes more batches while there are any and they hold at most 64 calls together. Keeps the one that doesn't fit.
fn take_more<T: HasState, R: Wait>(
    rt: &R,
    line: &mut Responder<T>,
    kept: &mut Option<Batch>,
    lists: &mut Lists,
)
    requires holds { IsOneResponder line.old }
    requires none_kept { kept.old ≡ None }
    requires gathering { IsGathering lists.old }
    ensures collected { StaysCollected line.old line.new kept.new lists.old.calls.items lists.new.calls.items }
    ensures gathering { IsGathering lists.new }
    ensures holds { IsOneResponder line.new }
{
    for _more in lists.calls.len()..MAX_CALLS {
        let Some(batch) = line.more(rt) else {
            return;
        };
        if lists.calls.len() + batch.len() > MAX_CALLS {
            *kept = Some(batch);
            return;
        }
        lists.add(batch);
    }
}

/// Collects the batches of a round: the one that was kept or else the next of the queue, after a wait, and more
/// while there are any and they hold at most 64 calls together. Keeps the one that doesn't fit. Returns false if no
/// batch and no seat is left. If more calls would share its syncs, it pauses for `gather`, and takes those that came
/// meanwhile. A round of one batch alone takes no other, and doesn't pause.
pub(crate) fn collect<T: HasState, R: Wait + Clock>(
    rt: &R,
    line: &mut Responder<T>,
    kept: &mut Option<Batch>,
    lists: &mut Lists,
    alone: bool,
    gather: Duration,
) -> bool
    requires holds { IsOneResponder line.old }
    requires ready { IsRoundReady lists.old }
    ensures stayed { result ≡ false
        → (kept.old ≡ None) × (kept.new ≡ None) × (line.new ≡ record line.old { over = true })
        × (lists.new ≡ lists.old) }
    ensures collected { result ≡ true → AreCollected line.old line.new kept.old kept.new lists.new.calls.items }
    ensures alone { alone ≡ true → kept.new ≡ None }
    ensures said { calls_said lists.new.said.items ≡ lists.new.calls.items }
    ensures wanted { lists.new.wanted.items ≡ answers_said lists.new.said.items }
    ensures count { MatchBool result (IsIn 1 64 (length lists.new.calls.items)) (lists.new.calls.items ≡ []) }
    ensures answers { lists.new.answers.items ≡ [] }
    ensures room { HasRoundRoom lists.new }
    ensures holds { IsOneResponder line.new }
{
    let Some(first) = first_batch(rt, line, kept) else {
        return false;
    };
    let _count = first.len();
    lists.add(first);
    if alone {
        return true;
    }
    take_more(rt, line, kept, lists);
    if kept.is_none() && !gather.is_zero() && lists.can_share() {
        thread::sleep(rt, gather);
        take_more(rt, line, kept, lists);
    }
    true
}

/// Answers the batches that were received and are not answered yet, each to its seat.
pub(crate) fn answer_all<T: HasState, R: Wait>(
    rt: &R,
    line: &mut Responder<T>,
    said: &mut Vec<Snapshot<Batch>>,
    wanted: &mut Vec<Answers>,
    answers: &mut Vec<Answer>,
)
    requires holds { IsOneResponder line.old }
    requires left { (left : List ACall) × AreLeft line.old (calls_said said.old.items ++ left) }
    requires wanted { wanted.old.items ≡ answers_said said.old.items }
    requires count { length answers.old.items ≡ length (calls_said said.old.items) }
    requires legal { LegalBy without_bytes (harm_after 0 line.old.history) (state_after line.old.start line.old.history)
        (zip (calls_said said.old.items) answers.old.items) }
    ensures line { line.new
        ≡ record line.old {
          history = line.old.history
              ++ zip (calls_said said.old.items) answers.old.items;
          lines = line.new.lines;
        } }
    ensures names { names_of line.new.lines ≡ names_of line.old.lines }
    ensures emptied { (said.new.items ≡ []) × (wanted.new.items ≡ []) × (answers.new.items ≡ []) }
    ensures said_capacity { vec_capacity said.new ≡ vec_capacity said.old }
    ensures wanted_capacity { vec_capacity wanted.new ≡ vec_capacity wanted.old }
    ensures answers_capacity { vec_capacity answers.new ≡ vec_capacity answers.old }
    ensures holds { IsOneResponder line.new }
{
    let mut next = 0;
    for wanted in wanted.drain(..) {
        let batch = &said[next];
        let filled = wanted.fill(answers);
        line.answer(rt, batch, filled);
        next += 1;
    }
    said.clear();
}
