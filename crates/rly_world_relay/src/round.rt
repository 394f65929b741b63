//! The parts of a round: it takes batches, runs their calls on the journal, and puts the replies
//! into the reply queues.

ghost use Rattle.std.specs.Prelude.{◌≡◌, ◌≤◌, [], true, false, length, vec_capacity, MatchBool, None, OnOk};
ghost use Rattle.rly_core.specs.Bounds.{IsIn};
ghost use Rattle.rly_world.specs.RelaySteps.{all_replied};
ghost use Rattle.rly_world.specs.RelayWorld.{World};
ghost use Rattle.rly_world_relay.specs.HelpersRounds.{Gathered, IsNext, IsNoneLeft, Serves, TakesOne};
ghost use Rattle.rly_world_relay.specs.HelpersSeats.{HaveRoom, views_of};

use crate::batch::Batch;
use crate::seat::Seat;
use rly_core::limits;
use rly_disk::{FaultDisk, MemDisk};
use rly_journal::Journal;
use rly_machine::{Answer, Call};
use std::alloc::{AllocError, Global};

/// Maximum number of calls of a round.
pub(crate) const MAX_CALLS: usize = limits::MAX_ROUND as usize;

/// Reserves memory in each reply queue for the replies of a round.
pub(crate) fn reserve(seats: &mut Vec<Seat>) -> Result<(), AllocError>
    ensures same { views_of seats.new.items ≡ views_of seats.old.items }
    ensures room { OnOk result (HaveRoom 64 seats.new.items) }
{
    for seat in seats.iter_mut() {
        seat.reserve(MAX_CALLS)?;
    }
    Ok(())
}

/// Takes batches until they have at least `most` calls, or none may be taken.
pub(crate) fn gather(
    most: u64,
    kept: &mut Option<Batch>,
    line: &mut Vec<Batch>,
    calls: &mut Vec<Call>,
)
    requires empty { calls.old.items ≡ [] }
    requires room { 64 ≤ vec_capacity calls.old }
    ensures gathers { (w : World) → w.kept ≡ kept.old → w.line ≡ line.old.items → w.round ≡ None → w.is_open ≡ true
        → Gathered most w kept.new line.new.items calls.new.items }
    ensures count { length calls.new.items ≤ 64 }
{
    while (calls.len() as u64) < most {
        if !take(kept, line, calls) {
            break;
        }
    }
}

/// Takes one batch: the kept one, or else the first in the submission queue, which is kept if the round has no room for
/// it. Returns false if the round can take none.
fn take(kept: &mut Option<Batch>, line: &mut Vec<Batch>, calls: &mut Vec<Call>) -> bool
    requires count { length calls.old.items ≤ 64 }
    requires room { 64 ≤ vec_capacity calls.old }
    ensures takes { MatchBool result
        (TakesOne kept.old line.old.items calls.old.items kept.new line.new.items calls.new.items)
        (IsNoneLeft kept.old line.old.items calls.old.items × (kept.new ≡ kept.old) × (line.new.items ≡ line.old.items)
        × (calls.new.items ≡ calls.old.items)) }
    ensures count { length calls.new.items ≤ 64 }
    ensures capacity { vec_capacity calls.new ≡ vec_capacity calls.old }
{
    if kept.is_some() && !calls.is_empty() {
        return false;
    }
    let Some(batch) = next(kept, line) else {
        return false;
    };
    if calls.len() + batch.len() > MAX_CALLS {
        *kept = Some(batch);
    } else {
        batch.add_to(calls);
    }
    true
}

/// Returns the kept batch, or else the first in the submission queue.
fn next(kept: &mut Option<Batch>, line: &mut Vec<Batch>) -> Option<Batch>
    ensures next { IsNext kept.old line.old.items result kept.new line.new.items }
{
    if let Some(batch) = kept.take() {
        return Some(batch);
    }
    if line.is_empty() {
        return None;
    }
    Some(line.remove(0))
}

/// Makes one round of the journal, with the memory already reserved.
pub(crate) fn serve(
    alloc: Global,
    journal: &mut Journal<FaultDisk<MemDisk>>,
    calls: &mut Vec<Call>,
    answers: &mut Vec<Answer>,
)
    requires count { IsIn 1 64 (length calls.old.items) }
    requires empty { answers.old.items ≡ [] }
    requires room { 64 ≤ vec_capacity answers.old }
    ensures served { Serves journal.old journal.new calls.old.items answers.new.items }
    ensures count { length answers.new.items ≡ length calls.old.items }
{
    journal.law_tail();
    journal.law_counted();
    journal.law_renewed();
    let made = journal.round(alloc, calls, answers);
    prove!(made.is_ok());
}

/// Puts each answer in the reply line of its seat.
pub(crate) fn reply_all(seats: &mut Vec<Seat>, answers: Vec<Answer>)
    requires { HaveRoom (length answers.items) seats.old.items }
    ensures { views_of seats.new.items ≡ all_replied (views_of seats.old.items) answers.items }
{
    for answer in answers {
        let index = usize::from(answer.seat.0);
        if index < seats.len() {
            seats[index].reply(answer);
        }
    }
}
