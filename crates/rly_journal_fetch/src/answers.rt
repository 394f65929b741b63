ghost use Rattle.std.specs.Prelude.{◌≡◌, ◌+◌, ◌≤◌, ◌++◌, [], All, List, length, map, vec_capacity};
ghost use Rattle.rly_gate.specs.GroupReads.{OnlyRead};
ghost use Rattle.rly_machine.specs.declared.call.Answer.{Answer as AnAnswer};
ghost use Rattle.rly_journal_fetch.specs.FetchReads.{AreAnswersOf, IsAnswerOf, IsThereFor, fetch_tries, refused_as};
ghost use Rattle.rly_journal_fetch.specs.FetchReads.{reply_of, rows_for};
ghost use Rattle.rly_disk.specs.Trials.{Tries};

use crate::outcome::Outcome;
use crate::payloads::read_payload;
use rly_core::Refusal;
use rly_disk::Disk;
use rly_machine::{Answer, Payload, Reply};
use std::alloc::Global;

/// Replies to the calls of a round, whose commands are durable, and reads the requested payloads in order. A failed
/// read or allocation refuses that call alone. The disk's content is unchanged.
pub fn answer_all<D: Disk>(
    alloc: Global,
    disk: &mut D,
    outcomes: &mut Vec<Outcome>,
    answers: &mut Vec<Answer>,
)
    requires room { length answers.old.items + length outcomes.old.items ≤ vec_capacity answers.old }
    requires there { All (IsThereFor (D.state disk.old).size) outcomes.old.items }
    ensures answers { (given : List AnAnswer) × (answers.new.items ≡ answers.old.items ++ given)
        × AreAnswersOf (D.state disk.old) outcomes.old.items given
        × Tries D.state (fetch_tries outcomes.old.items given) disk.old disk.new }
    ensures only { OnlyRead (D.state disk.old) (D.state disk.new) }
    ensures emptied { outcomes.new.items ≡ [] }
    ensures outcomes_capacity { vec_capacity outcomes.new ≡ vec_capacity outcomes.old }
    ensures answers_capacity { vec_capacity answers.new ≡ vec_capacity answers.old }
{
    for outcome in outcomes.drain(..) {
        let answer = answer_one(alloc, disk, outcome);
        answers.push_reserved(answer);
    }
}

/// Refuses the calls of a round, whose commands may not be durable, at one position. Reads nothing.
pub fn refuse_all(
    outcomes: &mut Vec<Outcome>,
    answers: &mut Vec<Answer>,
    refusal: Refusal,
    position: u64,
)
    requires room { length answers.old.items + length outcomes.old.items ≤ vec_capacity answers.old }
    ensures answers { answers.new.items ≡ answers.old.items ++ map (refused_as refusal position) outcomes.old.items }
    ensures emptied { outcomes.new.items ≡ [] }
    ensures outcomes_capacity { vec_capacity outcomes.new ≡ vec_capacity outcomes.old }
    ensures answers_capacity { vec_capacity answers.new ≡ vec_capacity answers.old }
{
    for outcome in outcomes.drain(..) {
        let answer = refusal_answer(outcome, refusal, position);
        answers.push_reserved(answer);
    }
}

/// Replies to one call, and reads its payload, if it requests one.
fn answer_one<D: Disk>(alloc: Global, disk: &mut D, outcome: Outcome) -> Answer
    requires there { IsThereFor (D.state disk.old).size outcome }
    ensures answer { IsAnswerOf (D.state disk.old) outcome result }
    ensures trace { Tries D.state (rows_for outcome result) disk.old disk.new }
{
    match outcome {
        Outcome::Answered(answer) => answer,
        Outcome::Wanted {
            seat,
            number,
            position,
            limit,
            place,
        } => {
            let reply = reply_of(limit, read_payload(alloc, disk, place));
            Answer {
                seat,
                number,
                reply,
                position,
            }
        }
    }
}

/// Returns the reply with a payload and its limit, or with the refusal.
fn reply_of(limit: u64, found: Result<Payload, Refusal>) -> Reply
    ensures { result ≡ reply_of limit found }
{
    match found {
        Ok(payload) => Reply::Bytes { payload, limit },
        Err(refusal) => Reply::Refused(refusal),
    }
}

/// Returns the reply that refuses one call.
fn refusal_answer(outcome: Outcome, refusal: Refusal, position: u64) -> Answer
    ensures { result ≡ refused_as refusal position outcome }
{
    let (seat, number) = match outcome {
        Outcome::Answered(answer) => (answer.seat, answer.number),
        Outcome::Wanted { seat, number, .. } => (seat, number),
    };
    Answer {
        seat,
        number,
        reply: Reply::Refused(refusal),
        position,
    }
}
