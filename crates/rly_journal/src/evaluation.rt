ghost use Rattle.std.specs.Prelude.{◌≡◌, ◌⊎◌, ◌+◌, ◌-◌, ◌<◌, ◌≤◌, [], ◌++◌, false, length, List, map, true};
ghost use Rattle.std.specs.Prelude.{vec_capacity, ℕ};
ghost use Rattle.rly_machine.specs.State.{State};
ghost use Rattle.rly_machine.specs.Accepted.{is_accepted};
ghost use Rattle.rly_machine.specs.declared.command.Ask.TheVariants as an_ask;
ghost use Rattle.rly_record.specs.Spelling.{IsRecordable};
ghost use Rattle.rly_reclaim.specs.Room.{IsDue};
ghost use Rattle.rly_segment.specs.Heads.{segment_place};
ghost use Rattle.rly_journal_index.specs.IndexRelation.{IsAlike};
ghost use Rattle.rly_journal_index.specs.Index.{IsAt};
ghost use Rattle.rly_journal.specs.Groups.{empty_group};
ghost use Rattle.rly_journal.specs.Journal.{holds_command, is_command};
ghost use Rattle.rly_journal.specs.Rounds.{refusals};
ghost use Rattle.rly_journal.specs.HelpersOutcomes.{IsEvaluated, IsGrouping, IsLeft, IsOutcomeOf, IsTaken};
ghost use Rattle.rly_journal.specs.HelpersOutcomes.{IsTakenOrLeft, IsAnswerTo, command_accepted};

use crate::group::Group;
use crate::placement::{inline_command, is_recordable};
use http_server::Log;
use rly_core::Refusal;
use rly_journal_fetch::{Outcome, place_of};
use rly_journal_index::Index;
use rly_machine::{Answer, Ask, Call, Command, Payload, Query, Reply, SeatId};
use rly_record::record_len;
use std::alloc::Global;
use std::snapshot::Snapshot;

/// The accepted commands, a ghost log for proofs.
pub(crate) type Accepted = Log<Snapshot<Command<Payload>>, ()>;

/// Evaluates the calls of a round in order, each in the state that the earlier ones left, and records their outcomes.
/// The records of the accepted commands become the group that will be written at a gate.
pub(crate) fn evaluate(
    alloc: Global,
    index: &mut Index,
    group: &mut Group,
    gate: u64,
    accepted: &mut Accepted,
    calls: &mut Vec<Call>,
    outcomes: &mut Vec<Outcome>,
)
    requires count { length calls.old.items ≤ 64 }
    requires room { length calls.old.items ≤ vec_capacity outcomes.old }
    requires none { outcomes.old.items ≡ [] }
    requires empty { group.old ≡ empty_group index.old.geometry.params.payload }
    requires above { segment_place index.old.geometry index.old.segment ≤ gate }
    requires used { index.old.used ≡ gate }
    requires ready { holds_command calls.old.items ≡ true
        → IsDue index.old.geometry (gate - segment_place index.old.geometry index.old.segment) → ⊥ }
    ensures emptied { calls.new.items ≡ [] }
    ensures evaluated { IsEvaluated gate index.old index.new group.new (map (λ e. e.0.value) accepted.old.items)
        (map (λ e. e.0.value) accepted.new.items)
        calls.old.items outcomes.new.items }
    ensures calls_capacity { vec_capacity calls.new ≡ vec_capacity calls.old }
    ensures outcomes_capacity { vec_capacity outcomes.new ≡ vec_capacity outcomes.old }
{
    for call in calls.drain(..) {
        let outcome = evaluate_call(alloc, index, group, gate, accepted, call);
        outcomes.push_reserved(outcome);
    }
}

/// Refuses all calls, at one position.
pub(crate) fn refuse_calls(
    calls: &mut Vec<Call>,
    answers: &mut Vec<Answer>,
    refusal: Refusal,
    position: u64,
)
    requires room { length answers.old.items + length calls.old.items ≤ vec_capacity answers.old }
    ensures emptied { calls.new.items ≡ [] }
    ensures calls_capacity { vec_capacity calls.new ≡ vec_capacity calls.old }
    ensures answers_capacity { vec_capacity answers.new ≡ vec_capacity answers.old }
    ensures answers { answers.new.items ≡ answers.old.items ++ refusals refusal position calls.old.items }
{
    for call in calls.drain(..) {
        answers.push_reserved(Answer {
            seat: call.seat,
            number: call.number,
            reply: Reply::Refused(refusal),
            position,
        });
    }
}

/// Evaluates one call.
fn evaluate_call(
    alloc: Global,
    index: &mut Index,
    group: &mut Group,
    gate: u64,
    accepted: &mut Accepted,
    call: Call,
) -> Outcome
    requires { is_command call.ask ≡ true → IsGrouping gate index.old group.old }
    ensures outcome { (t : State (List ℕ)) → IsAlike index.old.spool.state t
        → IsOutcomeOf index.old.geometry call result index.old.spool.state t }
    ensures taken { IsTakenOrLeft gate call result index.old index.new group.old group.new
        (map (λ e. e.0.value) accepted.old.items) (map (λ e. e.0.value) accepted.new.items) }
{
    let Call { seat, number, ask } = call;
    match ask {
        Ask::Command(command) => {
            let reply = answer_command(alloc, index, group, gate, accepted, command);
            let position = index.machine().seq();
            Outcome::Answered(Answer {
                seat,
                number,
                reply,
                position,
            })
        }
        Ask::Query(query) => answer_query(index, seat, number, query),
    }
}

/// Replies to a query. For a Fetch of a datagram in flight, the outcome requests the payload by its device address,
/// with its limit.
fn answer_query(index: &Index, seat: SeatId, number: u64, query: Query) -> Outcome
    ensures outcome { (t : State (List ℕ)) → IsAlike index.now.spool.state t
        → IsOutcomeOf index.now.geometry
        (record { seat = seat; number = number; ask = an_ask.Query query }) result index.now.spool.state t }
    ensures none { command_accepted (record { seat = seat; number = number; ask = an_ask.Query query }) result ≡ [] }
{
    index.law_index();
    let position = index.machine().seq();
    let reply = match query {
        Query::Fetch {
            hop,
            number: custody,
        } => match index.item(hop, custody) {
            Ok(item) => {
                return Outcome::Wanted {
                    seat,
                    number,
                    position,
                    limit: item.limit,
                    place: place_of(&item.payload),
                };
            }
            Err(refusal) => Reply::Refused(refusal),
        },
        Query::Window { hop } => index.ask_window(hop),
        Query::Show { hop } => index.ask_show(hop),
    };
    Outcome::Answered(Answer {
        seat,
        number,
        reply,
        position,
    })
}

/// Replies to a command. If it is accepted, its record becomes part of the group, and the index has its payload by
/// device address.
fn answer_command(
    alloc: Global,
    index: &mut Index,
    group: &mut Group,
    gate: u64,
    accepted: &mut Accepted,
    command: Command<Payload>,
) -> Reply
    requires { IsGrouping gate index.old group.old }
    ensures told { (t : State (List ℕ)) → IsAlike index.old.spool.state t → IsAnswerTo command result t }
    ensures taken { ((is_accepted result ≡ true) × IsTaken gate command index.old index.new group.old group.new
        (map (λ e. e.0.value) accepted.old.items) (map (λ e. e.0.value) accepted.new.items))
        ⊎ ((is_accepted result ≡ false) × IsLeft index.old index.new group.old group.new
        (map (λ e. e.0.value) accepted.old.items) (map (λ e. e.0.value) accepted.new.items)) }
{
    index.law_index();
    if !is_recordable(&command, index.machine().params().payload) {
        return answer_long(alloc, index, command);
    }
    let said = Snapshot::of(&command);
    let next = gate + group.len() + record_len(&command) as u64;
    let placed = group.stage(gate, command);
    let Ok(room) = index.reserve_for(alloc, &placed) else {
        group.discard();
        return Reply::Refused(Refusal::OutOfMemory);
    };
    let reply = index.apply(placed, room, next);
    if reply.is_accepted() {
        group.keep();
        *accepted = accepted.and(&said, &());
    } else {
        group.discard();
    }
    reply
}

/// Replies to a command that can't be recorded: it is refused.
fn answer_long(alloc: Global, index: &mut Index, command: Command<Payload>) -> Reply
    requires long { IsRecordable index.old.spool.state.params.payload command → ⊥ }
    ensures told { (t : State (List ℕ)) → IsAlike index.old.spool.state t → IsAnswerTo command result t }
    ensures refused { is_accepted result ≡ false }
    ensures state { index.new.spool.state ≡ index.old.spool.state }
    ensures at { IsAt index.old.geometry index.old.segment index.old.used index.new }
{
    index.law_index();
    let placed = inline_command(command);
    let used = index.used_until();
    match index.reserve_for(alloc, &placed) {
        Ok(room) => index.apply(placed, room, used),
        Err(_) => Reply::Refused(Refusal::OutOfMemory),
    }
}
