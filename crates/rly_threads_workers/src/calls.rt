// The calls of a sending worker's turn.
ghost use Rattle.std.specs.Prelude.{◌≡◌, ◌<◌, ◌≤◌, ◌⊎◌, ◌+◌, ◌-◌, ◌++◌, ◌∷◌, ◌↔◌, [], IfErr, IsTrue, None, OnOk, length};
ghost use Rattle.std.specs.List.{cons_option};
ghost use Rattle.std.specs.Option.{option_map};
ghost use Rattle.rly_hop.specs.Payloads.{out_action_bytes};
ghost use Rattle.rly_machine.specs.declared.command.Ask.{Ask as AnAsk};
ghost use Rattle.rly_link.specs.declared.turn.Go.{Go as AGo};
ghost use Rattle.rly_link.specs.declared.turn.Point.{Point as APoint};
ghost use Rattle.rly_link.specs.LinkHistory.{TellsMore};
ghost use Rattle.rly_threads_workers.specs.DeskExchanges.{batch_outcome, call_asked};
ghost use Rattle.rly_threads_workers.specs.HelpersTurns.{HasCallRoom, HasNumbers, IsIdle, IsSameTurn};
ghost use Rattle.rly_threads_workers.specs.HelpersTurns.{answers_in, asks_in, coming_in};
ghost use Rattle.rly_threads_workers.specs.SenderTurns.{call_at, core_call_at, or_pick, repeat_count};

use crate::desk::Desk;
use crate::ends::Ends;
use crate::sender_state::MAX_CALLS;
use rly_hop::OutAction;
use rly_hop_pacing::Numbers;
use rly_line::{BatchError, CallError};
use rly_link::{Go, Link, Turn, Waker, Worker};
use rly_machine::{Answer, Ask};
use std::alloc::Global;
use std::marker::Model;
use std::sync::Wait;

/// The calls of a turn, which are submitted together, and their answers. Between turns there are none.
#[derive(Drop)]
pub(crate) struct Calls {
    /// Maximum number of calls together: 64, or 1 if memory for the lists was refused.
    pub(crate) most: u64,
    /// The numbers to send again: the first calls are their Fetches.
    pub(crate) again: Numbers,
    /// The core's request, which the other calls follow from.
    pub(crate) named: OutAction<&'static [u8]>,
    /// The asks, in order.
    asks: Vec<Ask>,
    /// Their answers, in order.
    answers: Vec<Answer>,
    /// The only ask, and the only answer, if there are no lists.
    ask: Option<Ask>,
    answer: Option<Answer>,
}

impl Calls {
    /// Room for 64 calls if memory permits, or else for one.
    pub(crate) fn reserve(alloc: Global) -> Calls
        ensures most { (result.most ≡ 64) ⊎ (result.most ≡ 1) }
        ensures idle { IsIdle result }
    {
        let asks = Vec::with_capacity(alloc, MAX_CALLS as usize);
        let answers = Vec::with_capacity(alloc, MAX_CALLS as usize);
        let (most, asks, answers) = match (asks, answers) {
            (Ok(asks), Ok(answers)) => (MAX_CALLS, asks, answers),
            _ => (1, Vec::new(alloc), Vec::new(alloc)),
        };
        Calls {
            most,
            again: Numbers::new(),
            named: OutAction::Pick,
            asks,
            answers,
            ask: None,
            answer: None,
        }
    }

    /// Whether there is no ask.
    pub(crate) fn is_empty(&self) -> bool
        ensures { IsTrue result ↔ (length (asks_in self.now) ≡ 0) }
    {
        self.ask.is_none() && self.asks.is_empty()
    }

    /// Adds an ask.
    pub(crate) fn push(&mut self, ask: Ask)
        requires room { HasCallRoom self.old }
        requires fewer { length (asks_in self.old) < self.old.most }
        ensures same { IsSameTurn self.old self.new }
        ensures asks { asks_in self.new ≡ asks_in self.old ++ ask ∷ [] }
        ensures answers { answers_in self.new ≡ answers_in self.old }
    {
        if self.most == MAX_CALLS {
            self.asks.push_reserved(ask);
        } else {
            self.ask = Some(ask);
        }
    }

    /// Submits a worker's calls together. Returns their outcome, and the tick after it.
    pub(crate) fn submit<R: Wait, L: Link, K: Desk, T: Turn, W: Waker>(
        &mut self,
        rt: &R,
        worker: Worker,
        ends: &mut Ends<L, K, T, W>,
    ) -> (Result<(), BatchError>, Go)
        requires room { HasCallRoom self.old }
        requires some { 0 < length (asks_in self.old) }
        requires few { length (asks_in self.old) ≤ self.old.most }
        requires answers { answers_in self.old ≡ [] }
        ensures same { IsSameTurn self.old self.new }
        ensures none_left { asks_in self.new ≡ [] }
        ensures each { OnOk result.0 (length (answers_in self.new) ≡ length (asks_in self.old)) }
        ensures none_given { IfErr result.0 (λ _. answers_in self.new ≡ []) }
        ensures asked { TellsMore ends.old.asked ends.new.asked
            ((asks_in self.old, batch_outcome result.0 (answers_in self.new)) ∷ []) }
        ensures told { (before : AGo)
            × TellsMore ends.old.handed ends.new.handed
            ((worker, APoint.Call, before) ∷ (worker, APoint.Answered, result.1) ∷ []) }
        ensures ends { ends.new ≡ record ends.old { asked = ends.new.asked; handed = ends.new.handed } }
    {
        let Some(ask) = self.ask.take() else {
            let (outcome, go) = ends.call_all(rt, worker, &mut self.asks, &mut self.answers);
            // Those that weren't submitted remain.
            self.asks.clear();
            return (outcome, go);
        };
        let (outcome, go) = ends.call(rt, worker, ask);
        (self.keep(outcome), go)
    }

    /// Keeps the answer of the only call, if there is one.
    fn keep(&mut self, outcome: Result<Answer, CallError>) -> Result<(), BatchError>
        requires { self.old.answer ≡ None }
        ensures same { self.new ≡ record self.old { answer = self.new.answer } }
        ensures asked { (ask : AnAsk) → call_asked ask outcome
            ≡ (ask ∷ [], batch_outcome result (cons_option self.new.answer [])) }
        ensures each { OnOk result (length (cons_option self.new.answer []) ≡ 1) }
        ensures none_given { IfErr result (λ _. self.new.answer ≡ None) }
    {
        match outcome {
            Ok(answer) => {
                self.answer = Some(answer);
                Ok(())
            }
            Err(CallError::Closed(_)) => Err(BatchError::Closed),
            Err(CallError::Lost) => Err(BatchError::Lost),
        }
    }

    /// How many answers there are. After this `next_answer` takes them in order, from the end of the reversed list.
    pub(crate) fn begin_answers(&mut self) -> u64
        requires { HasCallRoom self.old }
        ensures same { IsSameTurn self.old self.new }
        ensures asks { asks_in self.new ≡ asks_in self.old }
        ensures count { result ≡ length (answers_in self.old) }
        ensures coming { coming_in self.new ≡ answers_in self.old }
    {
        self.answers.reverse();
        self.answers.len() as u64 + u64::from(self.answer.is_some())
    }

    /// Takes the next answer, after `begin_answers`.
    pub(crate) fn next_answer(&mut self) -> Option<Answer>
        requires { HasCallRoom self.old }
        ensures same { IsSameTurn self.old self.new }
        ensures asks { asks_in self.new ≡ asks_in self.old }
        ensures coming { coming_in self.old ≡ cons_option result (coming_in self.new) }
        ensures last { result ≡ None → coming_in self.new ≡ [] }
    {
        match self.answer.take() {
            Some(answer) => Some(answer),
            None => self.answers.pop(),
        }
    }

    /// The call at an index: first the Fetches of the numbers to send again, and then those for the core's request.
    pub(crate) fn at(&self, place: u64) -> OutAction<&'static [u8]>
        requires { HasNumbers (out_action_bytes self.now.named) (place - length self.now.again.items) }
        ensures { out_action_bytes result ≡ call_at self.now.again.items (out_action_bytes self.now.named) place }
    {
        let first = self.again.len() as u64;
        if place < first {
            OutAction::Fetch(self.again[place as usize])
        } else {
            core_call_at(self.named, place - first)
        }
    }
}

/// The call at an index among those for the core's request: the Fetch of a later number, a Pick after a Release, or the
/// same call again.
fn core_call_at<'a>(named: OutAction<&'a [u8]>, place: u64) -> OutAction<&'a [u8]>
    requires { HasNumbers (out_action_bytes named) place }
    ensures { out_action_bytes result ≡ core_call_at (out_action_bytes named.entry) place }
{
    match named {
        OutAction::Fetch(number) => OutAction::Fetch(number + place),
        OutAction::Release(_) if place > 0 => OutAction::Pick,
        other => other,
    }
}

/// The call that the core requests; without one, none of its calls is submitted.
pub(crate) fn or_pick<'a>(action: Option<OutAction<&'a [u8]>>) -> OutAction<&'a [u8]>
    ensures { out_action_bytes result ≡ or_pick (option_map out_action_bytes action.entry) }
{
    match action {
        None | Some(OutAction::Send(_)) => OutAction::Pick,
        Some(action) => action,
    }
}

/// How many numbers may be sent again in a turn of at most `most` calls and `room` messages: one call is left for the
/// core.
pub(crate) fn repeat_count(most: u64, room: u64) -> u64
    ensures { result ≡ repeat_count most room }
{
    room.min(most.saturating_sub(1).max(1))
}
