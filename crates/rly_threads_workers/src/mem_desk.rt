//! A desk in memory, for tests. In proofs it records all asks and answers.

ghost use Rattle.std.specs.Prelude.{◌≡◌, []};
ghost use Rattle.rly_threads_workers.specs.HelpersTurns.{IsReply};

use crate::desk::Desk;
use http_server::Log;
use rly_core::Refusal;
use rly_line::{BatchError, CallError};
use rly_machine::{Answer, Ask, Machine, Payload, Reply, SeatId};
use std::alloc::Global;
use std::snapshot::Snapshot;
use std::sync::Wait;

/// The batches of asks and their answers, in ghost code.
type Exchanged = Log<Snapshot<Ask>, Snapshot<Answer>>;

/// A desk in memory, which executes calls on a machine of its own.
#[derive(Drop)]
pub struct MemDesk {
    alloc: Global,
    machine: Machine<Payload>,
    calls: u64,
    asked: Log<Exchanged, ()>,
}

impl MemDesk {
    /// A desk over this machine.
    pub fn new(alloc: Global, machine: Machine<Payload>) -> MemDesk
        ensures machine { result.machine ≡ machine }
        ensures asked { result.asked.items ≡ [] }
    {
        MemDesk {
            alloc,
            machine,
            calls: 0,
            asked: Log::new(),
        }
    }

    /// The machine.
    pub fn machine(&self) -> &Machine<Payload>
        ensures { result.now ≡ self.now.machine }
    {
        &self.machine
    }

    /// The number of calls that it answered.
    pub fn calls(&self) -> u64
        ensures { result ≡ self.now.calls }
    {
        self.calls
    }

    /// Answers an ask.
    fn answer(&mut self, ask: Ask) -> Answer
        ensures { self.new.asked ≡ self.old.asked }
    {
        let reply = reply_to(self.alloc, &mut self.machine, ask);
        self.calls = self.calls.saturating_add(1);
        Answer {
            seat: SeatId(0),
            number: self.calls,
            reply,
            position: self.machine.seq(),
        }
    }
}

impl Desk for MemDesk {
    ghost use Rattle.std.specs.Prelude.{Some};
    ghost use Rattle.rly_threads_workers.specs.Memory.{asked_of};

    ghost asked = { λ d. Some (asked_of d.asked) };

    fn call<R: Wait>(&mut self, rt: &R, ask: Ask) -> Result<Answer, CallError> {
        let _ = rt;
        let said = Snapshot::of(&ask);
        let answer = self.answer(ask);
        let exchanged = Log::new().and(&said, &Snapshot::of(&answer));
        self.asked = self.asked.and(&exchanged, &());
        Ok(answer)
    }

    fn call_all<R: Wait>(
        &mut self,
        rt: &R,
        asks: &mut Vec<Ask>,
        answers: &mut Vec<Answer>,
    ) -> Result<(), BatchError> {
        let _ = rt;
        let mut exchanged: Exchanged = Log::new();
        for ask in asks.drain(..) {
            let said = Snapshot::of(&ask);
            let answer = self.answer(ask);
            exchanged = exchanged.and(&said, &Snapshot::of(&answer));
            answers.push_reserved(answer);
        }
        self.asked = self.asked.and(&exchanged, &());
        Ok(())
    }
}

/// The machine's reply, unless memory is refused.
fn reply_to(alloc: Global, machine: &mut Machine<Payload>, ask: Ask) -> Reply
    ensures { IsReply machine.old.state machine.new.state ask result }
{
    match machine.evaluate(alloc, ask) {
        Ok(reply) => reply,
        Err(_) => Reply::Refused(Refusal::OutOfMemory),
    }
}
