//! One end of a link: a relay with its journal on a device in memory.

ghost use Rattle.std.specs.Prelude.{◌≡◌, ◌<◌, ◌++◌, ◌∷◌, [], IfOk, OnErr, OnOk, List, ℕ, length, vec_capacity};
ghost use Rattle.rly_machine.specs.History.{harm as harm_by};
ghost use Rattle.rly_world_pair.specs.HelpersStation.{IsSpoolCalled, command_of, cut_by, harm_left, harm_number};
ghost use Rattle.rly_world_pair.specs.HelpersStation.{commands_kept, reported_count, reported_after};
ghost use Rattle.rly_world.specs.PairEnd.{Asked, Replied, new_end, with_asked};
ghost use Rattle.rly_world_pair.specs.PairSteps.{Answers, Crashes, Makes, Serves};

use crate::calls::{MadeCall, WaitingCall, copy_ask, is_failure};
use crate::spool::{Fault, Spool, call_spool, disk_of, make_spool, reopen};
use rly_core::{Geometry, Params, Refusal};
use rly_disk::Torn;
use rly_journal::law_stands_for_one;
use rly_machine::{Ask, Command, Payload, Reply};
use std::alloc::{AllocError, Global};
use std::marker::Model;

/// The state of an end's device since its last crash.
#[derive(Clone, Copy, PartialEq, Eq)]
pub(crate) enum Harm {
    /// No failure.
    Whole,
    /// It failed in the last call.
    Failed,
    /// It failed before the last call.
    Broken,
}

/// One end of a link.
#[derive(Drop)]
pub(crate) struct Station {
    params: Params,
    spool: Option<Spool>,
    // The accepted commands, in order. After a device failure, the last one may be one that the machine doesn't accept.
    commands: Vec<Command<Payload>>,
    told: u64,
    harm: Harm,
    asked: Vec<WaitingCall>,
    replied: Vec<MadeCall>,
}

impl Model for Station {
    ghost use Rattle.rly_world_pair.specs.HelpersStation.{IsSoundStation, accepted_in, harm_number};
    ghost use Rattle.rly_world.specs.PairEnd.{End};

    ghost Value = { End };

    ghost view = { λ e. record {
      params = e.params;
      accepted = accepted_in e.params e.commands.items;
      told = e.told;
      harm = harm_number e.harm;
      asked = e.asked.items;
      replied = e.replied.items;
    } };

    ghost invariant = { λ e. IsSoundStation e.params e.commands.items e.told
        (harm_number e.harm) e.replied.items e.spool };
}

impl Station {
    /// Makes an end on a new device. The errors are those of `format` and `Journal::open`.
    pub(crate) fn new(alloc: Global, geometry: &Geometry) -> Result<Station, Refusal>
        ensures { IfOk result (λ e. e ≡ new_end geometry.now.params) }
    {
        Ok(Station {
            params: geometry.params,
            spool: Some(make_spool(alloc, geometry)?),
            commands: Vec::new(alloc),
            told: 0,
            harm: Harm::Whole,
            asked: Vec::new(alloc),
            replied: Vec::new(alloc),
        })
    }

    /// A core requests a call, which waits after the earlier ones.
    pub(crate) fn ask(&mut self, core: usize, ask: Ask) -> Result<(), AllocError>
        ensures err { OnErr result (self.new ≡ self.old) }
        ensures asked { OnOk result (self.new ≡ with_asked self.old core (ask ∷ [])) }
    {
        self.asked.push(WaitingCall { core, ask })?;
        Ok(())
    }

    /// Returns a copy of the bytes in the first waiting reply, empty if that has none.
    pub(crate) fn first_bytes(&self, alloc: Global) -> Result<Payload, AllocError>
        ensures { (made : Replied) (rest : List Replied) (payload : List ℕ) (limit : ℕ) → self.now.replied ≡ made ∷ rest
            → made.reply ≡ Reply.Bytes payload limit → IfOk result (λ copy. copy ≡ payload) }
    {
        match self.replied.first() {
            Some(made) => bytes_of(alloc, &made.reply),
            None => Ok(Payload::new(Vec::new(alloc))),
        }
    }

    /// Makes the first waiting call, if there is one. If an allocation for its record fails, nothing is done.
    pub(crate) fn make(&mut self, alloc: Global) -> Result<(), AllocError>
        ensures err { OnErr result (self.new ≡ self.old) }
        ensures made { OnOk result (Makes self.old self.new) }
    {
        if self.asked.is_empty() {
            return Ok(());
        }
        self.replied.reserve(1)?;
        let ask = first_ask(alloc, &self.asked)?;
        let (reply, position) = call_end(
            alloc,
            &mut self.spool,
            &mut self.commands,
            &mut self.harm,
            ask,
        )?;
        let call = self.asked.remove(0);
        self.replied.push_reserved(MadeCall {
            call,
            reply,
            position,
        });
        Ok(())
    }

    /// Returns the reply to the first call that was made, if there is one.
    pub(crate) fn answer(&mut self) -> Option<MadeCall>
        ensures { Answers self.old self.new result }
    {
        if self.replied.is_empty() {
            return None;
        }
        let made = self.replied.remove(0);
        if !is_failure(&made.reply) {
            self.told = self.told.max(made.position);
        }
        Some(made)
    }

    /// Makes a call of another client, with a reply or without.
    pub(crate) fn serve(
        &mut self,
        alloc: Global,
        ask: Ask,
        is_answered: bool,
    ) -> Result<(), AllocError>
        ensures err { OnErr result (self.new ≡ self.old) }
        ensures served { OnOk result (Serves self.old self.new ask is_answered) }
    {
        let (reply, position) = call_end(
            alloc,
            &mut self.spool,
            &mut self.commands,
            &mut self.harm,
            ask,
        )?;
        self.told = reported_after(self.told, is_answered, &reply, position);
        Ok(())
    }

    /// A crash, which leaves this image of the pending writes. The device is then reopened, and fails according to
    /// `fault`. If it doesn't open, each call is refused until the next crash.
    pub(crate) fn crash(&mut self, alloc: Global, torn: Torn, fault: Fault)
        ensures { Crashes self.old self.new }
    {
        self.asked.clear();
        self.replied.clear();
        self.harm = Harm::Broken;
        let Some(spool) = self.spool.take() else {
            return;
        };
        let spool = reopen(alloc, disk_of(spool), torn, fault);
        law_stands_for_one();
        self.harm = cut(&mut self.commands, &spool);
        self.spool = Some(spool);
    }
}

/// Makes a call of an end: returns its reply, and the number of accepted commands that the reply acknowledges. If an
/// allocation for its record fails, nothing is done.
fn call_end(
    alloc: Global,
    spool: &mut Option<Spool>,
    commands: &mut Vec<Command<Payload>>,
    harm: &mut Harm,
    ask: Ask,
) -> Result<(Reply, u64), AllocError>
    ensures same_spool { OnErr result (spool.new ≡ spool.old) }
    ensures same_commands { OnErr result (commands.new.items ≡ commands.old.items) }
    ensures same_harm { OnErr result (harm.new ≡ harm.old) }
    ensures called { IfOk result (λ told. IsSpoolCalled spool.old spool.new ask told.0) }
    ensures kept { IfOk result (λ told. commands.new.items ≡ commands.old.items ++ commands_kept ask told.0) }
    ensures harmed { IfOk result (λ told. harm_number harm.new ≡ harm_by told.0) }
    ensures tells { IfOk result (λ told. told.1 ≡ reported_count commands.new.items told.0) }
{
    let kept = copy_ask(alloc, &ask)?;
    commands.reserve(1)?;
    let reply = call_spool(alloc, spool, ask)?;
    *harm = harm_of(&reply);
    let position = keep_accepted(commands, kept, &reply);
    Ok((reply, position))
}

/// Drops the commands that an opened journal doesn't have, and returns the device's state.
fn cut(commands: &mut Vec<Command<Payload>>, spool: &Spool) -> Harm
    ensures commands { commands.new.items ≡ cut_by spool.now commands.old.items }
    ensures harmed { harm_number result ≡ harm_left spool.now }
{
    match spool {
        Spool::Open(journal) => {
            commands.truncate(journal.position() as usize);
            Harm::Whole
        }
        Spool::Shut(_) => Harm::Broken,
    }
}

/// Returns a copy of the first waiting request.
fn first_ask(alloc: Global, asked: &[WaitingCall]) -> Result<Ask, AllocError>
    requires { 0 < length asked.now }
    ensures { (call : Asked) (rest : List Asked) → asked.now ≡ call ∷ rest → IfOk result (λ ask. ask ≡ call.ask) }
{
    let first = &asked[0];
    copy_ask(alloc, &first.ask)
}

/// Returns a copy of the bytes of a reply, empty if it has none.
fn bytes_of(alloc: Global, reply: &Reply) -> Result<Payload, AllocError>
    ensures { (payload : List ℕ) (limit : ℕ) → reply.now ≡ Reply.Bytes payload limit
        → IfOk result (λ copy. copy ≡ payload) }
{
    match reply {
        Reply::Bytes { payload, .. } => Payload::copy_of(alloc, payload.as_slice()),
        _ => Ok(Payload::new(Vec::new(alloc))),
    }
}

/// Returns the number of acknowledged commands after a call with a reply, or without one.
fn reported_after(told: u64, is_answered: bool, reply: &Reply, position: u64) -> u64
    ensures { result ≡ reported_after told is_answered reply.now position }
{
    if is_answered && !is_failure(reply) {
        return told.max(position);
    }
    told
}

/// Returns the device's state by a reply.
fn harm_of(reply: &Reply) -> Harm
    ensures { harm_number result ≡ harm_by reply.now }
{
    match reply {
        Reply::Refused(Refusal::Unsure) => Harm::Failed,
        Reply::Refused(Refusal::Broken) => Harm::Broken,
        _ => Harm::Whole,
    }
}

/// Records the command of a request, if it was accepted or the device failed. Returns the number of accepted commands
/// that the reply acknowledges.
fn keep_accepted(commands: &mut Vec<Command<Payload>>, ask: Ask, reply: &Reply) -> u64
    requires { length commands.old.items < vec_capacity commands.old }
    ensures kept { commands.new.items ≡ commands.old.items ++ commands_kept ask reply.now }
    ensures told { result ≡ reported_count commands.new.items reply.now }
{
    if reply.is_accepted() || matches!(reply, Reply::Refused(Refusal::Unsure)) {
        keep_command(commands, ask);
    }
    match is_failure(reply) {
        true => 0,
        false => commands.len() as u64,
    }
}

/// Records the command of a request, if it is one.
fn keep_command(commands: &mut Vec<Command<Payload>>, ask: Ask)
    requires { length commands.old.items < vec_capacity commands.old }
    ensures { commands.new.items ≡ commands.old.items ++ command_of ask }
{
    if let Ask::Command(command) = ask {
        commands.push_reserved(command);
    }
}
