//! Two simulated relays, and their steps.

ghost use Rattle.std.specs.Prelude.{◌≡◌, ◌<◌, ◌++◌, IfOk, List, MatchOption, None, OnErr, OnOk, Some, ℕ, length};
ghost use Rattle.std.specs.Prelude.{replicate, vec_capacity};
ghost use Rattle.rly_hop.specs.Receiving.{receiver, receiving_step};
ghost use Rattle.rly_world_pair.specs.HelpersStation.{messages_of};
ghost use Rattle.rly_world.specs.PairCores.{is_for_receiver, is_for_sender, receiver_sends, take_answer};
ghost use Rattle.rly_world_pair.specs.PairSteps.{IsStep, setup_of};
ghost use Rattle.rly_world.specs.PairWorld.{pair_start, unless_failed};

use crate::lent::{
    borrowed_message, named_ask, owned_message, payload_of, sender_event, take_answer,
};
use crate::spool::Fault;
use crate::station::Station;
use crate::step::Step;
use rly_core::{Geometry, HopId, Params, PeerId, Refusal};
use rly_disk::Torn;
use rly_hop::{InAction, InEvent, Message, OutAction, OutEvent, Receiving, Sending, StationId};
use rly_machine::{Ask, Command, Payload, Query, Reply};
use std::alloc::{AllocError, Global};
use std::marker::Model;

const UPPER: StationId = StationId(1);

const LOWER: StationId = StationId(2);

const HOP: HopId = HopId(1);

const PEER: PeerId = PeerId(1);

/// Two relays, stations 1 and 2, with every packet that either sent. The upper's hop 1 leads to the lower, whose peer 1
/// is the upper.
#[derive(Drop)]
pub struct Pair {
    upper_params: Params,
    lower_params: Params,
    upper: Station,
    sender: Sending,
    lower: Station,
    receivers: Vec<Receiving>,
    packets: Vec<Message<Payload>>,
}

impl Model for Pair {
    ghost use Rattle.std.specs.Prelude.{◌≡◌, length};
    ghost use Rattle.rly_world_pair.specs.PairSteps.{setup_of};
    ghost use Rattle.rly_world.specs.PairWorld.{PairWorld};

    ghost Value = { PairWorld };

    ghost view = { λ p. record {
      setup = setup_of p.upper_params p.lower_params;
      upper = p.upper;
      sender = p.sender;
      lower = p.lower;
      receivers = p.receivers.items;
      packets = p.packets.items;
    } };

    ghost invariant = { λ p. length p.receivers.items ≡ p.upper_params.window };
}

impl Pair {
    /// Makes two relays on new devices. The errors are those of `format` and `Journal::open`.
    pub fn new(alloc: Global, upper: &Geometry, lower: &Geometry) -> Result<Pair, Refusal>
        ensures { IfOk result (λ pair. pair ≡ pair_start (setup_of upper.now.params lower.now.params)) }
    {
        let window = upper.params.window;
        let Ok(receivers) = new_receivers(alloc, window as usize) else {
            return Err(Refusal::OutOfMemory);
        };
        Ok(Pair {
            upper_params: upper.params,
            lower_params: lower.params,
            upper: Station::new(alloc, upper)?,
            sender: Sending::new(UPPER, LOWER, window),
            lower: Station::new(alloc, lower)?,
            receivers,
            packets: Vec::new(alloc),
        })
    }

    /// Makes a step with the real journals, cores and devices. If an allocation fails, nothing is done.
    pub fn step(&mut self, alloc: Global, step: Step) -> Result<(), AllocError>
        ensures err { OnErr result (self.new ≡ self.old) }
        ensures ok { OnOk result (IsStep step self.old self.new) }
    {
        match step {
            Step::Turns { is_open, moment } => self.turns(is_open, moment),
            Step::FetchesAhead { number } => self.fetches_ahead(number),
            Step::PicksAhead { moment } => self.picks_ahead(moment),
            Step::LowerHears {
                packet,
                core,
                hop,
                stamp,
            } => self.lower_hears(alloc, packet, core, hop, stamp),
            Step::UpperMakes => self.upper.make(alloc),
            Step::LowerMakes => self.lower.make(alloc),
            Step::UpperAnswers { is_sent } => self.upper_answers(alloc, is_sent),
            Step::LowerAnswers { is_sent } => self.lower_answers(alloc, is_sent),
            Step::UpperServes { ask, is_answered } => self.upper_serves(alloc, ask, is_answered),
            Step::LowerServes { ask, is_answered } => self.lower_serves(alloc, ask, is_answered),
            Step::Timeout => {
                self.times_out();
                Ok(())
            }
            Step::UpperHears { packet } => {
                self.upper_hears(packet);
                Ok(())
            }
            Step::UpperCrashes { torn, fault } => {
                self.upper_crashes(alloc, torn, fault);
                Ok(())
            }
            Step::LowerCrashes { torn, fault } => {
                self.lower_crashes(alloc, torn, fault);
                Ok(())
            }
        }
    }

    /// Returns the packets that were sent, in the order of sending.
    pub fn packets(&self) -> &[Message<Payload>]
        ensures { result.now ≡ self.now.packets }
    {
        &self.packets
    }

    /// The sending core runs: its request waits.
    fn turns(&mut self, is_open: bool, moment: u64) -> Result<(), AllocError>
        ensures err { OnErr result (self.new ≡ self.old) }
        ensures ok { OnOk result (IsStep (Step.Turns is_open moment) self.old self.new) }
    {
        let Some(action) = self.sender.step(OutEvent::Turn { is_open }) else {
            return Ok(());
        };
        match named_ask(HOP, moment, action) {
            Some(ask) => self.upper.ask(0, ask),
            None => Ok(()),
        }
    }

    /// A packet arrives at the lower. If an allocation for its call fails, the core drops the packet.
    fn lower_hears(
        &mut self,
        alloc: Global,
        packet: usize,
        core: usize,
        hop: HopId,
        stamp: u64,
    ) -> Result<(), AllocError>
        ensures err { OnErr result (self.new ≡ self.old) }
        ensures ok { OnOk result (IsStep (Step.LowerHears packet core hop stamp) self.old self.new) }
    {
        let Some(message) = self.packets.get(packet) else {
            return Ok(());
        };
        let payload = payload_of(alloc, message)?;
        let Some(receiver) = self.receivers.get_mut(core) else {
            return Ok(());
        };
        let Some((number, limit)) = hear(receiver, message) else {
            return Ok(());
        };
        let take = Command::Take {
            peer: PEER,
            number,
            hop,
            stamp,
            limit,
            payload,
        };
        match self.lower.ask(core, Ask::Command(take)) {
            Ok(()) => return Ok(()),
            Err(AllocError) => {}
        }
        let _nothing = receiver.step(InEvent::Lost);
        Err(AllocError)
    }

    /// The first call that was made at the upper gets its reply, and the core's message in return goes out or is lost.
    fn upper_answers(&mut self, alloc: Global, is_sent: bool) -> Result<(), AllocError>
        ensures err { OnErr result (self.new ≡ self.old) }
        ensures ok { OnOk result (IsStep (Step.UpperAnswers is_sent) self.old self.new) }
    {
        self.packets.reserve(1)?;
        let payload = self.upper.first_bytes(alloc)?;
        let Some(made) = self.upper.answer() else {
            return Ok(());
        };
        let event = sender_event(&made.call.ask, &made.reply);
        match self.sender.step(event) {
            Some(OutAction::Send(message)) if is_sent => self
                .packets
                .push_reserved(owned_message(message, payload)),
            Some(_) | None => {}
        }
        Ok(())
    }

    /// The first call that was made at the lower gets its reply, and its core's message in return goes out or is lost.
    fn lower_answers(&mut self, alloc: Global, is_sent: bool) -> Result<(), AllocError>
        ensures err { OnErr result (self.new ≡ self.old) }
        ensures ok { OnOk result (IsStep (Step.LowerAnswers is_sent) self.old self.new) }
    {
        self.packets.reserve(1)?;
        let Some(made) = self.lower.answer() else {
            return Ok(());
        };
        let Some(receiver) = self.receivers.get_mut(made.call.core) else {
            return Ok(());
        };
        let sent = tell_answer(receiver, alloc, &made.reply);
        send(&mut self.packets, sent, is_sent);
        Ok(())
    }

    /// Another client's call is made at the upper. A call that only the core may make isn't.
    fn upper_serves(&mut self, alloc: Global, ask: Ask, is_answered: bool) -> Result<(), AllocError>
        ensures err { OnErr result (self.new ≡ self.old) }
        ensures ok { OnOk result (IsStep (Step.UpperServes ask is_answered) self.old self.new) }
    {
        let _ = &self.upper_params;
        if is_for_sender(&ask) {
            return Ok(());
        }
        self.upper.serve(alloc, ask, is_answered)
    }

    /// Another client's call is made at the lower. A call that only the cores may make isn't.
    fn lower_serves(&mut self, alloc: Global, ask: Ask, is_answered: bool) -> Result<(), AllocError>
        ensures err { OnErr result (self.new ≡ self.old) }
        ensures ok { OnOk result (IsStep (Step.LowerServes ask is_answered) self.old self.new) }
    {
        let _ = &self.upper_params;
        if is_for_receiver(&ask) {
            return Ok(());
        }
        self.lower.serve(alloc, ask, is_answered)
    }

    /// The upper crashes, and its core restarts.
    fn upper_crashes(&mut self, alloc: Global, torn: Torn, fault: Fault)
        ensures { IsStep (Step.UpperCrashes torn fault) self.old self.new }
    {
        self.upper.crash(alloc, torn, fault);
        self.sender = Sending::new(UPPER, LOWER, self.upper_params.window);
    }

    /// The lower crashes, and its cores restart.
    fn lower_crashes(&mut self, alloc: Global, torn: Torn, fault: Fault)
        ensures { IsStep (Step.LowerCrashes torn fault) self.old self.new }
    {
        self.lower.crash(alloc, torn, fault);
        begin_anew(&mut self.receivers);
    }

    /// The sending core is to resend the datagrams in flight.
    fn times_out(&mut self)
        ensures { IsStep Step.Timeout self.old self.new }
    {
        let _nothing = self.sender.step(OutEvent::Timeout);
    }

    /// A payload is fetched ahead.
    fn fetches_ahead(&mut self, number: u64) -> Result<(), AllocError>
        ensures err { OnErr result (self.new ≡ self.old) }
        ensures ok { OnOk result (IsStep (Step.FetchesAhead number) self.old self.new) }
    {
        self.upper
            .ask(0, Ask::Query(Query::Fetch { hop: HOP, number }))
    }

    /// A datagram is picked ahead.
    fn picks_ahead(&mut self, moment: u64) -> Result<(), AllocError>
        ensures err { OnErr result (self.new ≡ self.old) }
        ensures ok { OnOk result (IsStep (Step.PicksAhead moment) self.old self.new) }
    {
        let pick = Command::Pick {
            hop: HOP,
            now: moment,
        };
        self.upper.ask(0, Ask::Command(pick))
    }

    /// A packet arrives at the upper.
    fn upper_hears(&mut self, packet: usize)
        ensures { IsStep (Step.UpperHears packet) self.old self.new }
    {
        if let Some(message) = self.packets.get(packet) {
            let _nothing = self.sender.step(OutEvent::Heard(borrowed_message(message)));
        }
    }
}

/// Returns true iff it is a Pick or a Release of the hop that leads to the lower, which only its core makes.
fn is_for_sender(ask: &Ask) -> bool
    ensures { result ≡ is_for_sender (record { 0 = 1 }) ask.now }
{
    match ask {
        Ask::Command(Command::Pick { hop, .. } | Command::Release { hop, .. }) => hop.0 == HOP.0,
        Ask::Command(Command::Take { .. }) | Ask::Query(_) => false,
    }
}

/// Returns true iff it is a Take from the upper, which only the receiving cores make.
fn is_for_receiver(ask: &Ask) -> bool
    ensures { result ≡ is_for_receiver (record { 0 = 1 }) ask.now }
{
    match ask {
        Ask::Command(Command::Take { peer, .. }) => peer.0 == PEER.0,
        Ask::Command(_) | Ask::Query(_) => false,
    }
}

/// Passes a message to a receiving core, and returns the number and the limit of the Take that it requests, if it
/// requests one.
fn hear(receiver: &mut Receiving, message: &Message<Payload>) -> Option<(u64, u64)>
    ensures state { receiver.new ≡ (receiving_step receiver.old (InEvent.Heard message.now)).0 }
    ensures named { MatchOption result ((receiving_step receiver.old (InEvent.Heard message.now)).1 ≡ None)
        (λ named. (payload : List ℕ)
        × ((receiving_step receiver.old (InEvent.Heard message.now)).1
        ≡ Some (InAction.Take named.0 named.1 payload))) }
{
    match receiver.step(InEvent::Heard(borrowed_message(message))) {
        Some(InAction::Take { number, limit, .. }) => Some((number, limit)),
        Some(InAction::Send(_)) => None,
        None => None,
    }
}

/// Passes the reply to its Take to a receiving core, and returns the message that it sends, if it sends one.
fn tell_answer(receiver: &mut Receiving, alloc: Global, reply: &Reply) -> Option<Message<Payload>>
    ensures state { receiver.new ≡ (receiving_step receiver.old (InEvent.Answered (take_answer reply.now))).0 }
    ensures sent { messages_of result
        ≡ receiver_sends (receiving_step receiver.old (InEvent.Answered (take_answer reply.now))).1 }
{
    match receiver.step(InEvent::Answered(take_answer(reply))) {
        Some(InAction::Send(message)) => Some(owned_message(
            message,
            Payload::new(Vec::new(alloc)),
        )),
        Some(InAction::Take { .. }) => None,
        None => None,
    }
}

/// A message goes out, if there is one, or its send fails.
fn send(packets: &mut Vec<Message<Payload>>, message: Option<Message<Payload>>, is_sent: bool)
    requires { length packets.old.items < vec_capacity packets.old }
    ensures { packets.new.items ≡ packets.old.items ++ unless_failed is_sent (messages_of message) }
{
    match message {
        Some(message) if is_sent => packets.push_reserved(message),
        Some(_) | None => {}
    }
}

/// Makes `count` receiving cores.
fn new_receivers(alloc: Global, count: usize) -> Result<Vec<Receiving>, AllocError>
    ensures { IfOk result (λ cores. cores.items ≡ replicate count (receiver (record { 0 = 2 }) (record { 0 = 1 }))) }
{
    let mut cores = Vec::with_capacity(alloc, count)?;
    for _core in 0..count {
        cores.push(Receiving::new(LOWER, UPPER))?;
    }
    Ok(cores)
}

/// Restarts the receiving cores.
fn begin_anew(cores: &mut [Receiving])
    ensures { cores.new ≡ replicate (length cores.old) (receiver (record { 0 = 2 }) (record { 0 = 1 })) }
{
    for core in cores.iter_mut() {
        *core = Receiving::new(LOWER, UPPER);
    }
}
