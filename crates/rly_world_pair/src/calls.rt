//! The calls of cores that wait at an end of a link, and copies of them.

ghost use Rattle.std.specs.Prelude.{◌≡◌, IfOk};
ghost use Rattle.rly_machine.specs.History.{is_failure};

use rly_core::Refusal;
use rly_machine::{Ask, Command, Payload, Reply};
use std::alloc::{AllocError, Global};
use std::marker::Model;

/// A call that isn't made yet.
#[derive(Drop)]
pub(crate) struct WaitingCall {
    /// The index of the core that requested it.
    pub core: usize,
    /// The request.
    pub ask: Ask,
}

impl Model for WaitingCall {
    ghost use Rattle.rly_world.specs.PairEnd.{Asked};

    ghost Value = { Asked };

    ghost view = { λ c. record { core = c.core; ask = c.ask } };
}

/// A call that was made and waits for its reply.
#[derive(Drop)]
pub(crate) struct MadeCall {
    /// The call.
    pub call: WaitingCall,
    /// Its reply.
    pub reply: Reply,
    /// The number of accepted commands that its reply acknowledges.
    pub position: u64,
}

impl Model for MadeCall {
    ghost use Rattle.rly_world.specs.PairEnd.{Replied};

    ghost Value = { Replied };

    ghost view = { λ m. record { call = m.call; reply = m.reply; position = m.position } };
}

/// Returns true iff a reply is not the machine's: the journal is broken, the device failed, or memory allocation
/// failed.
pub(crate) fn is_failure(reply: &Reply) -> bool
    ensures { result ≡ is_failure reply.now }
{
    matches!(
        reply,
        Reply::Refused(
            Refusal::Broken | Refusal::Unsure | Refusal::DeviceRead | Refusal::OutOfMemory
        )
    )
}

/// Returns a copy of a request.
pub(crate) fn copy_ask(alloc: Global, ask: &Ask) -> Result<Ask, AllocError>
    ensures { IfOk result (λ copy. copy ≡ ask.now) }
{
    match ask {
        Ask::Command(command) => Ok(Ask::Command(copy_command(alloc, command)?)),
        Ask::Query(query) => Ok(Ask::Query(*query)),
    }
}

/// Returns a copy of a command.
fn copy_command(alloc: Global, command: &Command<Payload>) -> Result<Command<Payload>, AllocError>
    ensures { IfOk result (λ copy. copy ≡ command.now) }
{
    match command {
        Command::Take {
            peer,
            number,
            hop,
            stamp,
            limit,
            payload,
        } => Ok(Command::Take {
            peer: *peer,
            number: *number,
            hop: *hop,
            stamp: *stamp,
            limit: *limit,
            payload: Payload::copy_of(alloc, payload.as_slice())?,
        }),
        Command::Pick { hop, now } => Ok(Command::Pick {
            hop: *hop,
            now: *now,
        }),
        Command::Release { hop, number } => Ok(Command::Release {
            hop: *hop,
            number: *number,
        }),
    }
}
