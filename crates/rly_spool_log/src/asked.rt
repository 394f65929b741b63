//! The calls of a round, as far as a spool's log needs them.

ghost use Rattle.std.specs.Prelude.{◌≡◌, ◌≤◌, [], length, map};
ghost use Rattle.std.specs.VecDeque.{deque_capacity, deque_len};
ghost use Rattle.rly_plan.specs.ContactPlan.{destination_in};
ghost use Rattle.rly_spool_log.specs.SpoolLog.{asked_of};

use rly_core::{HopId, PeerId};
use rly_machine::{Ask, Call, Command};
use std::collections::VecDeque;

/// A call, without its payload.
#[derive(Clone, Copy, PartialEq, Eq)]
pub(crate) enum Asked {
    /// A datagram arrives: its neighbour, its hop, the destination in its payload, and its stamp.
    Take {
        peer: PeerId,
        hop: HopId,
        destination: Option<u16>,
        stamp: u64,
    },
    /// A contact of the hop is open, at this moment of its link clock, in microseconds.
    Pick {
        hop: HopId,
        now: u64,
    },
    /// The hop's station took custody.
    Release(HopId),
    /// A query.
    Query,
}

/// Adds calls to an empty list that has room for them.
pub(crate) fn add_all(asked: &mut VecDeque<Asked>, calls: &[Call])
    requires empty { (asked.old.items ≡ []) × (deque_len asked.old ≡ 0) }
    requires room { length calls.now ≤ deque_capacity asked.old }
    ensures items { asked.new.items ≡ map (λ call. asked_of call.ask) calls.now }
    ensures capacity { deque_capacity asked.new ≡ deque_capacity asked.old }
{
    for call in calls {
        asked.push_back_reserved(asked_of(&call.ask));
    }
}

/// A request, without its payload.
fn asked_of(ask: &Ask) -> Asked
    ensures { result ≡ asked_of ask.now }
{
    let Ask::Command(command) = ask else {
        return Asked::Query;
    };
    match command {
        Command::Take {
            peer,
            hop,
            stamp,
            payload,
            ..
        } => Asked::Take {
            peer: *peer,
            hop: *hop,
            destination: destination_in(payload.as_slice()),
            stamp: *stamp,
        },
        Command::Pick { hop, now } => Asked::Pick {
            hop: *hop,
            now: *now,
        },
        Command::Release { hop, .. } => Asked::Release(*hop),
    }
}

/// The destination that a payload names by its first two bytes, the greater one first: `None` if it is shorter.
fn destination_in(payload: &[u8]) -> Option<u16>
    ensures { result ≡ destination_in payload.now }
{
    if payload.len() < 2 {
        return None;
    }
    Some(u16::from(payload[0]) * 256 + u16::from(payload[1]))
}
