//! The content of a sender's spool.

use rly_core::{HopId, PeerId};
use rly_machine::{Ask, Command, Machine, Payload, Reply};
use rly_threads_workers::MemDesk;
use std::alloc::Global;
use std::process::Abort;

/// A spool takes a datagram from peer 1 under this number.
pub(super) fn take_for<R: Abort>(
    rt: &R,
    alloc: Global,
    machine: &mut Machine<Payload>,
    number: u64,
    hop: HopId,
    payload: &[u8],
) {
    let take = Ask::Command(Command::Take {
        peer: PeerId(1),
        number,
        hop,
        stamp: 0,
        limit: 0,
        payload: Payload::new(payload.to_vec(alloc).expect(rt, "memory")),
    });
    let reply = machine.evaluate(alloc, take);
    expect!(*rt; matches!(&reply, Ok(Reply::Taken(_))));
}

/// Checks the numbers of hop 1's datagrams that wait, are in flight and were released.
pub(super) fn expect_counts<R: Abort>(rt: &R, desk: &MemDesk, counts: (u64, u64, u64)) {
    let shown = desk.machine().ask_show(HopId(1));
    expect!(*rt; matches!(&shown, Reply::Shown(status) if (status.queued, status.flight, status.released) == counts));
}
