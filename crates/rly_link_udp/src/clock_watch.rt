ghost use Rattle.std.specs.Prelude.{◌≡◌, None};
ghost use Rattle.rly_link_udp.specs.ClockWatch.{HasRead, step_between};

use crate::bells::Bells;
use rly_station::{ClockStep, Logger, Warning};
use std::alloc::Global;
use std::sync::Arc;

/// Readings of the two clocks at once, in microseconds.
#[derive(Clone, Copy, PartialEq, Eq)]
pub(crate) struct Reading {
    /// The wall clock.
    pub(crate) wall: u64,
    /// The monotonic clock.
    pub(crate) steady: u64,
}

/// The maximum drift of the wall clock against the monotonic one between two readings, in microseconds: a clock
/// that is only slewed stays far below.
const SLACK: u128 = 1_000_000;

/// Logs steps of the wall clock, and wakes all workers then, since a contact may have begun or ended: has the last
/// readings, if the clocks were read.
#[derive(Drop)]
pub(crate) struct ClockWatch {
    before: Option<Reading>,
    teller: Logger,
    bells: Arc<Bells, Global>,
}

impl ClockWatch {
    pub(crate) fn new(teller: Logger, bells: Arc<Bells, Global>) -> ClockWatch
        ensures { result ≡ record { before = None; teller = teller; bells = bells } }
    {
        ClockWatch {
            before: None,
            teller,
            bells,
        }
    }

    /// Takes new readings: logs a step of the wall clock since the last ones, and wakes all workers then. The first ones
    /// wake them too: a worker that read the clock before may sleep by one that was set since.
    pub(crate) fn note(&mut self, reading: Reading)
        ensures { HasRead self.old self.new reading }
    {
        let before = self.before;
        self.before = Some(reading);
        let Some(before) = before else {
            self.bells.wake_all();
            return;
        };
        if let Some(step) = step_between(before, reading) {
            self.teller.log(Warning::ClockSet(step));
            self.bells.wake_all();
        }
    }
}

/// The step of the wall clock between two readings: it moved against the monotonic one by more than a second.
fn step_between(before: Reading, after: Reading) -> Option<ClockStep>
    ensures { result ≡ step_between before after }
{
    let shown = u128::from(after.wall) + u128::from(before.steady);
    let due = u128::from(before.wall) + u128::from(after.steady);
    if shown.saturating_sub(due) > SLACK {
        return Some(ClockStep::Forward(shown - due));
    }
    if due.saturating_sub(shown) > SLACK {
        return Some(ClockStep::Back(due - shown));
    }
    None
}
