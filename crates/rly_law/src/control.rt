ghost use Rattle.std.specs.Prelude.{◌≡◌, ℕ, ◌≤◌};
ghost use Rattle.rly_law.specs.ControlLaw.{IsStep, step_of};

use crate::control_law::{LONGEST_INTERVAL, step};
use std::marker::Model;

/// The control law at one interval: a dropper asks it for the time from one drop to the next.
pub trait Control {
    /// The interval, in microseconds.
    ghost interval: { Self → ℕ };

    /// Returns the time from drop number `count` of a dropping phase to the next drop, in microseconds. Allocates
    /// nothing.
    fn step(&self, count: u64) -> u64
        requires { 1 ≤ count }
        ensures greatest { IsStep (interval self.now) count result }
        ensures value { result ≡ step_of (interval self.now) count }
        ensures within { result ≤ interval self.now };
}

/// The control law, computed at each call. In contracts it is its interval.
#[derive(Drop)]
pub struct Plain {
    interval: u64,
}

impl Model for Plain {
    ghost use Rattle.std.specs.Prelude.{ℕ, ◌≤◌};
    ghost use Rattle.rly_law.specs.declared.control_law.TheConstants.{LONGEST_INTERVAL};

    ghost Value = { ℕ };

    ghost view = { λ plain. plain.interval };

    ghost invariant = { λ plain. plain.interval ≤ LONGEST_INTERVAL };
}

impl Plain {
    /// Returns the law at an interval. Allocates nothing.
    pub fn new(interval: u64) -> Plain
        requires { interval ≤ LONGEST_INTERVAL }
        ensures { result ≡ interval }
    {
        Plain { interval }
    }
}

impl Control for Plain {
    ghost interval = { λ plain. plain };

    fn step(&self, count: u64) -> u64 {
        step(self.interval, count)
    }
}
