ghost use Rattle.std.specs.Prelude.{◌≡◌, ◌≤◌};

use crate::control::Control;
use crate::control_law::{LONGEST_INTERVAL, step};
use std::marker::Model;

/// Number of steps in a table.
const COUNTS: usize = 1_024;

/// The control law with a table of its steps for counts 1 to 1,024; it computes the others. Most drops of a long
/// dropping phase use the table. In contracts it is its interval; the table is hidden.
#[derive(Drop)]
pub struct StepTable {
    interval: u64,
    steps: [u64; COUNTS],
}

impl Model for StepTable {
    ghost use Rattle.std.specs.Prelude.{ℕ, ◌≤◌};
    ghost use Rattle.rly_law.specs.declared.control_law.TheConstants.{LONGEST_INTERVAL};
    ghost use Rattle.rly_law.specs.HelpersTable.{IsTable};

    ghost Value = { ℕ };

    ghost view = { λ table. table.interval };

    ghost invariant = { λ table. (table.interval ≤ LONGEST_INTERVAL) × IsTable table.interval 1024 table.steps };
}

impl StepTable {
    /// Returns the law at an interval. Allocates nothing.
    pub fn new(interval: u64) -> StepTable
        requires { interval ≤ LONGEST_INTERVAL }
        ensures { result ≡ interval }
    {
        let mut steps = [0; COUNTS];
        for index in 0..COUNTS {
            steps[index] = step(interval, index as u64 + 1);
        }
        StepTable { interval, steps }
    }
}

impl Control for StepTable {
    ghost interval = { λ table. table };

    fn step(&self, count: u64) -> u64 {
        if count <= COUNTS as u64 {
            self.steps[count as usize - 1]
        } else {
            step(self.interval, count)
        }
    }
}
