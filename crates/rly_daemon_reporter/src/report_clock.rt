// The interface that schedules reports.
ghost use Rattle.std.specs.Prelude.{◌∷◌, [], List, Option, ℕ};
ghost use Rattle.rly_link.specs.LinkHistory.{TellsMore};

use std::sync::Wait;

/// Schedules the reports, and stops the reporter.
pub trait ReportClock {
    /// The moments of the reports, and the stop, if they are recorded.
    ghost told: { Self → Option (List (Option ℕ)) };

    /// Waits until a report is due, and returns the moment, in microseconds since the Unix epoch. `None`: no more
    /// are due.
    fn next<R: Wait>(&mut self, rt: &R) -> Option<u64>
        ensures { TellsMore (told self.old) (told self.new) (result ∷ []) };
}
