// The interface to a station's counters.
ghost use Rattle.std.specs.Prelude.{◌∷◌, [], List, Option};
ghost use Rattle.rly_daemon_report.specs.declared.counted_report.Counted.{Counted as ACounted};
ghost use Rattle.rly_link.specs.LinkHistory.{TellsMore};

use rly_daemon_report::Counted;

/// Reads a station's counters for a reporter.
pub trait Counters {
    /// The counts read, if they are recorded.
    ghost seen: { Self → Option (List ACounted) };

    /// Reads the current counts.
    fn look(&mut self) -> Counted
        ensures { TellsMore (seen self.old) (seen self.new) (result ∷ []) };
}
