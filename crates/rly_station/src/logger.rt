ghost use Rattle.std.specs.Prelude.{◌≡◌, ◌∷◌, ◌++◌, []};
ghost use Rattle.rly_station.specs.Warnings.{logged_warnings};

use crate::error_lines::ErrorLines;
use crate::warning::Warning;
use http_server::Log;
use std::alloc::Global;
use std::sync::Arc;

/// The logger of a worker, or of the device. The model: the warnings logged.
#[derive(Drop)]
pub struct Logger {
    lines: Arc<ErrorLines, Global>,
    // The warnings logged, which takes no memory.
    told: Log<Warning, ()>,
}

impl Logger {
    /// It told nothing yet.
    pub fn new(lines: Arc<ErrorLines, Global>) -> Logger
        ensures { logged_warnings result ≡ [] }
    {
        Logger {
            lines,
            told: Log::new(),
        }
    }

    /// Logs a warning on standard error.
    pub fn log(&mut self, warning: Warning)
        ensures { logged_warnings self.new ≡ logged_warnings self.old ++ warning ∷ [] }
    {
        self.lines.say(&warning);
        self.told = self.told.and(&warning, &());
    }
}
