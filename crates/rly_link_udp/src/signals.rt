//! The resources that the workers of a station share.

ghost use Rattle.std.specs.Prelude.{◌≡◌, IfOk, []};
ghost use Rattle.rly_station.specs.Warnings.{logged_warnings};

use crate::bells::Bells;
use crate::sender_waker::SenderWaker;
use rly_plan::Plan;
use rly_station::{ErrorLines, Logger, ServeFault};
use std::alloc::{AllocError, Global};
use std::sync::Arc;

/// The bells of a station's workers, and its log. Each worker shares both, and the device shares the log.
#[derive(Drop)]
pub struct Signals {
    bells: Arc<Bells, Global>,
    lines: Arc<ErrorLines, Global>,
}

impl Signals {
    /// Those of a plan's station. `Err` if the system or memory refuses them.
    pub fn open(
        alloc: Global,
        plan: &Plan,
        lines: Arc<ErrorLines, Global>,
    ) -> Result<Signals, ServeFault> {
        let bells = Bells::open(alloc, plan)?;
        match Arc::new(alloc, bells) {
            Ok(bells) => Ok(Signals { bells, lines }),
            Err(_) => Err(AllocError.into()),
        }
    }

    /// A share of the bells.
    pub(crate) fn bells(&self) -> Result<Arc<Bells, Global>, AllocError> {
        self.bells.clone()
    }

    /// A waker with all bells.
    pub fn waker(&self) -> Result<SenderWaker, AllocError> {
        Ok(SenderWaker::new(self.bells()?))
    }

    /// A share of the log's lines.
    pub(crate) fn lines(&self) -> Result<Arc<ErrorLines, Global>, AllocError> {
        self.lines.clone()
    }

    /// The logger of a worker.
    pub fn logger(&self) -> Result<Logger, AllocError>
        ensures { IfOk result (λ teller. logged_warnings teller ≡ []) }
    {
        let lines = self.lines.clone()?;
        Ok(Logger::new(lines))
    }
}
