use rly_core::Refusal;
use rly_daemon_reply::StreamFault;
use rly_journal::OpenFault;
use std::alloc::AllocError;
use thiserror::Error;

/// The error of an incomplete report. The device reads as before.
#[derive(Clone, Copy, Debug, PartialEq, Eq, Error)]
pub enum AuditFault {
    /// The device wasn't opened (20 to 23), or a growth of memory was refused (14). Nothing was written.
    #[error("{0}")]
    Refused(Refusal),
    /// The writer failed. A proper prefix of the report was written.
    #[error("rly: output failed")]
    Output,
}

impl From<OpenFault> for AuditFault {
    ghost use Rattle.std.specs.Prelude.{◌≡◌};
    ghost use Rattle.rly_audit.specs.declared.fault.AuditFault.TheVariants.{Refused};
    ghost use Rattle.rly_journal.specs.Faults.{opening_refusal};

    ghost from_gives = { λ cause fault. fault ≡ Refused (opening_refusal cause) };

    fn from(cause: OpenFault) -> AuditFault {
        AuditFault::Refused(Refusal::from(cause))
    }
}

impl From<AllocError> for AuditFault {
    ghost use Rattle.std.specs.Prelude.{◌≡◌};
    ghost use Rattle.rly_core.specs.declared.refusal.Refusal.TheVariants.{OutOfMemory};
    ghost use Rattle.rly_audit.specs.declared.fault.AuditFault.TheVariants.{Refused};

    ghost from_gives = { λ _ fault. fault ≡ Refused OutOfMemory };

    fn from(_refused: AllocError) -> AuditFault {
        AuditFault::Refused(Refusal::OutOfMemory)
    }
}
