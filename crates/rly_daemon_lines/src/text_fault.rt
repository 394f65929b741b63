use rly_daemon_reply::StreamFault;
use std::alloc::AllocError;
use thiserror::Error;

/// The error of a command that stopped before the end of its input. A prefix of its text was written.
#[derive(Clone, Copy, Debug, PartialEq, Eq, Error)]
pub enum TextFault {
    /// The reader failed, or gave 2^64 - 1 bytes or more.
    #[error("rly: input failed")]
    Input,
    /// The writer failed.
    #[error("rly: output failed")]
    Output,
    /// A growth of memory was refused.
    #[error("refused 14 memory")]
    OutOfMemory,
}

impl From<AllocError> for TextFault {
    ghost use Rattle.std.specs.Prelude.{◌≡◌};
    ghost use Rattle.rly_daemon_lines.specs.declared.text_fault.TextFault.TheVariants.{OutOfMemory};

    ghost from_gives = { λ _ fault. fault ≡ OutOfMemory };

    fn from(_refused: AllocError) -> TextFault {
        TextFault::OutOfMemory
    }
}

impl From<StreamFault> for TextFault {
    ghost use Rattle.std.specs.Prelude.{◌≡◌};
    ghost use Rattle.rly_daemon_lines.specs.Text.{stream_fault};

    ghost from_gives = { λ stream fault. fault ≡ stream_fault stream };

    fn from(stream: StreamFault) -> TextFault {
        match stream {
            StreamFault::Input => TextFault::Input,
            StreamFault::Output => TextFault::Output,
        }
    }
}
