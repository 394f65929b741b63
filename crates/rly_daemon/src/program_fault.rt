use rly_daemon_commands::CommandFault;
use rly_daemon_folder::FolderCommandFault;
use rly_network_command::NetworkCommandFault;
use thiserror::Error;

/// The error of the program; displays as the lines for standard error.
#[derive(Debug, Drop, Error)]
pub(crate) enum ProgramFault {
    /// The error of a command on a device, a plan or lines.
    #[error("{0}")]
    Command(CommandFault),
    /// The error of `put` or `get`.
    #[error("{0}")]
    Folder(FolderCommandFault),
    /// The error of `network`.
    #[error("{0}")]
    Network(NetworkCommandFault),
    /// The plans of a network disagree, which was printed.
    #[error("")]
    Disagreement,
}

impl ProgramFault {
    ghost use Rattle.std.specs.Prelude.{◌≡◌, IfErr, false};
    ghost use Rattle.rly_daemon.specs.Program.{is_wait_over};
    ghost use Rattle.rly_daemon.specs.Helpers.{as_command};

    /// The same outcome as one of the program.
    pub(crate) fn of(outcome: Result<(), CommandFault>) -> Result<(), ProgramFault>
        ensures same { result ≡ as_command outcome }
        ensures over { IfErr result (λ fault. is_wait_over fault ≡ false) }
    {
        match outcome {
            Ok(()) => Ok(()),
            Err(fault) => Err(ProgramFault::Command(fault)),
        }
    }

    /// Returns true iff a wait for custody is over.
    pub(crate) fn is_wait_over(&self) -> bool
        ensures { result ≡ is_wait_over self.now }
    {
        match self {
            ProgramFault::Command(_) => false,
            ProgramFault::Folder(fault) => fault.is_over(),
            ProgramFault::Network(_) => false,
            ProgramFault::Disagreement => false,
        }
    }
}
