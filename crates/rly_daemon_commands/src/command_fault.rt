use crate::ids_fault::IdsFileFault;
use crate::new_key::NewKeyFault;
use rly_core::Refusal;
use rly_daemon_lines::TextFault;
use rly_link::Worker;
use rly_plan_changes::OtherStation;
use rly_station::{Cause, FileFault, ServeFault};
use thiserror::Error;

/// The error of a command; displays as the lines for standard error.
#[derive(Debug, Drop, Error)]
pub enum CommandFault {
    /// The input, the output or the memory failed.
    #[error("{0}")]
    Text(TextFault),
    /// The relay wasn't started, or didn't end well.
    #[error("{0}")]
    Serve(ServeFault),
    /// There was no thread for this worker, or for the reports or the events.
    #[error("rly: worker failed")]
    NoThread(Option<Worker>),
    /// No new key was written.
    #[error("{0}")]
    NewKey(NewKeyFault),
    /// The plan from which the differences are to be printed can't be read, or is none.
    #[error("{0}\nrly: plan: that is the one of --was")]
    Was(ServeFault),
    /// An id of both plans names another station in the second.
    #[error("rly: plan: {0}")]
    Renumbered(OtherStation),
    /// The ids of the device aren't kept, or mean other stations than those of the plan.
    #[error("{0}")]
    Ids(IdsFileFault),
    /// A device to be formatted has this many live datagrams.
    #[error("refused 23 device\nrly: device: live datagrams: {0}; --force formats it, and they are lost")]
    Live(u64),
    /// Something was refused.
    #[error("{0}{1}")]
    Refused(Refusal, Cause),
}

impl From<TextFault> for CommandFault {
    ghost use Rattle.std.specs.Prelude.{◌≡◌};
    ghost use Rattle.rly_daemon_commands.specs.declared.command_fault.CommandFault.TheVariants.{Text};

    ghost from_gives = { λ text fault. fault ≡ Text text };

    fn from(text: TextFault) -> CommandFault {
        CommandFault::Text(text)
    }
}

impl From<ServeFault> for CommandFault {
    ghost use Rattle.std.specs.Prelude.{◌≡◌};
    ghost use Rattle.rly_daemon_commands.specs.declared.command_fault.CommandFault.TheVariants.{Serve};

    ghost from_gives = { λ serve fault. fault ≡ Serve serve };

    fn from(serve: ServeFault) -> CommandFault {
        CommandFault::Serve(serve)
    }
}

impl From<NewKeyFault> for CommandFault {
    ghost use Rattle.std.specs.Prelude.{◌≡◌};
    ghost use Rattle.rly_daemon_commands.specs.declared.command_fault.CommandFault.TheVariants.{NewKey};

    ghost from_gives = { λ key fault. fault ≡ NewKey key };

    fn from(key: NewKeyFault) -> CommandFault {
        CommandFault::NewKey(key)
    }
}

impl From<FileFault> for CommandFault {
    ghost use Rattle.std.specs.Prelude.{◌≡◌};
    ghost use Rattle.rly_core.specs.declared.refusal.Refusal.TheVariants.{Device};
    ghost use Rattle.rly_daemon_commands.specs.declared.command_fault.CommandFault.TheVariants.{Refused};
    ghost use Rattle.rly_station.specs.declared.file_fault.Cause.TheVariants.{System};

    ghost from_gives = { λ file fault. fault ≡ Refused Device (System file) };

    fn from(file: FileFault) -> CommandFault {
        CommandFault::Refused(Refusal::Device, Cause::System(file))
    }
}
