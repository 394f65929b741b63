use rly_daemon_commands::CommandFault;
use rly_daemon_lines::TextFault;
use rly_network_file::NetworkFault;
use rly_network_folder::{PutFault, ShelfFault};
use std::alloc::AllocError;
use thiserror::Error;

/// The error of `rly network`; displays as the lines for standard error, without the last newline.
#[derive(Debug, Drop, Error)]
pub enum NetworkCommandFault {
    /// The plan or the device of a name was refused: the index of the name, the first being 0.
    #[error("{1}")]
    Plan(usize, CommandFault),
    /// The output failed, or a growth of memory was refused.
    #[error("{0}")]
    Text(TextFault),
    /// A network file or its ids say what can't be: the lines on it, each with its newline.
    #[error("rly: network failed\n{0}")]
    Found(String),
    /// A file couldn't be read, and nothing was written.
    #[error("rly: network failed\nrly: network: {0}")]
    File(ShelfFault),
    /// The file of this path isn't UTF-8.
    #[error("rly: network failed\nrly: network: {0}: not UTF-8")]
    NotText(String),
    /// A file couldn't be put, or there is no randomness for a key. Those before it are put.
    #[error("rly: network failed\nrly: network: {0}")]
    Put(PutFault),
    /// The ids aren't at this path, but a station's plan was written by them.
    #[error("rly: network failed\nrly: network: {0}: not there, but plans were written with it; put it back, or write to another folder")]
    NoIds(String),
}

impl From<TextFault> for NetworkCommandFault {
    ghost use Rattle.std.specs.Prelude.{ℕ, List, Option};
    ghost use Rattle.rly_network_command.specs.NetworkCheck.{IsQuiet};

    ghost from_gives = { λ _ fault. (old new : Option (List ℕ)) → IsQuiet fault old new };

    fn from(fault: TextFault) -> NetworkCommandFault {
        NetworkCommandFault::Text(fault)
    }
}

impl From<ShelfFault> for NetworkCommandFault {
    fn from(fault: ShelfFault) -> NetworkCommandFault {
        NetworkCommandFault::File(fault)
    }
}

impl From<PutFault> for NetworkCommandFault {
    ghost use Rattle.rly_network_command.specs.NetworkWrite.{IsOfPut};

    ghost from_gives = { λ _ fault. IsOfPut fault };

    fn from(fault: PutFault) -> NetworkCommandFault {
        match fault {
            PutFault::OutOfMemory => NetworkCommandFault::Text(TextFault::OutOfMemory),
            fault => NetworkCommandFault::Put(fault),
        }
    }
}

impl From<NetworkFault> for NetworkCommandFault {
    fn from(fault: NetworkFault) -> NetworkCommandFault {
        match fault {
            NetworkFault::Memory => NetworkCommandFault::Text(TextFault::OutOfMemory),
            NetworkFault::Found(lines) => NetworkCommandFault::Found(lines),
        }
    }
}

impl From<AllocError> for NetworkCommandFault {
    fn from(_refused: AllocError) -> NetworkCommandFault {
        NetworkCommandFault::Text(TextFault::OutOfMemory)
    }
}
