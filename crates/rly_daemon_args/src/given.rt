use clap::error::ErrorKind;
use rly_core::Params;
use std::alloc::AllocError;
use thiserror::Error;

/// The request of a command line. Numbers are as given: their limits aren't checked yet.
#[derive(Clone, Copy)]
pub enum Settings<'a> {
    /// Commands from standard input on a machine in memory.
    Sim {
        /// The parameters of the spool.
        params: Params,
    },
    /// A new device in a file.
    Format {
        /// The path of the file.
        file: &'a str,
        /// The parameters of the spool; with `--keep-all` those of a CoDel that drops nothing for two hours.
        params: Params,
        /// Segments of the device.
        segments: u64,
        /// The length of each segment in bytes: `None` for the minimum.
        length: Option<u64>,
        /// Whether live datagrams on the device may be lost.
        force: bool,
        /// Whether the device's room on its disk is taken first.
        allocate: bool,
    },
    /// Commands from standard input on the device in a file.
    Play {
        /// The path of the file.
        file: &'a str,
        /// The number of lines per round, 1 to 64.
        batch: u64,
    },
    /// A report on the device in a file.
    Audit {
        /// The path of the file.
        file: &'a str,
        /// Whether only the line of what the device was made with is printed.
        made: bool,
        /// Whether the file is a copy, which is read without a lock.
        copy: bool,
    },
    /// A relay between the neighbours of a plan, on the device in a file.
    Serve {
        /// The path of the device's file.
        file: &'a str,
        /// The path of the plan's file.
        plan: &'a str,
        /// The number of turns of each worker: 0 = run until stopped.
        turns: u64,
        /// Seconds between two reports: 0 = off.
        report: u64,
        /// Milliseconds for which a round waits for more calls, 0 to 60,000: 0 = not at all.
        gather: u64,
        /// Whether the events of its hops are written.
        events: bool,
        /// Whether an id may name another station than the one that is kept of the device.
        renumber: bool,
        /// Whether a link that can't be opened is tried again while the others are served.
        patient: bool,
    },
    /// A new key of a link.
    Key,
    /// A plan with the state of its links at a moment.
    Plan {
        /// The path of the plan's file.
        plan: &'a str,
        /// The moment in microseconds since the Unix epoch, below 2^52: `None` for now.
        at: Option<u64>,
        /// The path of the device whose CoDel is told for each hop: `None` for none.
        device: Option<&'a str>,
        /// The path of another plan's file, from which the differences are printed in place of the plan: `None` for none.
        was: Option<&'a str>,
    },
    /// Standard input is put into the folder of a peer.
    Put {
        /// The path of the folder.
        folder: &'a str,
        /// Whether each line is a file of its own.
        lines: bool,
        /// The station whose two bytes come before each payload, 1 to 65,535.
        destination: Option<u64>,
        /// The age limit of each payload in milliseconds, 1 to 1,099,511,627: `None` for that of the station's plan.
        limit: Option<u64>,
        /// Seconds for which it waits for the station's custody after its last file: `None` = not at all.
        wait: Option<u64>,
    },
    /// The files in the folder of a hop are printed and removed.
    Get {
        /// The path of the folder.
        folder: &'a str,
        /// Whether a newline follows each payload.
        lines: bool,
        /// Whether each payload is printed with its destination.
        raw: bool,
        /// The maximum number of payloads to print: `None` for no maximum.
        count: Option<u64>,
        /// Whether it waits for more.
        follow: bool,
    },
    /// What the plans of a network, or one network file, disagree on.
    NetworkCheck {
        /// The paths of the plans, each with `=` and its device's if that is given, or that of the network file.
        names: &'a [&'a str],
    },
    /// The files of each station of a network are written.
    NetworkWrite {
        /// The path of the network file.
        file: &'a str,
        /// The path of the folder that has a folder for each station.
        folder: &'a str,
        /// Whether the stations that got something new are printed.
        changed: bool,
    },
    /// The picture of a network.
    NetworkDraw {
        /// The path of the network file.
        file: &'a str,
    },
}

/// The fault of a command line without settings.
#[derive(Debug, Drop, Error)]
pub enum SettingsFault {
    /// A request for help or the version; displays as the answer.
    #[error("{0}")]
    Asked(clap::Error),
    /// A bad command line; displays as the reason.
    #[error("{0}")]
    CommandLine(clap::Error),
    /// A growth of memory was refused.
    #[error("refused 14 memory")]
    OutOfMemory,
}

impl From<AllocError> for SettingsFault {
    ghost use Rattle.std.specs.Prelude.{◌≡◌};
    ghost use Rattle.rly_daemon_args.specs.declared.given.SettingsFault.TheVariants as fault;

    ghost from_gives = { λ _ told. told ≡ fault.OutOfMemory };

    fn from(_refused: AllocError) -> SettingsFault {
        SettingsFault::OutOfMemory
    }
}

impl From<clap::Error> for SettingsFault {
    ghost use Rattle.rly_daemon_args.specs.CommandLine.{IsReportedAs};

    ghost from_gives = { λ error fault. IsReportedAs error fault };

    fn from(error: clap::Error) -> SettingsFault {
        if error.kind() == ErrorKind::OutOfMemory {
            SettingsFault::OutOfMemory
        } else if error.use_stderr() {
            SettingsFault::CommandLine(error)
        } else {
            SettingsFault::Asked(error)
        }
    }
}
