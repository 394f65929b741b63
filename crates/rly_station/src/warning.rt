//! The warnings of a serving station.

use crate::file_fault::SystemWord;
use crate::folder_stop::FolderStop;
use crate::link_cause::{CountedCause, LinkCause};
use crate::spool_warning::SpoolWarning;
use crate::worker_name::WorkerName;
use rly_link::Worker;
use std::fmt;
use std::fmt::{Display, Formatter};

/// A step of the wall clock, in microseconds; displays as its text in the log.
#[derive(Clone, Copy, PartialEq, Eq)]
pub enum ClockStep {
    Forward(u128),
    Back(u128),
}

impl Display for ClockStep {
    ghost use Rattle.std.specs.Prelude.{Some};
    ghost use Rattle.rly_station.specs.Warnings.{step_text};

    ghost output = { λ step. Some (step_text step) };

    fn fmt<W: fmt::Write>(&self, f: &mut Formatter<W>) -> fmt::Result {
        match self {
            ClockStep::Forward(by) => write!(f, "the clock was set ahead by {} ms", by / 1_000),
            ClockStep::Back(by) => write!(f, "the clock was set back by {} ms", by / 1_000),
        }
    }
}

/// The calls of the system whose failures are logged; displays as the owner and the call.
#[derive(Clone, Copy, PartialEq, Eq)]
pub enum SystemCall {
    /// The sends of a worker's link.
    Send(Worker),
    /// The reads of the device.
    Read,
    /// The calls of the folder that plays a worker's neighbour.
    Folder(Worker),
}

impl Display for SystemCall {
    ghost use Rattle.std.specs.Prelude.{Some};
    ghost use Rattle.rly_station.specs.Warnings.{call_text};

    ghost output = { λ call. Some (call_text call) };

    fn fmt<W: fmt::Write>(&self, f: &mut Formatter<W>) -> fmt::Result {
        match self {
            SystemCall::Send(worker) => write!(f, "{}: send failed", WorkerName(*worker)),
            SystemCall::Read => write!(f, "device: read failed"),
            SystemCall::Folder(worker) => write!(f, "{}: folder call failed", WorkerName(*worker)),
        }
    }
}

/// A warning of a serving station; displays as the line for standard error, without its newline.
#[derive(Clone, Copy)]
pub enum Warning {
    /// A call failed: the call, the number of failures so far, and the system's error.
    FailedCall {
        call: SystemCall,
        count: u64,
        word: SystemWord,
    },
    /// A packet had a wrong tag: the link's worker, and the number of such packets so far.
    WrongTag {
        worker: Worker,
        count: u64,
    },
    /// A link showed what stops it: the link's worker, the cause, and the number of its kind so far.
    Link {
        worker: Worker,
        cause: LinkCause,
        count: u64,
    },
    /// The wall clock was set.
    ClockSet(ClockStep),
    /// No file of a peer's folder is given any more: the link's worker, and why.
    NoFile {
        worker: Worker,
        stop: FolderStop,
    },
    /// A name in a folder isn't the folder's, and is ignored.
    ForeignName(Worker),
    /// A link's receive buffer is smaller than it wants, in bytes: the system has a limit.
    SmallBuffer {
        wanted: u32,
        granted: u32,
    },
    /// The spool discarded a datagram, or is nearly full.
    Spool(SpoolWarning),
}

impl Display for Warning {
    ghost use Rattle.rly_station.specs.Warnings.{warning_text};

    ghost output = { λ warning. warning_text warning };

    fn fmt<W: fmt::Write>(&self, f: &mut Formatter<W>) -> fmt::Result {
        match self {
            Warning::FailedCall { call, count, word } => {
                write!(f, "rly: {call} ({count} so far): {word}")
            }
            Warning::WrongTag { worker, count } => write!(
                f,
                "rly: {}: wrong tag ({count} so far): the same key at both ends?",
                WorkerName(*worker)
            ),
            Warning::Link {
                worker,
                cause,
                count,
            } => {
                let cause = CountedCause {
                    cause: *cause,
                    count: *count,
                };
                write!(f, "rly: {}: {cause}", WorkerName(*worker))
            }
            Warning::ClockSet(step) => write!(f, "rly: {step}"),
            Warning::NoFile { worker, stop } => write!(f, "rly: {}: {stop}", WorkerName(*worker)),
            Warning::ForeignName(worker) => write!(
                f,
                "rly: {}: foreign name in the folder ignored",
                WorkerName(*worker)
            ),
            Warning::SmallBuffer { wanted, granted } => write!(
                f,
                "rly: receive buffer of {granted} bytes: set net.core.rmem_max to {wanted}"
            ),
            Warning::Spool(warning) => write!(f, "rly: {warning}"),
        }
    }
}
