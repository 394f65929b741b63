//! The log of what stops a folder that plays a neighbour.

ghost use Rattle.std.specs.Prelude.{◌≡◌, ◌++◌, ◌||◌, IfOk, max, nat_lt};
ghost use Rattle.rly_folder_file.specs.FileFolder.{file_state};
ghost use Rattle.rly_posts.specs.FolderLog.{CountsIf, HasNotedCalls, HasNotedPhase, foreign_warnings, log_view, new_log};
ghost use Rattle.rly_posts.specs.FolderLog.{stop_of};
ghost use Rattle.rly_station.specs.Warnings.{logged_warnings};

use rly_folder::Folder;
use rly_folder_file::FileFolder;
use rly_link::Worker;
use rly_link_folder::{Phase, is_for_good};
use rly_link_udp::Signals;
use rly_station::{FailedCalls, FolderStop, Logger, SystemCall, Warning};
use std::alloc::{AllocError, Global};
use std::fs::{File, Files};
use std::io;
use std::io::ErrorKind;

/// Logs what stops a folder that plays a worker's neighbour: of its failed calls the first of each kind and every
/// thousandth; once that a name in it is foreign; and each time that no file is given any more, why.
#[derive(Drop)]
pub(crate) struct FolderLog {
    worker: Worker,
    failed_calls: FailedCalls,
    /// The number of the folder's failed calls so far.
    failures: u64,
    /// A foreign name was logged.
    is_foreign: bool,
    /// No file is given, which was logged.
    is_stopped: bool,
    teller: Logger,
}

impl FolderLog {
    /// The log of a worker's folder: nothing yet.
    pub(crate) fn new(worker: Worker, signals: &Signals) -> Result<FolderLog, AllocError>
        ensures { IfOk result (λ log. log_view log ≡ new_log worker) }
    {
        Ok(FolderLog {
            worker,
            failed_calls: FailedCalls::new(SystemCall::Folder(worker), signals.logger()?),
            failures: 0,
            is_foreign: false,
            is_stopped: false,
            teller: signals.logger()?,
        })
    }

    /// Calls of the folder were made: counts one that failed, if any did, and logs the first foreign name.
    pub(crate) fn note<H: Files<File = File> + Alloc<A = Global> + Clone + Drop>(
        &mut self,
        folder: &FileFolder<H>,
    )
        ensures { HasNotedCalls folder.now self.old self.new }
    {
        self.note_failure(folder);
        self.note_foreign(folder.foreign().first.is_some());
    }

    fn note_failure<H: Files<File = File> + Alloc<A = Global> + Clone + Drop>(
        &mut self,
        folder: &FileFolder<H>,
    )
        ensures counts { CountsIf (nat_lt self.old.failures (file_state folder.now).failures)
            self.old.failed_calls self.new.failed_calls }
        ensures failures { self.new.failures ≡ max self.old.failures (file_state folder.now).failures }
        ensures rest { self.new
            ≡ record self.old { failed_calls = self.new.failed_calls; failures = self.new.failures } }
    {
        let failures = folder.failures();
        if self.failures < failures {
            self.failures = failures;
            self.failed_calls.add(word_of(folder));
        }
    }

    /// Whether the folder has shown a foreign name.
    fn note_foreign(&mut self, is_foreign: bool)
        ensures told { logged_warnings self.new.teller
            ≡ logged_warnings self.old.teller ++ foreign_warnings self.old.worker self.old.is_foreign is_foreign }
        ensures rest { self.new
            ≡ record self.old { is_foreign = self.old.is_foreign || is_foreign; teller = self.new.teller } }
    {
        if is_foreign && !self.is_foreign {
            self.is_foreign = true;
            self.teller.log(Warning::ForeignName(self.worker));
        }
    }

    /// The neighbour that the folder plays is in this state now.
    pub(crate) fn note_phase(&mut self, phase: Phase)
        ensures { HasNotedPhase phase self.old self.new }
    {
        let worker = self.worker;
        let was_stopped = self.is_stopped;
        let stop = stop_of(phase);
        self.is_stopped = stop.is_some();
        match stop {
            Some(stop) if !was_stopped => self.teller.log(Warning::NoFile { worker, stop }),
            _ => {}
        }
    }
}

/// The system's error of a folder's last failed call.
fn word_of<H: Files<File = File> + Alloc<A = Global> + Clone + Drop>(
    folder: &FileFolder<H>,
) -> io::Error {
    match folder.fault() {
        Some(fault) => fault.word,
        None => io::Error::from(ErrorKind::Other),
    }
}

/// Why no file is given in this state, if none is until the station starts anew or a Custody comes.
fn stop_of(phase: Phase) -> Option<FolderStop>
    ensures { result ≡ stop_of phase }
{
    match phase {
        Phase::Apart {
            custody,
            least,
            greatest,
        } => Some(FolderStop::Apart {
            custody,
            least,
            greatest,
        }),
        Phase::Refused { number, refusal } if is_for_good(refusal) => {
            Some(FolderStop::File { number, refusal })
        }
        Phase::QuestionRefused { refusal } if is_for_good(refusal) => {
            Some(FolderStop::Question { refusal })
        }
        Phase::Refused { .. } | Phase::QuestionRefused { .. } => None,
        Phase::Failed | Phase::Asking | Phase::Asked | Phase::Serving => None,
    }
}
