ghost use Rattle.std.specs.Prelude.{◌≡◌, ◌<◌, false, replicate};
ghost use Rattle.rly_station.specs.Warnings.{HasCounted, is_call_logged, kind_of, known_of, none_yet};

use crate::error_lines::ErrorLines;
use crate::file_fault::SystemWord;
use crate::logger::Logger;
use crate::warning::{SystemCall, Warning};
use std::alloc::Global;
use std::io;
use std::sync::Arc;

/// The number of failed calls per log line, after the first of a kind.
const LOGGED_EVERY: u64 = 1_000;

/// The number of kinds of failure.
const KINDS: usize = 256;

/// The failed sends of a link, or the failed reads of the device: the call, their number, the kinds so far, and the
/// logger.
#[derive(Drop)]
pub struct FailedCalls {
    call: SystemCall,
    count: u64,
    came: [bool; KINDS],
    teller: Logger,
}

impl FailedCalls {
    /// No failed calls yet.
    pub fn new(call: SystemCall, teller: Logger) -> FailedCalls
        ensures { result ≡ record { call = call; count = 0; came = replicate 256 false; teller = teller } }
    {
        FailedCalls {
            call,
            count: 0,
            came: [false; KINDS],
            teller,
        }
    }

    /// No failed reads of the device yet. They are logged on the station's lines.
    pub fn of_reads(lines: Arc<ErrorLines, Global>) -> FailedCalls
        ensures { known_of result ≡ none_yet SystemCall.Read }
    {
        FailedCalls::new(SystemCall::Read, Logger::new(lines))
    }

    /// Counts a failed call, and logs it if it is the first of its kind or one of a thousand.
    pub fn add(&mut self, error: io::Error)
        ensures { HasCounted self.old self.new error }
    {
        self.count = self.count.saturating_add(1);
        let kind = kind_of(&error);
        let is_known = self.came[kind];
        self.came[kind] = true;
        if !is_logged(is_known, self.count) {
            return;
        }
        self.teller.log(Warning::FailedCall {
            call: self.call,
            count: self.count,
            word: SystemWord(error),
        });
    }
}

/// Whether the failed call of this number is logged: if its kind occurred before, one of a thousand is.
fn is_logged(is_known: bool, count: u64) -> bool
    ensures { result ≡ is_call_logged is_known count }
{
    !is_known || count % LOGGED_EVERY == 0
}

/// The kind of a failure: the system's error number, up to the number of kinds; 0 if it has none.
pub(crate) fn kind_of(error: &io::Error) -> usize
    ensures kind { result ≡ kind_of error.now }
    ensures bound { result < 256 }
{
    match error.raw_os_error() {
        Some(code) => code.unsigned_abs().min(KINDS as u32 - 1) as usize,
        None => 0,
    }
}
