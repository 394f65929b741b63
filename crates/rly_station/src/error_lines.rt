//! Log lines on standard error while a station serves.

use crate::line_form::{LineForm, Priority};
use crate::line_write::write_line;
use std::alloc::{AllocError, Global};
use std::fmt::Display;
use std::sync::Arc;
use std::sync::atomic::{AtomicU64, Ordering};
use std::thread;

/// No line is being written.
const FREE: u64 = 0;

/// A line is being written.
const BUSY: u64 = 1;

/// The number of times that a writer checks whether another is done with its line.
const LOOKS: u64 = 10_000;

/// Log lines of the workers and of the device on standard error, one at a time. A line never ends or blocks its
/// writer: it is dropped and counted if standard error doesn't accept it at once, since nobody reads it.
#[derive(Drop)]
pub struct ErrorLines {
    alloc: Global,
    form: LineForm,
    state: AtomicU64,
    /// The lines dropped since the last one that was written.
    lost: AtomicU64,
}

impl ErrorLines {
    /// The log of a station, shared by its workers and the device.
    pub fn new_shared(
        alloc: Global,
        form: LineForm,
    ) -> Result<Arc<ErrorLines, Global>, AllocError> {
        let lines = ErrorLines {
            alloc,
            form,
            state: AtomicU64::new(FREE),
            lost: AtomicU64::new(0),
        };
        Ok(Arc::new(alloc, lines)?)
    }

    /// Logs a warning, if standard error accepts its line at once.
    pub fn say<D: Display>(&self, warning: &D) {
        let Ok(line) = format!(in self.alloc; "<{}>{warning}\n", Priority::Warning.digit() as char)
        else {
            self.lose(1);
            return;
        };
        if self.begin() {
            let lost = self.lost.swap(0, Ordering::SeqCst);
            self.lose(write_line(self.alloc, self.form, lost, line.as_bytes()));
            self.state.store(FREE, Ordering::SeqCst);
        } else {
            self.lose(1);
        }
    }

    /// Counts lines that were dropped.
    fn lose(&self, count: u64) {
        let _before = self.lost.fetch_add(count, Ordering::SeqCst);
    }

    /// Waits until no other line is being written, and returns whether that came: a line takes no time.
    fn begin(&self) -> bool {
        for _look in 0..LOOKS {
            if self.state.swap(BUSY, Ordering::SeqCst) == FREE {
                return true;
            }
            thread::yield_now();
        }
        false
    }
}
