//! An output that two threads write to.

use rly_daemon_reply::write_whole;
use std::io;
use std::io::{ErrorKind, Write};
use std::sync::atomic::{AtomicU64, Ordering};
use std::sync::{Mutex, Wait};

/// An output that reports and events share. It remembers a failure.
#[derive(Drop)]
pub struct SharedOutput<'w, W: Write> {
    writer: Mutex<&'w mut W>,
    failures: AtomicU64,
}

impl<'w, W: Write> SharedOutput<'w, W> {
    /// Shares a writer.
    pub fn new(writer: &'w mut W) -> SharedOutput<'w, W> {
        SharedOutput {
            writer: Mutex::new(writer),
            failures: AtomicU64::new(0),
        }
    }

    /// Whether a write or a flush has failed.
    pub fn has_failed(&self) -> bool {
        self.failures.load(Ordering::SeqCst) != 0
    }

    /// The error of a call that failed.
    fn fail(&self) -> io::Error {
        self.failures.store(1, Ordering::SeqCst);
        io::Error::from(ErrorKind::Other)
    }
}

/// A share of an output. Each write through it is whole: no other share writes in between.
#[derive(Drop)]
pub struct OutputShare<'a, 'w, R: Wait, W: Write> {
    rt: &'a R,
    output: &'a SharedOutput<'w, W>,
}

impl<'a, 'w, R: Wait, W: Write> OutputShare<'a, 'w, R, W> {
    /// A share of an output.
    pub fn new(rt: &'a R, output: &'a SharedOutput<'w, W>) -> OutputShare<'a, 'w, R, W> {
        OutputShare { rt, output }
    }
}

impl<R: Wait, W: Write> Write for OutputShare<'_, '_, R, W> {
    fn write(&mut self, text: &[u8]) -> io::Result<usize> {
        let mut writer = self.output.writer.lock(self.rt);
        match write_whole(&mut **writer, text) {
            Ok(()) => Ok(text.len()),
            Err(_) => Err(self.output.fail()),
        }
    }

    fn flush(&mut self) -> io::Result<()> {
        let mut writer = self.output.writer.lock(self.rt);
        match writer.flush() {
            Ok(()) => Ok(()),
            Err(_) => Err(self.output.fail()),
        }
    }
}
