//! Standard error of a program that nothing may hold up.

ghost use Rattle.std.specs.Prelude.{◌≡◌, ◌≤◌, length};

use crate::line_form::{LineForm, Priority};
use crate::line_write::{PRIORITY, write_line};
use std::alloc::Global;
use std::io;
use std::io::{ErrorKind, Write};

/// The longest line in bytes that is one write, with its priority. A longer one is several.
const LONGEST: usize = 4_096;

/// Standard error, line by line. Each line is a write, for which nothing waits: one that standard error doesn't accept at
/// once, since nobody reads it, is an error, and is counted; the next line that is accepted says how many were lost.
#[derive(Drop)]
pub struct ErrorOutput {
    alloc: Global,
    form: LineForm,
    /// The line so far, after the place of its priority.
    line: [u8; LONGEST],
    length: usize,
    /// The front of the line was written already, since it is a long one.
    is_begun: bool,
    /// The lines lost since the last one that was written.
    lost: u64,
    /// A line told that the program fails, as those after it do.
    is_fault: bool,
}

impl ErrorOutput {
    /// Standard error with nothing written yet.
    pub fn new(alloc: Global, form: LineForm) -> ErrorOutput {
        ErrorOutput {
            alloc,
            form,
            line: [0; LONGEST],
            length: PRIORITY,
            is_begun: false,
            lost: 0,
            is_fault: false,
        }
    }

    /// Adds a byte to the line, whose front is written if there is no room for it.
    fn add(&mut self, byte: u8) -> io::Result<()> {
        if self.length >= LONGEST {
            self.write_out()?;
        }
        let place = self.length.min(LONGEST - 1);
        self.line[place] = byte;
        self.length = place + 1;
        Ok(())
    }

    /// Writes the line so far, and begins the next one if it is whole. Fails if it wasn't accepted.
    fn write_out(&mut self) -> io::Result<()> {
        let length = self.length.max(PRIORITY).min(LONGEST);
        self.length = PRIORITY;
        let is_fault = is_fault(&self.line[PRIORITY..length]);
        self.is_fault = self.is_fault || is_fault;
        let priority = match self.is_fault {
            true => Priority::Failed,
            false => Priority::Told,
        };
        self.line[0] = b'<';
        self.line[1] = priority.digit();
        self.line[2] = b'>';
        let form = match self.is_begun {
            true => LineForm::Plain,
            false => self.form,
        };
        self.is_begun = self.line[length - 1] != b'\n';
        self.lost = write_line(self.alloc, form, self.lost, &self.line[..length]);
        if self.lost == 0 {
            return Ok(());
        }
        Err(io::Error::from(ErrorKind::WouldBlock))
    }
}

impl Write for ErrorOutput {
    fn write(&mut self, text: &[u8]) -> io::Result<usize> {
        for (place, byte) in text.iter().enumerate() {
            self.add(*byte)?;
            if *byte == b'\n' {
                self.write_out()?;
                return Ok(place + 1);
            }
        }
        Ok(text.len())
    }

    fn flush(&mut self) -> io::Result<()> {
        if self.length > PRIORITY {
            return self.write_out();
        }
        Ok(())
    }
}

/// Whether a line says that the program fails: a refusal, a command line that is none, or a part that failed.
fn is_fault(line: &[u8]) -> bool {
    line.starts_with(b"refused ") || line.starts_with(b"error: ") || line.ends_with(b" failed\n")
}
