//! Writes to standard error for which nothing waits.

ghost use Rattle.std.specs.Prelude.{◌≡◌, ◌≤◌, ◌+◌};

use crate::line_form::{LineForm, Priority};
use libc::net::{POLLOUT, poll};
use libc::types::pollfd;
use std::alloc::Global;

/// The file descriptor of standard error.
const STANDARD_ERROR: i32 = 2;

/// The length of a line's priority: a digit in angle brackets.
pub(crate) const PRIORITY: usize = 3;

/// Writes a line, which begins with its priority and ends with a newline, and before it how many were lost, if any
/// were. Returns how many are lost now.
pub(crate) fn write_line(alloc: Global, form: LineForm, lost: u64, line: &[u8]) -> u64
    ensures { result ≤ lost + 1 }
{
    if lost > 0 && !write_lost(alloc, form, lost) {
        return lost.saturating_add(1);
    }
    if write_at_once(text_of(form, line)) {
        0
    } else {
        1
    }
}

/// Writes how many lines were lost. Returns whether it was written.
fn write_lost(alloc: Global, form: LineForm, lost: u64) -> bool {
    let digit = Priority::Warning.digit() as char;
    let told = match lost {
        1 => format!(in alloc; "<{digit}>rly: 1 line of this log was lost\n"),
        _ => format!(in alloc; "<{digit}>rly: {lost} lines of this log were lost\n"),
    };
    match told {
        Ok(told) => write_at_once(text_of(form, told.as_bytes())),
        Err(_) => false,
    }
}

/// A line in this form, of one that begins with its priority.
fn text_of(form: LineForm, line: &[u8]) -> &[u8] {
    match form {
        LineForm::Journal => line,
        LineForm::Plain => line.get(PRIORITY..).unwrap_or(&[]),
    }
}

/// Writes to standard error in one call, if there is room for it and a reader, and returns whether it did. If the reader
/// goes away just then, no signal ends the program.
fn write_at_once(line: &[u8]) -> bool {
    let mut asked = [pollfd {
        fd: STANDARD_ERROR,
        events: POLLOUT,
        revents: 0,
    }];
    if poll(&mut asked, 0) != 1 || asked[0].revents != POLLOUT {
        return false;
    }
    libc::write(STANDARD_ERROR, line) >= 0
}
