//! What is wrong with a line that is no command, on standard error: which word of which line.

use crate::bytes::is_hexadecimal;
use crate::grammar::{parse_id, parse_number};
use libc::net::{POLLOUT, poll};
use libc::types::pollfd;
use rly_core::limits;
use std::alloc::{AllocError, Global};

/// The file descriptor of standard error.
const STANDARD_ERROR: i32 = 2;

/// What a word of a command has to be.
#[derive(Clone, Copy, PartialEq, Eq)]
enum Form {
    /// A number of at most 65,535.
    Id,
    /// A number below 2^64.
    Number,
    /// Pairs of hexadecimal digits, or a dash.
    Payload,
}

/// The words of a command after its first, each with its name, in order.
#[derive(Clone, Copy)]
struct Words {
    names: &'static str,
    forms: &'static [(&'static str, Form)],
}

const TAKE: Words = Words {
    names: "take PEER NUMBER HOP STAMP PAYLOAD [LIMIT]",
    forms: &[
        ("PEER", Form::Id),
        ("NUMBER", Form::Number),
        ("HOP", Form::Id),
        ("STAMP", Form::Number),
        ("PAYLOAD", Form::Payload),
        ("LIMIT", Form::Number),
    ],
};

const PICK: Words = Words {
    names: "pick HOP NOW",
    forms: &[("HOP", Form::Id), ("NOW", Form::Number)],
};

const DONE: Words = Words {
    names: "done HOP NUMBER",
    forms: &[("HOP", Form::Id), ("NUMBER", Form::Number)],
};

const FETCH: Words = Words {
    names: "fetch HOP NUMBER",
    forms: &[("HOP", Form::Id), ("NUMBER", Form::Number)],
};

const WINDOW: Words = Words {
    names: "window HOP",
    forms: &[("HOP", Form::Id)],
};

const SHOW: Words = Words {
    names: "show HOP",
    forms: &[("HOP", Form::Id)],
};

/// Says on standard error what is wrong with a line that is no command, if standard error takes that at once.
pub(crate) fn note_line(alloc: Global, number: u64, line: &[u8]) {
    if let Ok(note) = note_text(alloc, number, line) {
        write_at_once(note.as_bytes());
    }
}

/// The line for standard error.
fn note_text(alloc: Global, number: u64, line: &[u8]) -> Result<String, AllocError> {
    if line.len() as u64 > limits::MAX_LINE {
        return format!(in alloc;
            "rly: line {number}: longer than {} bytes\n",
            limits::MAX_LINE
        );
    }
    if line.ends_with(b"\r") {
        return format!(in alloc; "rly: line {number}: ends in a carriage return\n");
    }
    let mut words = line.split(|byte| *byte == b' ');
    let Some(command) = words.next().and_then(command_of) else {
        return format!(in alloc;
            "rly: line {number}: word 1 has to be take, pick, done, fetch, window or show\n"
        );
    };
    let mut count = 0usize;
    for word in words {
        if let Some((name, form)) = command.forms.get(count).copied() {
            if !is_of_form(word, form) {
                let (at, wanted) = (count.saturating_add(2), form_text(form));
                return format!(in alloc;
                    "rly: line {number}: word {at} has to be {name}, {wanted}\n"
                );
            }
        }
        count = count.saturating_add(1);
    }
    let names = command.names;
    format!(in alloc;
        "rly: line {number}: {} words, has to be {names}\n",
        count.saturating_add(1)
    )
}

/// The words of the command that begins with this one.
fn command_of(verb: &[u8]) -> Option<Words> {
    if verb == b"take".as_slice() {
        Some(TAKE)
    } else if verb == b"pick".as_slice() {
        Some(PICK)
    } else if verb == b"done".as_slice() {
        Some(DONE)
    } else if verb == b"fetch".as_slice() {
        Some(FETCH)
    } else if verb == b"window".as_slice() {
        Some(WINDOW)
    } else if verb == b"show".as_slice() {
        Some(SHOW)
    } else {
        None
    }
}

/// Whether a word is of a form.
fn is_of_form(word: &[u8], form: Form) -> bool {
    match form {
        Form::Id => parse_id(word).is_some(),
        Form::Number => parse_number(word).is_some(),
        Form::Payload => word == b"-".as_slice() || (!word.is_empty() && is_hexadecimal(word)),
    }
}

/// A form, in words.
fn form_text(form: Form) -> &'static str {
    match form {
        Form::Id => "a decimal number, 0 to 65535",
        Form::Number => "a decimal number below 2^64",
        Form::Payload => "pairs of hexadecimal digits, or - for no bytes",
    }
}

/// Writes to standard error in one call, if there is room for it and a reader. The rest is dropped.
fn write_at_once(line: &[u8]) {
    let mut asked = [pollfd {
        fd: STANDARD_ERROR,
        events: POLLOUT,
        revents: 0,
    }];
    if poll(&mut asked, 0) == 1 && asked[0].revents == POLLOUT {
        let _taken = libc::write(STANDARD_ERROR, line);
    }
}
