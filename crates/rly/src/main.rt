//! The program `rly`: hands its command line and streams to `rly_daemon::run`, and exits with its
//! status. Nothing waits for standard error.
#![tactic(auto)]

use rly_daemon::{ErrorOutput, LineForm, TextFault};
use std::io::{ErrorKind, Write};
use std::process::ExitCode;
use std::{env, io};

fn main(rt: HostRuntime) -> ExitCode {
    let mut errors = ErrorOutput::new(rt.alloc(), LineForm::of(&rt));
    let status = match words_of(&rt) {
        Ok(words) => rly_daemon::run(
            &rt,
            words.as_slice(),
            &mut rt.reader(),
            &mut io::writer(&rt),
            &mut errors,
        ),
        Err(error) => tell(&error, &mut errors),
    };
    // Ignore errors: nowhere left to report.
    let _told = errors.flush();
    ExitCode::from(status)
}

/// The words of the command line, the program's name first.
fn words_of(rt: &HostRuntime) -> io::Result<Vec<String>> {
    let words: Vec<String> = env::args(rt)?.collect(rt.alloc())?;
    Ok(words)
}

/// Writes the reason to standard error why there are no words, and returns the status: 1 if memory was refused, 2
/// if a word is not UTF-8.
fn tell<E: Write>(error: &io::Error, errors: &mut E) -> u8 {
    // Ignore errors: nowhere left to report.
    if error.kind() == ErrorKind::OutOfMemory {
        let _told = writeln!(errors, "{}", TextFault::OutOfMemory);
        return 1;
    }
    let _told = writeln!(errors, "rly: the command line is not UTF-8");
    2
}
