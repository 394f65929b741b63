//! The form of the lines on standard error.

use std::env::Env;
use std::fs::{File, Files, Metadata};
use std::os::unix::fs::MetadataExt;
use std::{env, fs};

/// The path of standard error.
const STANDARD_ERROR: &str = "/proc/self/fd/2";

/// The form of a line on standard error.
#[derive(Clone, Copy, PartialEq, Eq)]
pub enum LineForm {
    /// The text alone.
    Plain,
    /// The system's journal reads it, and takes its priority from its front.
    Journal,
}

impl LineForm {
    /// The form for the reader of standard error: the journal, if `JOURNAL_STREAM` names its device and inode.
    pub fn of<H: AllocGlobal + Env + Files<File = File>>(rt: &H) -> LineForm {
        let Ok(wanted) = env::var(rt, "JOURNAL_STREAM") else {
            return LineForm::Plain;
        };
        let Ok(stream) = fs::metadata(rt, STANDARD_ERROR) else {
            return LineForm::Plain;
        };
        if is_stream(&stream, wanted.as_str()) {
            LineForm::Journal
        } else {
            LineForm::Plain
        }
    }
}

/// Whether a text is the device and the inode of a file, as `JOURNAL_STREAM` has them.
fn is_stream(stream: &Metadata, wanted: &str) -> bool {
    let Some((device, inode)) = wanted.split_once(':') else {
        return false;
    };
    device.parse().ok() == Some(stream.dev()) && inode.parse().ok() == Some(stream.ino())
}

/// The priority of a line, for the journal (`syslog(3)`).
#[derive(Clone, Copy, PartialEq, Eq)]
pub(crate) enum Priority {
    /// The program fails.
    Failed,
    /// An operator may have something to mend.
    Warning,
    /// Anything else.
    Told,
}

impl Priority {
    /// Its digit, in ASCII.
    pub(crate) fn digit(self) -> u8 {
        match self {
            Priority::Failed => b'3',
            Priority::Warning => b'4',
            Priority::Told => b'6',
        }
    }
}
