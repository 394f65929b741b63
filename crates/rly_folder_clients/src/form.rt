// Prints payloads.
ghost use Rattle.std.specs.Prelude.{◌≡◌, OnErr, OnOk, drop, if◌then◌else◌};
ghost use Rattle.std.specs.Io.KnownBytes.{Appends};
ghost use Rattle.rly_daemon_reply.specs.Beginnings.{AppendsBeginning};
ghost use Rattle.rly_folder_clients.specs.Forms.{bytes_of, newline_if};

use rly_daemon_reply::{StreamFault, write_whole};
use std::io::Write;

/// The bytes of a destination, at the front of a file.
const DESTINATION: usize = 2;

/// The form in which payloads are printed.
#[derive(Clone, Copy, Debug, PartialEq, Eq, Drop)]
pub struct Form {
    /// Each with its destination, the first two bytes of its file.
    pub raw: bool,
    /// Each as a line, with a newline behind it.
    pub lines: bool,
}

/// Writes and flushes a payload. After an `Err` a beginning of it was written, or all.
pub(crate) fn print<W: Write>(out: &mut W, form: Form, payload: &[u8]) -> Result<(), StreamFault>
    ensures whole { OnOk result (Appends (W.contents out.old) (W.contents out.new) (bytes_of form payload.now)) }
    ensures begun { OnErr result
        (AppendsBeginning (W.contents out.old) (W.contents out.new) (bytes_of form payload.now)) }
{
    write_whole(out, shown(form, payload))?;
    write_whole(out, behind(form))?;
    match out.flush() {
        Ok(()) => Ok(()),
        Err(_) => Err(StreamFault::Output),
    }
}

/// The part of a file that is printed.
fn shown(form: Form, payload: &[u8]) -> &[u8]
    ensures { result.now ≡ (if form.raw then payload.now else drop 2 payload.now) }
{
    if form.raw {
        payload
    } else {
        &payload[payload.len().min(DESTINATION)..]
    }
}

/// The bytes behind it.
fn behind(form: Form) -> &'static [u8]
    ensures { result.now ≡ newline_if form.lines }
{
    if form.lines { b"\n" } else { &[] }
}
