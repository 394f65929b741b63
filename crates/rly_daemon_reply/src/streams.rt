ghost use Rattle.std.specs.Prelude.{◌≡◌, ◌<◌, ◌≤◌, length, take, IfErr, IfOk, OnErr, OnOk};
ghost use Rattle.std.specs.Io.KnownBytes.{Appends, Consumes, IsAtEnd, Keeps};
ghost use Rattle.rly_daemon_reply.specs.Beginnings.{BreaksOff};

use crate::fault::StreamFault;
use std::io::{Error, ErrorKind, Read, Write};

/// Reads the bytes available now, at least one unless the input has ended. A failed read consumes nothing. Retries a
/// read that a signal interrupts.
pub fn read_some<R: Read>(reader: &mut R, buffer: &mut [u8]) -> Result<usize, StreamFault>
    ensures bound { IfOk result (λ count. count ≤ length buffer.new) }
    ensures bytes { IfOk result
        (λ count. Consumes (R.remaining reader.old) (R.remaining reader.new) (take count buffer.new)) }
    ensures end { IfOk result (λ count. count ≡ 0 → 0 < length buffer.old → IsAtEnd (R.remaining reader.new)) }
    ensures err { OnErr result (Keeps (R.remaining reader.old) (R.remaining reader.new)) }
    ensures fault { IfErr result (λ fault. fault ≡ StreamFault.Input) }
{
    for _try in 0..u64::MAX {
        match reader.read(buffer) {
            Ok(count) => return Ok(count),
            Err(error) => {
                if !is_interrupted(&error) {
                    return Err(StreamFault::Input);
                }
            }
        }
    }
    Err(StreamFault::Input)
}

/// Writes all of a text. On an error, a proper prefix of it was written. Retries a write that a signal interrupts.
pub fn write_whole<W: Write>(writer: &mut W, text: &[u8]) -> Result<(), StreamFault>
    ensures whole { OnOk result (Appends (W.contents writer.old) (W.contents writer.new) text.now) }
    ensures begun { OnErr result (BreaksOff (W.contents writer.old) (W.contents writer.new) text.now) }
    ensures fault { IfErr result (λ fault. fault ≡ StreamFault.Output) }
{
    let mut written = 0;
    while written < text.len() {
        let count = write_some(writer, &text[written..])?;
        if count == 0 {
            return Err(StreamFault::Output);
        }
        written += count;
    }
    Ok(())
}

/// Writes a prefix of some text.
fn write_some<W: Write>(writer: &mut W, text: &[u8]) -> Result<usize, StreamFault>
    ensures bound { IfOk result (λ count. count ≤ length text.now) }
    ensures bytes { IfOk result
        (λ count. Appends (W.contents writer.old) (W.contents writer.new) (take count text.now)) }
    ensures err { OnErr result (Keeps (W.contents writer.old) (W.contents writer.new)) }
    ensures fault { IfErr result (λ fault. fault ≡ StreamFault.Output) }
{
    for _try in 0..u64::MAX {
        match writer.write(text) {
            Ok(count) => return Ok(count),
            Err(error) => {
                if !is_interrupted(&error) {
                    return Err(StreamFault::Output);
                }
            }
        }
    }
    Err(StreamFault::Output)
}

fn is_interrupted(error: &Error) -> bool {
    error.kind() == ErrorKind::Interrupted
}
