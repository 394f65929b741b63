//! A look at a file that was refused: whether it is a device, or a text.

ghost use Rattle.std.specs.Prelude.{◌≡◌};
ghost use Rattle.std.specs.List.{list_all};
ghost use Rattle.rly_daemon.specs.FileLook.{is_header, is_text, look_of};

use std::fs::{File, Files};
use std::os::unix::fs::FileExt;

/// The number of bytes at a file's beginning that are looked at.
const LOOKED: usize = 64;

/// What a file begins as.
#[derive(Clone, Copy, PartialEq, Eq)]
pub(crate) enum Look {
    /// A device's header.
    Device,
    /// Printable characters, spaces and newlines.
    Text,
    /// Anything else, or nothing, or the file can't be read.
    Other,
}

/// What the file at a path begins as.
pub(crate) fn look_at<H: Files<File = File>>(files: &H, path: &str) -> Look {
    let Ok(file) = File::open(files, path) else {
        return Look::Other;
    };
    let mut front = [0; LOOKED];
    match file.read_at(&mut front, 0) {
        Ok(count) => look_of(&front[..count.min(LOOKED)]),
        Err(_) => Look::Other,
    }
}

/// What these bytes are the beginning of.
fn look_of(front: &[u8]) -> Look
    ensures { result ≡ look_of front.now }
{
    if is_header(front) {
        return Look::Device;
    }
    if !front.is_empty() && has_text_alone(front) {
        return Look::Text;
    }
    Look::Other
}

/// Whether these bytes begin as a device's header does, after its gate.
fn is_header(front: &[u8]) -> bool
    ensures { result ≡ is_header front.now }
{
    front.len() >= 9 && &front[1..9] == b"RLYDEV01".as_slice()
}

/// Whether each byte is one of a text.
fn has_text_alone(front: &[u8]) -> bool
    ensures { result ≡ list_all is_text front.now }
{
    let mut alone = true;
    for byte in front {
        alone = alone & is_text(*byte);
    }
    alone
}

/// Whether a byte is a printable character, a space or a newline.
fn is_text(byte: u8) -> bool
    ensures { result ≡ is_text byte }
{
    byte == b'\n' || byte == b'\t' || byte == b'\r' || (32 <= byte && byte < 127)
}
