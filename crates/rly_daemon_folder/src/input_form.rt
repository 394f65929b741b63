//! The form of an input, and the file of a payload.
ghost use Rattle.std.specs.Prelude.{◌≡◌, ◌++◌, IfOk};
ghost use Rattle.rly_daemon_folder.specs.Input.{front_of};

use std::alloc::{AllocError, Global};

/// The form of an input that is put into a folder.
#[derive(Clone, Copy, Debug, PartialEq, Eq, Drop)]
pub struct InputForm {
    /// Each line is a payload, without its newline; else all of the input is one.
    pub lines: bool,
    /// The station whose two bytes come before each payload.
    pub destination: Option<u16>,
}

/// The bytes of a destination, which come before a payload.
pub(crate) fn front(alloc: Global, destination: Option<u16>) -> Result<Vec<u8>, AllocError>
    ensures { IfOk result (λ bytes. bytes.items ≡ front_of destination) }
{
    let mut bytes = Vec::new(alloc);
    if let Some(destination) = destination {
        bytes.push((destination / 256) as u8)?;
        bytes.push((destination % 256) as u8)?;
    }
    Ok(bytes)
}

/// The file of a payload.
pub(crate) fn file_of(
    alloc: Global,
    destination: Option<u16>,
    payload: &[u8],
) -> Result<Vec<u8>, AllocError>
    ensures { IfOk result (λ bytes. bytes.items ≡ front_of destination ++ payload.now) }
{
    let mut bytes = front(alloc, destination)?;
    bytes.extend_from_slice(payload)?;
    Ok(bytes)
}
