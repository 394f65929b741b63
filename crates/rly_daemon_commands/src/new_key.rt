//! A new key.

ghost use Rattle.std.specs.Prelude.{OnOk};
ghost use Rattle.rly_daemon_commands.specs.NewKey.{HasKey};

use rly_link_auth::{KEY_BYTES, key_line};
use rly_station::SystemWord;
use std::io::Write;
use std::random::RandomSource;
use thiserror::Error;

/// The error of `rly key`; displays as the lines for standard error.
#[derive(Clone, Copy, Debug, Error)]
pub enum NewKeyFault {
    /// The system has no randomness.
    #[error("rly: key failed\nrly: randomness: {0}")]
    Random(SystemWord),
    /// Standard output failed.
    #[error("rly: output failed")]
    Output,
}

/// Writes the line of a new key from a source of randomness. Nothing is proved of the source.
pub fn write_key<S: RandomSource, W: Write>(source: &S, writer: &mut W) -> Result<(), NewKeyFault>
    ensures written { OnOk result (HasKey (W.contents writer.old) (W.contents writer.new)) }
{
    let mut key = [0; KEY_BYTES];
    if let Err(error) = source.fill_bytes(&mut key) {
        return Err(NewKeyFault::Random(SystemWord(error)));
    }
    let line = key_line(&key);
    writer.write_all(&line).map_err(|_| NewKeyFault::Output)?;
    writer.flush().map_err(|_| NewKeyFault::Output)
}
