ghost use Rattle.std.specs.Prelude.{◌≡◌, ◌+◌, ◌<◌, ◌≤◌, ◌^◌, length, is_ok};
ghost use Rattle.rly_disk.specs.Trace.{Makes};
ghost use Rattle.rly_gate.specs.Calls.{append_calls};
ghost use Rattle.rly_gate.specs.Group.{body_in, frame_of};

use crate::durable_write::settle;
use crate::gate::{CLOSED_GATE, LENGTH_BYTES, OPEN_GATE};
use byteorder::{BigEndian, ByteOrder};
use rly_disk::{Disk, DiskFault};

/// Appends a group at a closed gate: makes the frame durable, and then opens the gate. The frame is 4 bytes, the body
/// and 1 byte; the call overwrites the 4 with the body's length and the last with a closed gate. `law_append` states
/// the effect of a crash at any moment of the call.
pub fn append_group<D: Disk>(disk: &mut D, at: u64, frame: &mut [u8]) -> Result<(), DiskFault>
    requires frame { 5 ≤ length frame.old }
    requires body_fits { length frame.old < 2 ^ 32 }
    requires place_fits { at + 1 < 2 ^ 64 }
    requires room { at + 1 + length frame.old ≤ (D.state disk.old).size }
    ensures trace { Makes D.state (append_calls at (body_in frame.old)) (is_ok result) disk.old disk.new }
    ensures frame { frame.new ≡ frame_of (body_in frame.old) }
{
    fill_frame(frame);
    settle(disk, at + 1, frame)?;
    settle(disk, at, &[OPEN_GATE])
}

/// Writes the body's length and the closed gate into the frame.
fn fill_frame(frame: &mut [u8])
    requires long { 5 ≤ length frame.old }
    requires fits { length frame.old < 2 ^ 32 }
    ensures { frame.new ≡ frame_of (body_in frame.old) }
{
    let last = frame.len() - 1;
    BigEndian::write_u32(frame, (last - LENGTH_BYTES) as u32);
    frame[last] = CLOSED_GATE;
}
