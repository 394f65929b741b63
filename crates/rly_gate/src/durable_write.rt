ghost use Rattle.std.specs.Prelude.{◌+◌, ◌≤◌, length, is_ok};
ghost use Rattle.rly_disk.specs.Trace.{Makes};
ghost use Rattle.rly_gate.specs.Calls.{settle_calls};

use rly_disk::{Disk, DiskFault};

/// Makes bytes durable at an offset: one write (none for no bytes) and one sync. A crash at any moment of the call
/// leaves all other bytes unchanged; after an `Ok` no write is pending.
pub fn settle<D: Disk>(disk: &mut D, at: u64, bytes: &[u8]) -> Result<(), DiskFault>
    requires { at + length bytes.now ≤ (D.state disk.old).size }
    ensures { Makes D.state (settle_calls at bytes.now) (is_ok result) disk.old disk.new }
{
    if bytes.is_empty() {
        return disk.sync();
    }
    disk.write_at(at, bytes)?;
    disk.sync()
}
