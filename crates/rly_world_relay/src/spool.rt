//! The journal of a simulated relay, or its disk.

ghost use Rattle.std.specs.Prelude.{◌≡◌};
ghost use Rattle.rly_world_relay.specs.Relay.{disk_in};

use rly_disk::{FaultDisk, MemDisk};
use rly_journal::Journal;

/// The journal of a relay, or its disk while it isn't open.
#[derive(Drop)]
pub enum Spool {
    Shut(MemDisk),
    Opened(Journal<FaultDisk<MemDisk>>),
}

impl Spool {
    /// Returns the disk.
    pub(crate) fn into_disk(self) -> MemDisk
        ensures { result ≡ disk_in self }
    {
        match self {
            Spool::Shut(disk) => disk,
            Spool::Opened(journal) => journal.into_disk().into_inner(),
        }
    }
}
