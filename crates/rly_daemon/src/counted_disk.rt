//! A disk that counts its commit bytes (gates), for a station that reports.

ghost use Rattle.std.specs.Prelude.{◌≡◌};

use crate::gate_tally::GateTally;
use rly_disk::{Disk, DiskFault};

/// Wraps a disk, and counts the gates opened on it.
#[derive(Drop)]
pub struct CountedDisk<D> {
    inner: D,
    /// Their counters, if they are counted.
    gates: Option<GateTally>,
}

impl<D: Disk> CountedDisk<D> {
    /// Counts the gates of this disk from now on, if there is a tally.
    pub(crate) fn new(inner: D, gates: Option<GateTally>) -> CountedDisk<D>
        ensures { result ≡ record { inner = inner; gates = gates } }
    {
        CountedDisk { inner, gates }
    }

    /// The disk in it.
    pub(crate) fn into_inner(self) -> D
        ensures { result ≡ self.inner }
    {
        let CountedDisk { inner, gates: _ } = self;
        inner
    }
}

impl<D: Disk> Disk for CountedDisk<D> {
    ghost use Rattle.rly_daemon.specs.CountedDisk.{counted_state};

    ghost state = { counted_state D.state };

    ghost consistent = { λ disk honest. D.consistent disk.inner honest };

    ghost calls_lead = { λ disk. D.calls_lead disk.inner };

    fn size(&self) -> u64 {
        self.inner.size()
    }

    fn read_at(&mut self, place: u64, buffer: &mut [u8]) -> Result<(), DiskFault> {
        self.inner.read_at(place, buffer)
    }

    fn write_at(&mut self, place: u64, bytes: &[u8]) -> Result<(), DiskFault> {
        self.inner.write_at(place, bytes)?;
        if let Some(gates) = &mut self.gates {
            gates.note(place, bytes);
        }
        Ok(())
    }

    fn sync(&mut self) -> Result<(), DiskFault> {
        self.inner.sync()
    }

    fn failures(&self) -> u64 {
        self.inner.failures()
    }

    fn calls(&self) -> u64 {
        self.inner.calls()
    }

    fn syncs(&self) -> u64 {
        self.inner.syncs()
    }

    fn failed_reads(&self) -> u64 {
        self.inner.failed_reads()
    }
}
