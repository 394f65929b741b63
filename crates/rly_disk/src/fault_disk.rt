// A disk that fails at a chosen call.
ghost use Rattle.std.specs.Prelude.{◌≡◌, ◌≤◌, ◌<◌, ◌+◌, ◌-◌, ◌^◌, ◌∷◌, [], Bool, true, false, length, take, IsTrue};
ghost use Rattle.std.specs.Prelude.{IsErr, OnOk, is_ok, slice_range};
ghost use Rattle.rly_disk.specs.DiskModel.{DiskState, IsSpent};
ghost use Rattle.rly_disk.specs.Trace.{Makes, Read, Sync, Write};

use crate::{Counts, Disk, DiskFault};

/// The behaviour of a disk after the call chosen to fail.
#[derive(Clone, Copy, PartialEq, Eq, Drop)]
pub enum After {
    GoesOn,
    Stops,
}

/// A disk that fails at a chosen call, and passes all other calls to the disk inside.
#[derive(Drop)]
pub struct FaultDisk<D> {
    inner: D,
    at: u64,
    torn: u64,
    after: After,
    counts: Counts,
}

impl<D: Disk> FaultDisk<D> {
    ghost use Rattle.rly_disk.specs.FaultDisk.{inner_of, fault_plan, torn_of, fault_state, fails_next};

    /// Makes a disk whose call number `at`, counted from 1, fails; with 0 none does. With `After::Stops` each later
    /// call fails too. A failing write writes its first `torn` bytes, a failing read or sync does nothing. The counters
    /// begin at 0.
    pub fn new(inner: D, at: u64, torn: u64, after: After) -> Self
        ensures inner { inner_of result ≡ inner }
        ensures plan { fault_plan result ≡ (at, torn, after) }
        ensures calls { (fault_state D.state result).calls ≡ 0 }
    {
        FaultDisk {
            inner,
            at,
            torn,
            after,
            counts: Counts::new(),
        }
    }

    /// Returns the disk inside.
    pub fn into_inner(self) -> D
        ensures { result ≡ inner_of self }
    {
        let FaultDisk {
            inner,
            at: _,
            torn: _,
            after: _,
            counts: _,
        } = self;
        inner
    }

    // Returns true iff the next call was chosen to fail.
    fn fails_next(&self) -> bool
        requires { self.now.counts.calls < 2 ^ 64 - 1 }
        ensures { result ≡ fails_next self.now }
    {
        let number = self.counts.calls + 1;
        match self.after {
            After::GoesOn => number == self.at,
            After::Stops => self.at != 0 && number >= self.at,
        }
    }
}

impl<D: Disk> Disk for FaultDisk<D> {
    ghost use Rattle.rly_disk.specs.FaultDisk.{inner_of, fault_plan, torn_of, fault_state, fails_next};
    ghost use Rattle.rly_disk.specs.HelpersFaultDisk.{fault_consistent, fault_calls_lead};

    ghost state = { fault_state D.state };

    ghost consistent = { λ disk honest. fault_consistent D.state disk (D.consistent disk.inner honest) };

    ghost calls_lead = { λ disk. fault_calls_lead disk };

    fn size(&self) -> u64 {
        self.inner.size()
    }

    fn read_at(&mut self, place: u64, buffer: &mut [u8]) -> Result<(), DiskFault>
        requires { place + length buffer.old ≤ (fault_state D.state self.old).size }
        ensures bytes { (fault_state D.state self.old).honest
            → OnOk result (buffer.new
            ≡ slice_range (fault_state D.state self.old).seen place (place + length buffer.old)) }
        ensures trace { Makes (fault_state D.state) (Read place (length buffer.old) ∷ [])
            (is_ok result) self.old self.new }
        // The chosen call fails; any other is made once on the disk inside, with the same result.
        ensures chosen { IsTrue (fails_next self.old) → IsErr result }
        ensures passed { fails_next self.old ≡ false → ¬ IsSpent (fault_state D.state self.old)
            → Makes D.state (Read place (length buffer.old) ∷ []) (is_ok result) (inner_of self.old)
            (inner_of self.new) }
        ensures plan { fault_plan self.new ≡ fault_plan self.old }
        ensures nothing_done { IsTrue (fails_next self.old) → inner_of self.new ≡ inner_of self.old }
    {
        if self.counts.is_spent() {
            return Err(DiskFault);
        }
        if self.fails_next() {
            self.counts.count_read(true);
            return Err(DiskFault);
        }
        let outcome = self.inner.read_at(place, buffer);
        self.counts.count_read(outcome.is_err());
        outcome
    }

    fn write_at(&mut self, place: u64, bytes: &[u8]) -> Result<(), DiskFault>
        requires { place + length bytes.now ≤ (fault_state D.state self.old).size }
        ensures trace { Makes (fault_state D.state) (Write place bytes.now ∷ []) (is_ok result) self.old self.new }
        // The chosen call fails; any other is made once on the disk inside, with the same result.
        ensures chosen { IsTrue (fails_next self.old) → IsErr result }
        ensures passed { fails_next self.old ≡ false → ¬ IsSpent (fault_state D.state self.old)
            → Makes D.state (Write place bytes.now ∷ []) (is_ok result) (inner_of self.old) (inner_of self.new) }
        ensures plan { fault_plan self.new ≡ fault_plan self.old }
        // The first bytes of a chosen write are written, by one write, which may fail too.
        ensures put { IsTrue (fails_next self.old) → ¬ IsSpent (fault_state D.state self.old)
            → (done : Bool) × Makes D.state (Write place (take (torn_of self.old) bytes.now) ∷ []) done
            (inner_of self.old) (inner_of self.new) }
    {
        if self.counts.is_spent() {
            return Err(DiskFault);
        }
        if self.fails_next() {
            let put = self.torn.min(bytes.len() as u64) as usize;
            // If this fails too, it is still one failure.
            let _ = self.inner.write_at(place, &bytes[..put]);
            self.counts.count_write(true);
            return Err(DiskFault);
        }
        let outcome = self.inner.write_at(place, bytes);
        self.counts.count_write(outcome.is_err());
        outcome
    }

    fn sync(&mut self) -> Result<(), DiskFault>
        ensures trace { Makes (fault_state D.state) (Sync ∷ []) (is_ok result) self.old self.new }
        // The chosen call fails; any other is made once on the disk inside, with the same result.
        ensures chosen { IsTrue (fails_next self.old) → IsErr result }
        ensures passed { fails_next self.old ≡ false → ¬ IsSpent (fault_state D.state self.old)
            → Makes D.state (Sync ∷ []) (is_ok result) (inner_of self.old) (inner_of self.new) }
        ensures plan { fault_plan self.new ≡ fault_plan self.old }
        ensures nothing_done { IsTrue (fails_next self.old) → inner_of self.new ≡ inner_of self.old }
    {
        if self.counts.is_spent() {
            return Err(DiskFault);
        }
        if self.fails_next() {
            self.counts.count_sync(true);
            return Err(DiskFault);
        }
        let outcome = self.inner.sync();
        self.counts.count_sync(outcome.is_err());
        outcome
    }

    fn failures(&self) -> u64 {
        self.counts.failures
    }

    fn calls(&self) -> u64 {
        self.counts.calls
    }

    fn syncs(&self) -> u64 {
        self.counts.syncs
    }

    fn failed_reads(&self) -> u64 {
        self.counts.failed_reads
    }
}
