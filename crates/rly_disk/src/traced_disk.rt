// A disk that records its calls.
ghost use Rattle.std.specs.Prelude.{◌≡◌, ◌≤◌, ◌<◌, ◌+◌, ◌++◌, ◌∷◌, [], length, map, OnOk, is_ok, slice_range};
ghost use Rattle.std.specs.Prelude.{vec_capacity};
ghost use Rattle.rly_disk.specs.Trace.{Makes, Read, Sync, Write};

use crate::{Disk, DiskFault};

/// A call of a disk. Offsets and lengths are in bytes.
#[derive(Clone, Copy, PartialEq, Eq, Drop)]
pub enum DiskCall {
    Read { place: u64, count: u64 },
    Write { place: u64, count: u64 },
    Sync,
}

/// A call that a disk counted, and whether it failed.
#[derive(Clone, Copy, PartialEq, Eq, Drop)]
pub struct TracedCall {
    pub call: DiskCall,
    pub failed: bool,
}

/// A disk that passes each call to the disk inside, and lists the calls that this one counted.
#[derive(Drop)]
pub struct TracedDisk<D> {
    inner: D,
    told: Vec<TracedCall>,
}

impl<D: Disk> TracedDisk<D> {
    ghost use Rattle.rly_disk.specs.TracedDisk.{inside, traced_calls, most_of};

    /// Makes a disk that records calls in this list, up to the list's capacity, so that no call fails for want of
    /// memory.
    pub fn new(inner: D, told: Vec<TracedCall>) -> Self
        ensures inside { inside result ≡ inner }
        ensures told { traced_calls result ≡ told.items }
        ensures most { most_of result ≡ vec_capacity told }
    {
        TracedDisk { inner, told }
    }

    /// Returns the calls, oldest first.
    pub fn trace(&self) -> &[TracedCall]
        ensures { result.now ≡ traced_calls self.now }
    {
        &self.told
    }

    /// Returns the disk inside.
    pub fn into_inner(self) -> D
        ensures { result ≡ inside self }
    {
        let TracedDisk { inner, told: _ } = self;
        inner
    }

    // Records a call, if the disk counted it and the list has room.
    fn note(&mut self, before: u64, call: DiskCall, failed: bool)
        ensures inside { inside self.new ≡ inside self.old }
        ensures most { most_of self.new ≡ most_of self.old }
        ensures told { before < (D.state (inside self.old)).calls → length (traced_calls self.old) < most_of self.old
            → traced_calls self.new ≡ traced_calls self.old ++ record { call = call; failed = failed } ∷ [] }
        ensures uncounted { (D.state (inside self.old)).calls ≤ before → self.new ≡ self.old }
    {
        if before < self.inner.calls() && self.told.len() < self.told.capacity() {
            self.told.push_reserved(TracedCall { call, failed });
        }
    }
}

impl<D: Disk> Disk for TracedDisk<D> {
    ghost use Rattle.rly_disk.specs.TracedDisk.{inside, traced_calls, most_of, traced_call_of, watched_state, Traces};

    ghost state = { watched_state D.state };

    ghost consistent = { λ disk honest. D.consistent disk.inner honest };

    ghost calls_lead = { λ disk. D.calls_lead disk.inner };

    fn size(&self) -> u64 {
        self.inner.size()
    }

    fn read_at(&mut self, place: u64, buffer: &mut [u8]) -> Result<(), DiskFault>
        requires { place + length buffer.old ≤ (watched_state D.state self.old).size }
        ensures bytes { (watched_state D.state self.old).honest
            → OnOk result (buffer.new
            ≡ slice_range (watched_state D.state self.old).seen place (place + length buffer.old)) }
        ensures trace { Makes (watched_state D.state) (Read place (length buffer.old) ∷ [])
            (is_ok result) self.old self.new }
        ensures tells { Traces D.state self.old self.new }
        ensures most { most_of self.new ≡ most_of self.old }
    {
        let before = self.inner.calls();
        let outcome = self.inner.read_at(place, buffer);
        let call = DiskCall::Read {
            place,
            count: buffer.len() as u64,
        };
        self.note(before, call, outcome.is_err());
        outcome
    }

    fn write_at(&mut self, place: u64, bytes: &[u8]) -> Result<(), DiskFault>
        requires { place + length bytes.now ≤ (watched_state D.state self.old).size }
        ensures trace { Makes (watched_state D.state) (Write place bytes.now ∷ []) (is_ok result) self.old self.new }
        ensures tells { Traces D.state self.old self.new }
        ensures most { most_of self.new ≡ most_of self.old }
    {
        let before = self.inner.calls();
        let outcome = self.inner.write_at(place, bytes);
        let call = DiskCall::Write {
            place,
            count: bytes.len() as u64,
        };
        self.note(before, call, outcome.is_err());
        outcome
    }

    fn sync(&mut self) -> Result<(), DiskFault>
        ensures trace { Makes (watched_state D.state) (Sync ∷ []) (is_ok result) self.old self.new }
        ensures tells { Traces D.state self.old self.new }
        ensures most { most_of self.new ≡ most_of self.old }
    {
        let before = self.inner.calls();
        let outcome = self.inner.sync();
        self.note(before, DiskCall::Sync, outcome.is_err());
        outcome
    }

    fn failures(&self) -> u64 {
        self.inner.failures()
    }

    fn calls(&self) -> u64 {
        self.inner.calls()
    }

    fn syncs(&self) -> u64 {
        self.inner.syncs()
    }

    fn failed_reads(&self) -> u64 {
        self.inner.failed_reads()
    }
}
