// A disk in memory.
ghost use Rattle.std.specs.Prelude.{◌≡◌, ◌≤◌, ◌<◌, ◌+◌, ◌^◌, ◌↔◌, ◌∷◌, [], List, ℕ, length, IsTrue, IsOk, OnOk, OnErr};
ghost use Rattle.std.specs.Prelude.{is_ok, slice_range};
ghost use Rattle.std.specs.List.{list_all};
ghost use Rattle.rly_disk.specs.DiskModel.{DiskState, IsTorn, NothingNew, SettlesNothing, Settled, IsSpent};
ghost use Rattle.rly_disk.specs.Trace.{Makes, Read, Sync, Write};
ghost use Rattle.rly_disk.specs.Record.{synced_events};
ghost use Rattle.rly_disk.specs.HelpersRecord.{is_event_within};

use crate::record::{Event, fill, is_covered, record_sync, restore, write};
use crate::{Counts, Disk, DiskFault};
use std::alloc::Global;

/// The crash image: the values of the bytes that were written since the last sync.
#[derive(Clone, Copy, Debug, PartialEq, Eq, Drop)]
pub enum Torn {
    /// Each as a read returns it.
    AsRead,
    /// Each as at the last sync.
    AsSynced,
    /// Each is this byte.
    Fill(u8),
    /// The first bytes written since the last sync are kept, up to this number, and the rest are as at that sync. A
    /// byte counts at each of its writes.
    Split(u64),
}

/// A disk in memory that meets the disk model.
#[derive(Drop)]
pub struct MemDisk {
    alloc: Global,
    bytes: Vec<u8>,
    // Oldest first, and never shortened: the images of earlier moments follow from it.
    events: Vec<Event>,
    // The number of events up to the end of the last sync.
    synced: usize,
    counts: Counts,
    ghost within: { IsTrue (list_all (is_event_within (length bytes.items)) events.items) },
    ghost synced_is: { synced ≡ synced_events events.items },
}

impl MemDisk {
    ghost use Rattle.rly_disk.specs.MemDisk.{mem_state, synced_bytes, IsLeft};

    /// Makes a disk with these bytes, no write pending, and all counters zero.
    pub fn new(alloc: Global, bytes: Vec<u8>) -> Self
        ensures seen { (mem_state result).seen ≡ bytes.items }
        ensures settled { Settled (mem_state result) }
        ensures as_synced { synced_bytes result ≡ (mem_state result).seen }
        ensures calls { (mem_state result).calls ≡ 0 }
    {
        MemDisk {
            alloc,
            bytes,
            events: Vec::new(alloc),
            synced: 0,
            counts: Counts::new(),
        }
    }

    /// Returns true iff a crash at this moment may leave these bytes.
    #[tactic(auto, using(crate::proofs::RecordLemmas::of_record))]
    pub fn is_image(&self, image: &[u8]) -> bool
        ensures { IsTrue result ↔ (mem_state self.now).images image.now }
    {
        if image.len() != self.bytes.len() {
            return false;
        }
        let pending = &self.events[self.synced..];
        for at in 0..image.len() {
            if image[at] != self.bytes[at] && !is_covered(pending, at) {
                return false;
            }
        }
        true
    }

    /// Returns the disk after a crash at this moment, with no write pending and all counters zero. Its stack depth
    /// grows with the number of writes since the last sync.
    #[tactic(auto, using(crate::proofs::RecordLemmas::of_record))]
    pub fn crash(self, torn: Torn) -> MemDisk
        ensures left { IsLeft torn self (mem_state result).seen }
        ensures image { (mem_state self).images (mem_state result).seen }
        ensures settled { Settled (mem_state result) }
        ensures as_synced { synced_bytes result ≡ (mem_state result).seen }
        ensures calls { (mem_state result).calls ≡ 0 }
    {
        let MemDisk {
            alloc,
            mut bytes,
            events,
            synced,
            counts: _,
        } = self;
        let pending = &events[synced..];
        match torn {
            Torn::AsRead => {}
            Torn::AsSynced => restore(&mut bytes, pending, 0),
            Torn::Fill(byte) => fill(&mut bytes, pending, byte),
            Torn::Split(kept) => restore(&mut bytes, pending, kept),
        }
        MemDisk::new(alloc, bytes)
    }
}

impl Disk for MemDisk {
    ghost use Rattle.rly_disk.specs.MemDisk.{mem_state, synced_bytes};
    ghost use Rattle.rly_disk.specs.HelpersMemDisk.{mem_consistent, mem_calls_lead};

    ghost state = { mem_state };

    ghost consistent = { λ m honest. mem_consistent m };

    ghost calls_lead = { λ m. mem_calls_lead m };

    fn size(&self) -> u64 {
        self.bytes.len() as u64
    }

    fn read_at(&mut self, place: u64, buffer: &mut [u8]) -> Result<(), DiskFault>
        requires { place + length buffer.old ≤ (mem_state self.old).size }
        ensures bytes { (mem_state self.old).honest
            → OnOk result (buffer.new ≡ slice_range (mem_state self.old).seen place (place + length buffer.old)) }
        ensures trace { Makes mem_state (Read place (length buffer.old) ∷ []) (is_ok result) self.old self.new }
        // It allocates nothing.
        ensures succeeds { ¬ IsSpent (mem_state self.old) → IsOk result }
        ensures as_synced { synced_bytes self.new ≡ synced_bytes self.old }
    {
        if self.counts.is_spent() {
            return Err(DiskFault);
        }
        let from = place as usize;
        buffer.copy_from_slice(&self.bytes[from..from + buffer.len()]);
        self.counts.count_read(false);
        Ok(())
    }

    fn write_at(&mut self, place: u64, bytes: &[u8]) -> Result<(), DiskFault>
        requires { place + length bytes.now ≤ (mem_state self.old).size }
        ensures trace { Makes mem_state (Write place bytes.now ∷ []) (is_ok result) self.old self.new }
        // Its images are all that the model allows after a write.
        ensures exact { OnOk result ((c : List ℕ)
            → IsTorn place (length bytes.now) (mem_state self.old).images c → (mem_state self.new).images c) }
        ensures as_synced { synced_bytes self.new ≡ synced_bytes self.old }
        // It fails only if the record can't grow, and has then done nothing.
        ensures undone { OnErr result (NothingNew (mem_state self.old) (mem_state self.new)) }
        ensures unsettled { OnErr result (SettlesNothing (mem_state self.old) (mem_state self.new)) }
    {
        if self.counts.is_spent() {
            return Err(DiskFault);
        }
        match write(
            self.alloc,
            &mut self.events,
            &mut self.bytes,
            place as usize,
            bytes,
        ) {
            Ok(()) => {
                self.counts.count_write(false);
                Ok(())
            }
            Err(_) => {
                self.counts.count_write(true);
                Err(DiskFault)
            }
        }
    }

    fn sync(&mut self) -> Result<(), DiskFault>
        ensures trace { Makes mem_state (Sync ∷ []) (is_ok result) self.old self.new }
        ensures as_synced { OnOk result (synced_bytes self.new ≡ (mem_state self.new).seen) }
        ensures not_synced { OnErr result (synced_bytes self.new ≡ synced_bytes self.old) }
    {
        if self.counts.is_spent() {
            return Err(DiskFault);
        }
        match record_sync(&mut self.events) {
            Ok(()) => {
                self.synced = self.events.len();
                self.counts.count_sync(false);
                Ok(())
            }
            Err(_) => {
                self.counts.count_sync(true);
                Err(DiskFault)
            }
        }
    }

    fn failures(&self) -> u64 {
        self.counts.failures
    }

    fn calls(&self) -> u64 {
        self.counts.calls
    }

    fn syncs(&self) -> u64 {
        self.counts.syncs
    }

    fn failed_reads(&self) -> u64 {
        self.counts.failed_reads
    }
}
