// The record of a disk in memory: its writes and syncs, and the bytes that each write replaced.
ghost use Rattle.std.specs.Prelude.{◌≡◌, ◌≤◌, ◌+◌, ◌∷◌, [], ◌++◌, min, length, drop, slice_range, IsTrue, OnOk, OnErr};
ghost use Rattle.std.specs.List.{list_all};
ghost use Rattle.rly_disk.specs.DiskModel.{bytes_after_write};
ghost use Rattle.rly_disk.specs.Record.{writes_byte_at, is_covered, before_but, IsFilled};
ghost use Rattle.rly_disk.specs.HelpersRecord.{is_event_within, put_len};
ghost use Rattle.rly_disk.specs.declared.record.Event.TheVariants.{Written, Synced};

use std::alloc::{AllocError, Global};

/// A change of a disk in memory.
#[derive(Drop)]
pub enum Event {
    /// A write at offset `place`, with the bytes that it replaced.
    Written { place: usize, replaced: Vec<u8> },
    Synced,
}

impl Event {
    /// Returns the number of bytes that it wrote.
    fn len(&self) -> usize
        ensures { result ≡ put_len self.now }
    {
        match self {
            Event::Written { replaced, .. } => replaced.len(),
            Event::Synced => 0,
        }
    }

    fn writes_byte_at(&self, at: usize) -> bool
        ensures { result ≡ writes_byte_at self.now at }
    {
        match self {
            Event::Written { place, replaced } => *place <= at && at - *place < replaced.len(),
            Event::Synced => false,
        }
    }

    // Restores the bytes that it replaced, except its first `kept`.
    fn undo(&self, bytes: &mut [u8], kept: u64)
        requires { IsTrue (is_event_within (length bytes.old) self.now) }
        ensures { bytes.new ≡ before_but kept (self.now ∷ []) bytes.old }
    {
        if let Event::Written { place, replaced } = self {
            let kept = kept.min(replaced.len() as u64) as usize;
            bytes[*place + kept..*place + replaced.len()].copy_from_slice(&replaced[kept..]);
        }
    }

    fn fill(&self, bytes: &mut [u8], byte: u8)
        requires { IsTrue (is_event_within (length bytes.old) self.now) }
        ensures { IsFilled (self.now ∷ []) byte bytes.old bytes.new }
    {
        if let Event::Written { place, replaced } = self {
            bytes[*place..*place + replaced.len()].fill(byte);
        }
    }
}

/// Undoes the writes, the last one first, except the first `kept` bytes that they wrote.
pub fn restore(bytes: &mut [u8], events: &[Event], kept: u64)
    requires { IsTrue (list_all (is_event_within (length bytes.old)) events.now) }
    ensures { bytes.new ≡ before_but kept events.now bytes.old }
{
    if let [first, rest @ ..] = events {
        restore(bytes, rest, kept.saturating_sub(first.len() as u64));
        first.undo(bytes, kept);
    }
}

/// Writes this byte over each byte that the events wrote.
pub fn fill(bytes: &mut [u8], events: &[Event], byte: u8)
    requires { IsTrue (list_all (is_event_within (length bytes.old)) events.now) }
    ensures { IsFilled events.now byte bytes.old bytes.new }
{
    for event in events {
        event.fill(bytes, byte);
    }
}

/// Returns true iff one of the events wrote the byte at this offset.
pub fn is_covered(events: &[Event], at: usize) -> bool
    ensures { result ≡ is_covered events.now at }
{
    events.iter().any(|event| event.writes_byte_at(at))
}

/// Writes bytes at an offset. Records the write first, and doesn't write if the record can't grow.
pub fn write(
    alloc: Global,
    events: &mut Vec<Event>,
    bytes: &mut Vec<u8>,
    place: usize,
    new: &[u8],
) -> Result<(), AllocError>
    requires { place + length new.now ≤ length bytes.old.items }
    ensures ok { OnOk result ((v : _) × (v.items ≡ slice_range bytes.old.items place (place + length new.now))
        × (events.new.items ≡ events.old.items ++ Written place v ∷ [])) }
    ensures written { OnOk result (bytes.new.items ≡ bytes_after_write place new.now bytes.old.items) }
    ensures err { OnErr result (events.new.items ≡ events.old.items) }
    ensures unwritten { OnErr result (bytes.new.items ≡ bytes.old.items) }
{
    let replaced = bytes[place..place + new.len()].to_vec(alloc)?;
    events.push(Event::Written { place, replaced })?;
    bytes[place..place + new.len()].copy_from_slice(new);
    Ok(())
}

/// Records a sync.
pub fn record_sync(events: &mut Vec<Event>) -> Result<(), AllocError>
    ensures ok { OnOk result (events.new.items ≡ events.old.items ++ Synced ∷ []) }
    ensures err { OnErr result (events.new.items ≡ events.old.items) }
{
    events.push(Event::Synced)?;
    Ok(())
}
