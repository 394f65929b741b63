// The record of a folder in memory: its changes and syncs.
ghost use Rattle.std.specs.Prelude.{◌≡◌, ◌≤◌, false, IfOk, if◌then◌else◌, is_some, length, option_map, slice_index_or};
ghost use Rattle.rly_folder.specs.FolderModel.{Files, IsListing, as_file, front_of};
ghost use Rattle.rly_folder.specs.Record.{after_crash, files_of, files_with, is_sync, listed_number, standing};
ghost use Rattle.rly_folder.specs.Record.{synced_events};
ghost use Rattle.rly_folder.specs.declared.record.Event.TheVariants.{Undone};

use crate::{Area, FolderFile, Name};
use std::alloc::{AllocError, Global};

/// A change of a folder in memory, or a sync.
#[derive(Drop)]
pub enum Event {
    /// This file got this name.
    Put {
        name: Name,
        file: FolderFile,
    },
    /// The file of this name was removed.
    Taken {
        name: Name,
    },
    /// This file got another name.
    Moved {
        from: Name,
        to: Name,
        file: FolderFile,
    },
    Synced,
    /// A change that a crash undid.
    Undone,
}

impl Event {
    /// Returns true iff it is a sync.
    pub fn is_sync(&self) -> bool
        ensures { result ≡ is_sync self.now }
    {
        matches!(self, Event::Synced)
    }
}

// Returns the file of a name after an event, from that before it.
fn file_after<'a>(
    event: &'a Event,
    name: Name,
    before: Option<&'a FolderFile>,
) -> Option<&'a FolderFile>
    ensures { (files : Files) → files name ≡ option_map (λ f. as_file f.now) before.entry
        → option_map (λ f. as_file f.now) result ≡ files_with event.now files name }
{
    match event {
        Event::Put { name: to, file } if name.is(*to) => Some(file),
        Event::Taken { name: from } if name.is(*from) => None,
        Event::Moved { from: _, to, file } if name.is(*to) => Some(file),
        Event::Moved {
            from,
            to: _,
            file: _,
        } if name.is(*from) => None,
        _ => before,
    }
}

// Returns the file of a name.
#[tactic(auto, using(crate::proofs::RecordLemmas::files_more))]
fn file_of(events: &[Event], name: Name) -> Option<&FolderFile>
    ensures { option_map (λ f. as_file f.now) result ≡ files_of events.now name }
{
    let mut found = None;
    for event in events {
        found = file_after(event, name, found);
    }
    found
}

/// Returns true iff a name has a file.
pub fn is_there(events: &[Event], name: Name) -> bool
    ensures { result ≡ is_some (files_of events.now name) }
{
    file_of(events, name).is_some()
}

/// Returns a copy of a name's file.
pub fn copy_of(
    alloc: Global,
    events: &[Event],
    name: Name,
) -> Result<Option<FolderFile>, AllocError>
    ensures { IfOk result (λ found. option_map as_file found ≡ files_of events.now name) }
{
    match file_of(events, name) {
        None => Ok(None),
        Some(file) => Ok(Some(file.copy(alloc)?)),
    }
}

/// Returns the first `most` bytes of a name's file, and its limit.
pub fn read_file(
    alloc: Global,
    events: &[Event],
    name: Name,
    most: usize,
) -> Result<Option<FolderFile>, AllocError>
    ensures { IfOk result (λ found. option_map as_file found
        ≡ option_map (front_of most) (files_of events.now name)) }
{
    match file_of(events, name) {
        None => Ok(None),
        Some(file) => Ok(Some(file.front(alloc, most)?)),
    }
}

// Returns the number of the file that an event put into an area, if that is there.
fn listed_number(event: &Event, events: &[Event], area: Area) -> Option<u64>
    ensures { result ≡ listed_number (files_of events.now) area event.now }
{
    let name = match event {
        Event::Put { name, file: _ } => *name,
        Event::Moved {
            from: _,
            to,
            file: _,
        } => *to,
        _ => return None,
    };
    let number = name.number;
    if name.is(Name { area, number }) && file_of(events, name).is_some() {
        Some(number)
    } else {
        None
    }
}

/// Returns the numbers of an area's files, the least first.
pub fn numbers_in(alloc: Global, events: &[Event], area: Area) -> Result<Vec<u64>, AllocError>
    ensures { IfOk result (λ numbers. IsListing area (files_of events.now) numbers.items) }
{
    let mut numbers = Vec::new(alloc);
    for event in events {
        if let Some(number) = listed_number(event, events, area) {
            numbers.push(number)?;
        }
    }
    numbers.sort()?;
    numbers.dedup();
    Ok(numbers)
}

// Returns the number of events up to and including the last sync.
#[tactic(auto, using(crate::proofs::RecordLemmas::synced_more, crate::proofs::RecordLemmas::synced_events_le))]
fn synced_events(events: &[Event]) -> usize
    ensures is { result ≡ synced_events events.now }
    ensures bound { result ≤ length events.now }
{
    let mut synced = 0;
    for (at, event) in events.iter().enumerate() {
        if event.is_sync() {
            synced = at + 1;
        }
    }
    synced
}

// Undoes a change if it doesn't stand.
fn keep_if(event: &mut Event, stand: bool)
    ensures { event.new ≡ (if stand then event.old else Undone) }
{
    if !stand {
        *event = Event::Undone;
    }
}

// Returns whether the list has true at a place.
fn stands_at(stands: &[bool], at: usize) -> bool
    ensures { result ≡ slice_index_or stands.now at false }
{
    at < stands.len() && stands[at]
}

// Undoes the changes that don't stand: each stands as its place in the list says, and none past the list's end.
fn undo(events: &mut [Event], stands: &[bool])
    ensures { events.new ≡ standing stands.now events.old }
{
    for (at, event) in events.iter_mut().enumerate() {
        keep_if(event, stands_at(stands, at));
    }
}

/// Undoes the changes since the last sync that don't stand.
pub fn undo_pending(events: &mut [Event], stands: &[bool])
    ensures { events.new ≡ after_crash stands.now events.old }
{
    let synced = synced_events(events);
    undo(&mut events[synced..], stands);
}
