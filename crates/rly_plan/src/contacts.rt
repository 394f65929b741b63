ghost use Rattle.std.specs.Prelude.{◌≡◌, ◌<◌, ◌≤◌, [], ◌∷◌, ◌++◌, IfSome, OnOk, OnErr, length};
ghost use Rattle.rly_plan.specs.Changes.{change_after, closing_after};
ghost use Rattle.rly_plan.specs.HelpersContacts.{AreSummed, HasBegun, contacts_in, last_end, latest};
ghost use Rattle.rly_plan.specs.LinkClock.{lies_in_any, open_moments};

use rly_core::limits::MOMENT_LIMIT;
use std::alloc::{AllocError, Global};
use std::marker::Model;

/// A time in which a link is open: the moments u with `begin <= u < end`, in microseconds since the
/// Unix epoch.
#[derive(Clone, Copy, PartialEq, Eq)]
pub(crate) struct Contact {
    /// The first moment of the contact.
    pub begin: u64,
    /// The first moment after the contact.
    pub end: u64,
}

/// A contact, and the open time of the link before it, in microseconds.
#[derive(Clone, Copy)]
struct Summed {
    contact: Contact,
    before: u64,
}

/// The contacts of one hop, in order. None begins before the one before it ends.
#[derive(Drop)]
pub(crate) struct Contacts {
    entries: Vec<Summed>,
    /// The open time in all of them, in microseconds.
    total: u64,
}

impl Model for Contacts {
    ghost use Rattle.std.specs.Prelude.{List};
    ghost use Rattle.rly_plan.specs.declared.contacts.Contact.{Contact};

    ghost Value = { List Contact };

    ghost use Rattle.rly_plan.specs.HelpersContacts.{AreTotalled, contacts_in};

    ghost view = { λ c. contacts_in c.entries.items };

    ghost invariant = { λ c. AreTotalled c.entries.items c.total };
}

impl Contacts {
    /// No contacts.
    pub(crate) fn new(alloc: Global) -> Contacts
        ensures { result ≡ [] }
    {
        Contacts {
            entries: Vec::new(alloc),
            total: 0,
        }
    }

    /// Appends a contact. An `Err` leaves the contacts unchanged.
    pub(crate) fn push(&mut self, contact: Contact) -> Result<(), AllocError>
        requires behind { last_end self.old ≤ contact.begin }
        requires lasts { contact.begin < contact.end }
        requires bounded { contact.end < MOMENT_LIMIT }
        ensures ok { OnOk result (self.new ≡ self.old ++ contact ∷ []) }
        ensures err { OnErr result (self.new ≡ self.old) }
    {
        let entry = Summed {
            contact,
            before: self.total,
        };
        self.entries.push(entry)?;
        self.total += contact.end - contact.begin;
        Ok(())
    }

    /// Whether the moment lies in a contact.
    pub(crate) fn is_open(&self, moment: u64) -> bool
        ensures { result ≡ lies_in_any self.now moment }
    {
        match latest(&self.entries, moment) {
            Some(entry) => moment < entry.contact.end,
            None => false,
        }
    }

    /// The number of moments before this one that lie in a contact.
    pub(crate) fn link(&self, moment: u64) -> u64
        ensures { result ≡ open_moments self.now moment }
    {
        match latest(&self.entries, moment) {
            Some(entry) => { entry.before + (moment.min(entry.contact.end) - entry.contact.begin) }
            None => 0,
        }
    }

    /// The number of contacts.
    pub(crate) fn len(&self) -> usize
        ensures { result ≡ length self.now }
    {
        self.entries.len()
    }

    /// The first moment after this one at which the link opens or closes.
    pub(crate) fn next_change(&self, moment: u64) -> Option<u64>
        ensures change { result ≡ change_after self.now moment }
        ensures bounded { IfSome result (λ change. change < MOMENT_LIMIT) }
    {
        change_after(&self.entries, moment)
    }
}

/// The first moment after this one at which a link opens or closes.
fn change_after(entries: &[Summed], moment: u64) -> Option<u64>
    ensures { result ≡ change_after (contacts_in entries.now) moment }
{
    for (index, entry) in entries.iter().enumerate() {
        if moment < entry.contact.begin {
            return Some(entry.contact.begin);
        }
        if moment < entry.contact.end {
            return Some(closing_after(entry.contact.end, &entries[index + 1..]));
        }
    }
    None
}

/// The end of the open time that lasts up to `end`, by the contacts after it.
fn closing_after(end: u64, entries: &[Summed]) -> u64
    ensures { result ≡ closing_after end (contacts_in entries.now) }
{
    let mut close = end;
    for entry in entries {
        if entry.contact.begin != close {
            return close;
        }
        close = entry.contact.end;
    }
    close
}

/// The last contact that has begun by a moment.
fn latest(entries: &[Summed], moment: u64) -> Option<Summed>
    requires { AreSummed 0 0 entries.now }
    ensures last { result ≡ latest entries.now moment }
    ensures begun { IfSome result (HasBegun moment) }
{
    let begun = entries.partition_point(|entry| entry.contact.begin <= moment);
    if begun == 0 {
        None
    } else {
        Some(entries[begun - 1])
    }
}
