// A folder in memory.
ghost use Rattle.std.specs.Prelude.{◌≡◌, ◌≤◌, ◌<◌, ◌+◌, ◌-◌, ◌^◌, ◌∷◌, [], Ok, Some, None, true, IfOk, IsErr, OnErr};
ghost use Rattle.std.specs.Prelude.{◌++◌, if◌then◌else◌, is_ok, OnOk};
ghost use Rattle.rly_folder.specs.FolderModel.{Files, Settled, as_file};
ghost use Rattle.rly_folder.specs.FolderCalls.{Done, Leads, Link, Makes, Other, Remove, Rename, images_after};
ghost use Rattle.rly_folder.specs.FolderCalls.{outcome_of};
ghost use Rattle.rly_folder.specs.Record.{files_left, is_sync, no_files};

use crate::record::{Event, copy_of, is_there, numbers_in, read_file, undo_pending};
use crate::{Area, Counts, Folder, FolderFault, FolderFile, Name};
use std::alloc::{AllocError, Global};

/// A folder in memory that meets the folder model.
#[derive(Drop)]
pub struct MemFolder {
    alloc: Global,
    // Oldest first, and never shortened: the files, and the images of every moment, follow from it.
    events: Vec<Event>,
    hidden: Option<FolderFile>,
    counts: Counts,
}

impl MemFolder {
    ghost use Rattle.rly_folder.specs.MemFolder.{mem_state, record_of};

    /// Makes an empty folder, with no change pending and all counters zero.
    pub fn new(alloc: Global) -> Self
        ensures empty { (mem_state result).seen ≡ record { files = no_files; hidden = None } }
        ensures settled { Settled (mem_state result) }
        ensures calls { (mem_state result).calls ≡ 0 }
    {
        MemFolder {
            alloc,
            events: Vec::new(alloc),
            hidden: None,
            counts: Counts::new(),
        }
    }

    /// Puts a file under a name, as another program does: it isn't counted, and replaces what had the name.
    pub fn put(&mut self, name: Name, file: FolderFile) -> Result<(), AllocError>
        ensures ok { OnOk result
            (Leads (Other name (Some (as_file file)) ∷ []) (mem_state self.old) (mem_state self.new)) }
        ensures err { OnErr result (Leads [] (mem_state self.old) (mem_state self.new)) }
    {
        self.events.push(Event::Put { name, file })?;
        Ok(())
    }

    /// Removes a file, as another program does: it isn't counted.
    pub fn take(&mut self, name: Name) -> Result<(), AllocError>
        ensures ok { OnOk result (Leads (Other name None ∷ []) (mem_state self.old) (mem_state self.new)) }
        ensures err { OnErr result (Leads [] (mem_state self.old) (mem_state self.new)) }
    {
        self.events.push(Event::Taken { name })?;
        Ok(())
    }

    /// Returns the folder after a crash at this moment, with no change pending and all counters zero. Of the changes
    /// since the last sync, the oldest first, those stand for which the list has true: none past its end.
    pub fn crash(self, stands: &[bool]) -> Result<MemFolder, AllocError>
        ensures left { IfOk result (λ folder. (mem_state folder).seen.files ≡ files_left stands.now (record_of self)) }
        ensures hidden { IfOk result (λ folder. (mem_state folder).seen.hidden ≡ None) }
        ensures image { IfOk result (λ folder. (mem_state self).images (mem_state folder).seen.files) }
        ensures settled { IfOk result (λ folder. Settled (mem_state folder)) }
        ensures calls { IfOk result (λ folder. (mem_state folder).calls ≡ 0) }
    {
        let MemFolder {
            alloc,
            mut events,
            hidden: _,
            counts: _,
        } = self;
        undo_pending(&mut events, stands);
        events.push(Event::Synced)?;
        Ok(MemFolder {
            alloc,
            events,
            hidden: None,
            counts: Counts::new(),
        })
    }

    // Records a change or a sync, and counts the call that made it.
    fn note(&mut self, event: Event) -> Result<(), FolderFault>
        requires { self.old.counts.calls < 2 ^ 64 - 1 }
        ensures ok { OnOk result (self.new.events.items ≡ self.old.events.items ++ event ∷ []) }
        ensures err { OnErr result (self.new.events.items ≡ self.old.events.items) }
        ensures hidden { self.new.hidden ≡ self.old.hidden }
        ensures calls { self.new.counts.calls ≡ self.old.counts.calls + 1 }
        ensures failures { self.new.counts.failures ≡ self.old.counts.failures + (if is_ok result then 0 else 1) }
        ensures syncs { self.new.counts.syncs ≡ self.old.counts.syncs + (if is_sync event then 1 else 0) }
    {
        let sync = event.is_sync();
        match self.events.push(event) {
            Ok(()) => {
                self.counts.count(sync, false);
                Ok(())
            }
            Err(_) => {
                self.counts.count(sync, true);
                Err(FolderFault)
            }
        }
    }
}

impl Folder for MemFolder {
    ghost use Rattle.rly_folder.specs.MemFolder.{mem_state, record_of};
    ghost use Rattle.rly_folder.specs.HelpersFolder.{mem_calls_lead, mem_consistent};

    ghost state = { mem_state };

    ghost consistent = { λ folder honest. mem_consistent folder };

    ghost calls_lead = { λ folder. mem_calls_lead folder };

    fn list(&mut self, area: Area) -> Result<Vec<u64>, FolderFault> {
        if self.counts.is_spent() {
            return Err(FolderFault);
        }
        match numbers_in(self.alloc, &self.events, area) {
            Ok(numbers) => {
                self.counts.count(false, false);
                Ok(numbers)
            }
            Err(_) => {
                self.counts.count(false, true);
                Err(FolderFault)
            }
        }
    }

    fn read(&mut self, name: Name, most: usize) -> Result<Option<FolderFile>, FolderFault> {
        if self.counts.is_spent() {
            return Err(FolderFault);
        }
        match read_file(self.alloc, &self.events, name, most) {
            Ok(found) => {
                self.counts.count(false, false);
                Ok(found)
            }
            Err(_) => {
                self.counts.count(false, true);
                Err(FolderFault)
            }
        }
    }

    fn write(&mut self, bytes: &[u8], limit: u64) -> Result<(), FolderFault> {
        if self.counts.is_spent() {
            return Err(FolderFault);
        }
        match bytes.to_vec(self.alloc) {
            Ok(copy) => {
                self.hidden = Some(FolderFile::new(copy, limit));
                self.counts.count(false, false);
                Ok(())
            }
            Err(_) => {
                self.counts.count(false, true);
                Err(FolderFault)
            }
        }
    }

    fn link(&mut self, to: Name) -> Result<bool, FolderFault>
        ensures trace { Makes mem_state (Link to) (outcome_of result) self.old self.new }
        // Its images are all that the model allows after a link.
        ensures exact { result ≡ Ok true → (c : Files)
            → images_after (Done (Link to)) (mem_state self.old).seen (mem_state self.old).images c
            → (mem_state self.new).images c }
        // It fails only if memory is refused or the counts are spent, and has then changed no name.
        ensures undone { IsErr result → record_of self.new ≡ record_of self.old }
    {
        if self.counts.is_spent() {
            return Err(FolderFault);
        }
        if is_there(&self.events, to) {
            self.counts.count(false, false);
            return Ok(false);
        }
        match self.hidden.take() {
            None => {
                self.counts.count(false, false);
                Ok(false)
            }
            Some(file) => match self.note(Event::Put { name: to, file }) {
                Ok(()) => Ok(true),
                Err(fault) => Err(fault),
            },
        }
    }

    fn rename(&mut self, from: Name, to: Name) -> Result<bool, FolderFault>
        ensures trace { Makes mem_state (Rename from to) (outcome_of result) self.old self.new }
        // Its images are all that the model allows after a rename.
        ensures exact { result ≡ Ok true → (c : Files)
            → images_after (Done (Rename from to)) (mem_state self.old).seen (mem_state self.old).images c
            → (mem_state self.new).images c }
        // It fails only if memory is refused or the counts are spent, and has then changed no name.
        ensures undone { IsErr result → record_of self.new ≡ record_of self.old }
    {
        if self.counts.is_spent() {
            return Err(FolderFault);
        }
        match copy_of(self.alloc, &self.events, from) {
            Ok(None) => {
                self.counts.count(false, false);
                Ok(false)
            }
            Ok(Some(file)) => match self.note(Event::Moved { from, to, file }) {
                Ok(()) => Ok(true),
                Err(fault) => Err(fault),
            },
            Err(_) => {
                self.counts.count(false, true);
                Err(FolderFault)
            }
        }
    }

    fn remove(&mut self, name: Name) -> Result<bool, FolderFault>
        ensures trace { Makes mem_state (Remove name) (outcome_of result) self.old self.new }
        // Its images are all that the model allows after a removal.
        ensures exact { result ≡ Ok true → (c : Files)
            → images_after (Done (Remove name)) (mem_state self.old).seen (mem_state self.old).images c
            → (mem_state self.new).images c }
        // It fails only if memory is refused or the counts are spent, and has then changed no name.
        ensures undone { IsErr result → record_of self.new ≡ record_of self.old }
    {
        if self.counts.is_spent() {
            return Err(FolderFault);
        }
        if !is_there(&self.events, name) {
            self.counts.count(false, false);
            return Ok(false);
        }
        match self.note(Event::Taken { name }) {
            Ok(()) => Ok(true),
            Err(fault) => Err(fault),
        }
    }

    fn sync(&mut self) -> Result<(), FolderFault> {
        if self.counts.is_spent() {
            return Err(FolderFault);
        }
        self.note(Event::Synced)
    }

    fn failures(&self) -> u64 {
        self.counts.failures
    }

    fn calls(&self) -> u64 {
        self.counts.calls
    }

    fn syncs(&self) -> u64 {
        self.counts.syncs
    }
}
