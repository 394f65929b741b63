// A folder of the file system.
ghost use Rattle.std.specs.Prelude.{◌≡◌, ◌<◌, ◌+◌, ◌-◌, ◌^◌, if◌then◌else◌, IfOk, None, OnErr, OnOk, is_ok};
ghost use Rattle.std.specs.Prelude.{IfSome, option_map, true};
ghost use Rattle.std.specs.Option.{option_copied};
ghost use Rattle.rly_folder.specs.FolderModel.{IsListing, IsSpent, as_file, file_with, front_of};
ghost use Rattle.rly_folder.specs.FolderCalls.{Link, ListNames, Makes, ReadFile, Remove, Rename, Sync, WriteHidden};
ghost use Rattle.rly_folder.specs.FolderCalls.{outcome_if, outcome_of};
ghost use Rattle.rly_folder_file.specs.FileNames.{sub_folder_of};
ghost use Rattle.rly_folder_file.specs.SubFolders.{HasNone, with_sub};

use crate::fault::{OpenFault, PlaceFault};
use crate::foreign::Foreign;
use crate::left_behind::remove_left_behind;
use crate::limits::Limits;
use crate::listing::{list, look_for, refusal_of};
use crate::opening::prepare;
use crate::place::{FileName, Numbered, Place, SubFolder};
use crate::root::{Kind, Root};
use crate::sub_folders::SubFolders;
use rly_folder::{Area, Counts, Folder, FolderFault, FolderFile, Name};
use std::alloc::Global;
use std::fs::{File, Files, TryLockError};

/// A folder of the file system, with sub-folders `new`, `sent`, `refused` and `out`.
///
/// Nothing can be proved of a real file system, so this folder is never honest: its contracts cover its counters. The
/// folder model holds of it as far as the system keeps the promises of `link`, `rename` and `fsync`.
#[derive(Drop)]
pub struct FileFolder<H> {
    root: Root<H>,
    /// The hidden file, open, if it was written whole and has no name yet.
    written: Option<File>,
    /// Its limit.
    limit: u64,
    /// The file that got a name last, until the next one is written.
    linked: Option<File>,
    limits: Limits,
    touched: SubFolders,
    counts: Counts,
    ghost limit_fits: { limit < 2 ^ 40 },
    fault: Option<PlaceFault>,
    foreign: Foreign,
    lock: Option<File>,
}

impl<H: Files<File = File> + Alloc<A = Global> + Clone + Drop> FileFolder<H> {
    ghost use Rattle.rly_folder_file.specs.FileFolder.{file_state, folder_own, folder_path, foreign_of, is_locked};
    ghost use Rattle.rly_folder_file.specs.FileFolder.{last_fault, linked_of, pending_of};

    /// Opens a folder, which has to be there, and makes the sub-folders that are missing. Refuses a file system without
    /// hard links. Each program that uses a folder at the same time has a hidden file of its own, `.OWN` in the folder:
    /// by a name that no other has, or by a lock. An opening leaves that file as it is.
    pub fn open(host: H, path: &str, own: &str) -> Result<Self, OpenFault>
        ensures calls { IfOk result (λ folder. (file_state folder).calls ≡ 0) }
        ensures path { IfOk result (λ folder. folder_path folder ≡ path.now) }
        ensures own { IfOk result (λ folder. folder_own folder ≡ own.now) }
    {
        let alloc = host.alloc();
        let root = Root::open(host, alloc, path, own)?;
        prepare(&root)?;
        Ok(FileFolder {
            root,
            written: None,
            limit: 0,
            limits: Limits::new(alloc),
            linked: None,
            touched: SubFolders::all(),
            counts: Counts::new(),
            fault: None,
            foreign: Foreign::new(),
            lock: None,
        })
    }

    /// Locks the folder (advisory) against other programs that lock it under the same own name, until it is dropped.
    pub fn lock(&mut self) -> Result<(), OpenFault>
        ensures locked { OnOk result (is_locked self.new ≡ true) }
        ensures path { folder_path self.new ≡ folder_path self.old }
        ensures own { folder_own self.new ≡ folder_own self.old }
        ensures calls { (file_state self.new).calls ≡ (file_state self.old).calls }
        ensures failures { (file_state self.new).failures ≡ (file_state self.old).failures }
        ensures syncs { (file_state self.new).syncs ≡ (file_state self.old).syncs }
    {
        let file = self.root.open_lock()?;
        match file.try_lock() {
            Ok(()) => {
                self.lock = Some(file);
                Ok(())
            }
            Err(TryLockError::WouldBlock) => Err(OpenFault::Locked),
            Err(TryLockError::Error(word)) => {
                Err(OpenFault::Call(PlaceFault {
                    place: Place::Lock,
                    word,
                }))
            }
        }
    }

    /// Leaves out of the first sync what this program doesn't touch: for one that relies on nothing that was there
    /// before, as one that only puts files in.
    pub fn sync_touched_alone(&mut self)
        ensures pending { HasNone (pending_of self.new) }
        ensures locked { is_locked self.new ≡ is_locked self.old }
        ensures path { folder_path self.new ≡ folder_path self.old }
        ensures own { folder_own self.new ≡ folder_own self.old }
        ensures calls { (file_state self.new).calls ≡ (file_state self.old).calls }
        ensures failures { (file_state self.new).failures ≡ (file_state self.old).failures }
        ensures syncs { (file_state self.new).syncs ≡ (file_state self.old).syncs }
    {
        self.touched = SubFolders::none();
    }

    /// Removes the hidden files whose names begin with a dot and this, and that weren't changed for a day: those of
    /// programs that were killed. Returns how many. `now` is the clock in microseconds since 1970.
    pub fn remove_left_behind(&self, begins: &str, now: u64) -> Result<u64, PlaceFault> {
        remove_left_behind(&self.root, begins, now)
    }

    /// The last failed call of the system.
    pub fn fault(&self) -> Option<PlaceFault>
        ensures { result ≡ last_fault self.now }
    {
        self.fault
    }

    /// The files with foreign names that were seen.
    pub fn foreign(&self) -> &Foreign
        ensures { result.now ≡ foreign_of self.now }
    {
        &self.foreign
    }

    /// The file to which the last `link` that returned true gave a name, open, until the next `write`. Once it has no
    /// name left (`nlink` is 0), it is in the station's custody, or somebody removed it.
    pub fn linked(&self) -> Option<&File>
        ensures { option_copied result ≡ linked_of self.now }
    {
        self.linked.as_ref()
    }

    /// Takes that file out.
    pub fn take_linked(&mut self) -> Option<File>
        ensures taken { result ≡ linked_of self.old }
        ensures none { linked_of self.new ≡ None }
        ensures path { folder_path self.new ≡ folder_path self.old }
        ensures own { folder_own self.new ≡ folder_own self.old }
        ensures calls { (file_state self.new).calls ≡ (file_state self.old).calls }
        ensures failures { (file_state self.new).failures ≡ (file_state self.old).failures }
        ensures syncs { (file_state self.new).syncs ≡ (file_state self.old).syncs }
    {
        self.linked.take()
    }

    /// Returns the area of the refused file with this inode number, if one is there. It looks at each refused file.
    pub fn refusal_of(&self, inode: u64) -> Result<Option<Area>, PlaceFault> {
        refusal_of(&self.root, inode)
    }

    /// Counts a call, and keeps why it failed. After a failure the hidden file has to be written again.
    fn finish<T>(&mut self, sync: bool, outcome: Result<T, PlaceFault>) -> Result<T, FolderFault>
        requires { self.old.counts.calls < 2 ^ 64 - 1 }
        ensures calls { self.new.counts.calls ≡ self.old.counts.calls + 1 }
        ensures failures { self.new.counts.failures ≡ self.old.counts.failures + (if is_ok result then 0 else 1) }
        ensures syncs { self.new.counts.syncs ≡ self.old.counts.syncs + (if sync then 1 else 0) }
        ensures pending { self.new.touched ≡ self.old.touched }
        ensures same { is_ok result ≡ is_ok outcome }
    {
        match outcome {
            Ok(value) => {
                self.counts.count(sync, false);
                Ok(value)
            }
            Err(fault) => {
                self.counts.count(sync, true);
                self.fault = Some(fault);
                self.written = None;
                Err(FolderFault)
            }
        }
    }

    /// Reads the first bytes of a file, if it is there. Another kind of file, whose reading may never end, is foreign.
    fn read_file(&mut self, name: Name, most: usize) -> Result<Option<FolderFile>, PlaceFault>
        ensures counts { self.new.counts ≡ self.old.counts }
        ensures pending { self.new.touched ≡ self.old.touched }
    {
        let limit = self.find(name)?;
        let file = FileName { name, limit };
        let place = Place::File(file);
        match self.root.kind_of(place)? {
            Kind::Missing => Ok(None),
            Kind::File => match self.root.read(place, most)? {
                Some(bytes) => Ok(Some(FolderFile::new(bytes, limit))),
                None => Ok(None),
            },
            Kind::Other => {
                let text = format!(in self.root.alloc; "{file}").ok();
                self.foreign.add(SubFolder::of(name.area), text);
                Ok(None)
            }
        }
    }

    /// Finds the limit in the name of a number's file; 0 if it has none, or isn't there. If several files have the number,
    /// the one without a limit is the folder's, and each other one comes once that is gone.
    fn find(&mut self, name: Name) -> Result<u64, PlaceFault>
        ensures counts { self.new.counts ≡ self.old.counts }
        ensures pending { self.new.touched ≡ self.old.touched }
        ensures fits { IfOk result (λ limit. limit < 2 ^ 40) }
    {
        if self.is_there(name, 0)? {
            return Ok(0);
        }
        if let Some(limit) = self.limits.get(name)
            && self.is_there(name, limit)?
        {
            return Ok(limit);
        }
        look_for(&self.root, name, &mut self.limits)?;
        Ok(self.limits.get(name).unwrap_or(0))
    }

    /// Returns true iff a file of this name and this limit is there.
    fn is_there(&self, name: Name, limit: u64) -> Result<bool, PlaceFault> {
        let place = Place::File(FileName { name, limit });
        Ok(!matches!(self.root.kind_of(place)?, Kind::Missing))
    }

    /// Returns true iff a file of this name is known to be there with another limit.
    fn is_taken(&self, name: Name, limit: u64) -> Result<bool, PlaceFault> {
        if limit != 0 && self.is_there(name, 0)? {
            return Ok(true);
        }
        match self.limits.get(name) {
            Some(other) if other != limit => self.is_there(name, other),
            _ => Ok(false),
        }
    }

    /// Adds the limit that a file has by its new name. Where memory for it is refused, it is looked for again.
    fn add_limit(&mut self, name: Name, limit: u64)
        requires { limit < 2 ^ 40 }
        ensures counts { self.new.counts ≡ self.old.counts }
        ensures pending { self.new.touched ≡ self.old.touched }
    {
        let number = name.number;
        let _ = self.limits.add(name.area, Numbered { number, limit });
    }

    /// Gives a file another name, with the limit that it has.
    fn rename_file(&mut self, from: Name, to: Name) -> Result<bool, PlaceFault>
        ensures counts { self.new.counts ≡ self.old.counts }
        ensures pending { self.new.touched ≡ self.old.touched }
    {
        let limit = self.find(from)?;
        let old = Place::File(FileName { name: from, limit });
        let new = Place::File(FileName { name: to, limit });
        let is_renamed = self.root.rename(old, new)?;
        if is_renamed && limit != 0 {
            self.limits.forget(from);
            self.add_limit(to, limit);
        }
        Ok(is_renamed)
    }

    /// Removes a file.
    fn remove_file(&mut self, name: Name) -> Result<bool, PlaceFault>
        ensures counts { self.new.counts ≡ self.old.counts }
        ensures pending { self.new.touched ≡ self.old.touched }
    {
        let limit = self.find(name)?;
        let is_removed = self.root.remove(Place::File(FileName { name, limit }))?;
        if limit != 0 {
            self.limits.forget(name);
        }
        Ok(is_removed)
    }

    /// Writes the hidden file anew.
    fn write_hidden(&mut self, bytes: &[u8], limit: u64) -> Result<(), PlaceFault>
        requires { limit < 2 ^ 40 }
        ensures counts { self.new.counts ≡ self.old.counts }
        ensures pending { self.new.touched ≡ self.old.touched }
    {
        self.written = None;
        self.linked = None;
        self.limit = limit;
        self.written = Some(self.root.write(bytes)?);
        Ok(())
    }

    /// Gives the hidden file a name, if it was written.
    fn link_hidden(&mut self, to: Name) -> Result<bool, PlaceFault>
        ensures counts { self.new.counts ≡ self.old.counts }
        ensures pending { self.new.touched ≡ self.old.touched }
    {
        if self.written.is_none() {
            return Ok(false);
        }
        let limit = self.limit;
        let place = Place::File(FileName { name: to, limit });
        if self.is_taken(to, limit)? || !self.root.link(Place::Hidden, place)? {
            return Ok(false);
        }
        self.add_limit(to, limit);
        let file = self.written.take();
        self.root.remove(Place::Hidden)?;
        self.linked = file;
        Ok(true)
    }

    /// Syncs the sub-folders that were touched.
    fn sync_touched(&mut self) -> Result<(), PlaceFault>
        ensures counts { self.new.counts ≡ self.old.counts }
        ensures pending { OnOk result (HasNone self.new.touched) }
        ensures kept { OnErr result (self.new.touched ≡ self.old.touched) }
    {
        for sub in &SubFolder::ALL {
            if self.touched.has(*sub) {
                self.root.sync(Place::Sub(*sub))?;
            }
        }
        self.touched = SubFolders::none();
        Ok(())
    }
}

impl<H: Files<File = File> + Alloc<A = Global> + Clone + Drop> Folder for FileFolder<H> {
    ghost use Rattle.rly_folder_file.specs.FileFolder.{file_calls_lead, file_consistent, file_state, pending_of};

    ghost state = { file_state };

    ghost consistent = { λ folder honest. file_consistent folder honest };

    ghost calls_lead = { λ folder. file_calls_lead folder };

    fn list(&mut self, area: Area) -> Result<Vec<u64>, FolderFault>
        ensures names { (file_state self.old).honest
            → IfOk result (λ numbers. IsListing area (file_state self.new).seen.files numbers.items) }
        ensures trace { Makes file_state (ListNames area) (outcome_if (is_ok result)) self.old self.new }
        // What this program saw of a sub-folder is made durable by the next sync.
        ensures pending { ¬ IsSpent (file_state self.old)
            → pending_of self.new ≡ with_sub (pending_of self.old) (sub_folder_of area) }
    {
        if self.counts.is_spent() {
            return Err(FolderFault);
        }
        self.touched.add(SubFolder::of(area));
        let outcome = list(&self.root, area, &mut self.limits, &mut self.foreign);
        self.finish(false, outcome)
    }

    fn read(&mut self, name: Name, most: usize) -> Result<Option<FolderFile>, FolderFault>
        ensures file { (file_state self.old).honest
            → IfOk result (λ found. option_map as_file found
            ≡ option_map (front_of most) ((file_state self.new).seen.files name)) }
        ensures trace { Makes file_state (ReadFile name) (outcome_if (is_ok result)) self.old self.new }
        ensures pending { ¬ IsSpent (file_state self.old)
            → pending_of self.new ≡ with_sub (pending_of self.old) (sub_folder_of name.area) }
    {
        if self.counts.is_spent() {
            return Err(FolderFault);
        }
        self.touched.add(SubFolder::of(name.area));
        let outcome = self.read_file(name, most);
        self.finish(false, outcome)
    }

    fn write(&mut self, bytes: &[u8], limit: u64) -> Result<(), FolderFault>
        requires { limit < 2 ^ 40 }
        ensures trace { Makes file_state (WriteHidden (file_with bytes.now limit)) (outcome_if (is_ok result))
            self.old self.new }
        ensures pending { pending_of self.new ≡ pending_of self.old }
    {
        if self.counts.is_spent() {
            return Err(FolderFault);
        }
        let outcome = self.write_hidden(bytes, limit);
        self.finish(false, outcome)
    }

    fn link(&mut self, to: Name) -> Result<bool, FolderFault>
        ensures trace { Makes file_state (Link to) (outcome_of result) self.old self.new }
        // What it changed is made durable by the next sync, after an `Err` too.
        ensures pending { ¬ IsSpent (file_state self.old)
            → pending_of self.new ≡ with_sub (pending_of self.old) (sub_folder_of to.area) }
    {
        if self.counts.is_spent() {
            return Err(FolderFault);
        }
        self.touched.add(SubFolder::of(to.area));
        let outcome = self.link_hidden(to);
        self.finish(false, outcome)
    }

    fn rename(&mut self, from: Name, to: Name) -> Result<bool, FolderFault>
        ensures trace { Makes file_state (Rename from to) (outcome_of result) self.old self.new }
        ensures pending { ¬ IsSpent (file_state self.old) → pending_of self.new
            ≡ with_sub (with_sub (pending_of self.old) (sub_folder_of from.area)) (sub_folder_of to.area) }
    {
        if self.counts.is_spent() {
            return Err(FolderFault);
        }
        self.touched.add(SubFolder::of(from.area));
        self.touched.add(SubFolder::of(to.area));
        let outcome = self.rename_file(from, to);
        self.finish(false, outcome)
    }

    fn remove(&mut self, name: Name) -> Result<bool, FolderFault>
        ensures trace { Makes file_state (Remove name) (outcome_of result) self.old self.new }
        ensures pending { ¬ IsSpent (file_state self.old)
            → pending_of self.new ≡ with_sub (pending_of self.old) (sub_folder_of name.area) }
    {
        if self.counts.is_spent() {
            return Err(FolderFault);
        }
        self.touched.add(SubFolder::of(name.area));
        let outcome = self.remove_file(name);
        self.finish(false, outcome)
    }

    fn sync(&mut self) -> Result<(), FolderFault>
        ensures trace { Makes file_state Sync (outcome_if (is_ok result)) self.old self.new }
        ensures pending { OnOk result (HasNone (pending_of self.new)) }
        ensures kept { OnErr result (pending_of self.new ≡ pending_of self.old) }
    {
        if self.counts.is_spent() {
            return Err(FolderFault);
        }
        let outcome = self.sync_touched();
        self.finish(true, outcome)
    }

    fn failures(&self) -> u64 {
        self.counts.failures
    }

    fn calls(&self) -> u64 {
        self.counts.calls
    }

    fn syncs(&self) -> u64 {
        self.counts.syncs
    }
}
