// The trait of a folder, with its ghost state for contracts.
ghost use Rattle.std.specs.Prelude.{◌≡◌, ◌≤◌, ◌<◌, ◌^◌, IfOk, is_ok, option_map};
ghost use Rattle.rly_folder.specs.FolderModel.{Consistent, FolderState, IsListing, as_file, file_with, front_of};
ghost use Rattle.rly_folder.specs.FolderCalls.{Link, ListNames, Makes, ReadFile, Remove, Rename, Sync, WriteHidden};
ghost use Rattle.rly_folder.specs.FolderCalls.{outcome_if, outcome_of};

use crate::{Area, FolderFile, Name};

/// A call of a folder failed. The call's contract states what it left.
#[derive(Clone, Copy, Debug, PartialEq, Eq, Drop)]
pub struct FolderFault;

/// A folder whose calls may fail, and which other programs change too (docs/reference/DEFINITIONS.md, "The folder model").
///
/// Each call is one event, after whatever other programs changed since the last one. Clauses about results and counters
/// hold for any folder, so a folder of a real file system can meet them. Clauses about files and crashes have the
/// premise that the folder is honest (it keeps to the model); no call changes whether it is.
pub trait Folder {
    /// The folder's state in contracts.
    ghost state: { Self → FolderState };

    /// Returns the numbers of an area's files, the least first.
    fn list(&mut self, area: Area) -> Result<Vec<u64>, FolderFault>
        ensures names { (state self.old).honest
            → IfOk result (λ numbers. IsListing area (state self.new).seen.files numbers.items) }
        ensures trace { Makes state (ListNames area) (outcome_if (is_ok result)) self.old self.new };

    /// Returns the first `most` bytes of a file, and its limit; `None` if it isn't there. A caller that asks for one byte
    /// more than it takes sees which files are too long.
    fn read(&mut self, name: Name, most: usize) -> Result<Option<FolderFile>, FolderFault>
        ensures file { (state self.old).honest
            → IfOk result (λ found. option_map as_file found
            ≡ option_map (front_of most) ((state self.new).seen.files name)) }
        ensures trace { Makes state (ReadFile name) (outcome_if (is_ok result)) self.old self.new };

    /// Writes the station's hidden file and makes its bytes durable. It gets its limit, in microseconds, with its name.
    /// It replaces an earlier hidden file, and nothing else sees it. After an `Err` of this call or of any other, write it
    /// again before the next `link`.
    fn write(&mut self, bytes: &[u8], limit: u64) -> Result<(), FolderFault>
        requires { limit < 2 ^ 40 }
        ensures trace { Makes state (WriteHidden (file_with bytes.now limit)) (outcome_if (is_ok result))
            self.old self.new };

    /// Gives the hidden file a name, whole. Returns false, and changes nothing, if the name is taken or no hidden file
    /// was written. Until a sync succeeds a crash may leave it without the name, after an `Err` too.
    fn link(&mut self, to: Name) -> Result<bool, FolderFault>
        ensures trace { Makes state (Link to) (outcome_of result) self.old self.new };

    /// Gives a file another name, in one step, and replaces what had that name. Returns false, and changes nothing, if
    /// the file isn't there. Until a sync succeeds a crash may leave it under the old name, after an `Err` too.
    fn rename(&mut self, from: Name, to: Name) -> Result<bool, FolderFault>
        ensures trace { Makes state (Rename from to) (outcome_of result) self.old self.new };

    /// Removes a file. Returns false if it isn't there. Until a sync succeeds a crash may leave it, after an `Err` too.
    fn remove(&mut self, name: Name) -> Result<bool, FolderFault>
        ensures trace { Makes state (Remove name) (outcome_of result) self.old self.new };

    /// Makes all changes of names durable, those of other programs too. After an `Err` they are pending as before.
    fn sync(&mut self) -> Result<(), FolderFault>
        ensures trace { Makes state Sync (outcome_if (is_ok result)) self.old self.new };

    /// Returns the number of failed calls. This counter and the next two have 64 bits, and once the number of calls has
    /// its maximum value, each call fails and changes nothing.
    fn failures(&self) -> u64
        ensures { result ≡ (state self.now).failures };

    /// Returns the number of calls.
    fn calls(&self) -> u64
        ensures { result ≡ (state self.now).calls };

    /// Returns the number of syncs, failed ones too.
    fn syncs(&self) -> u64
        ensures { result ≡ (state self.now).syncs };

    /// The invariant of an honest folder.
    ghost consistent: { (folder : Self) → (state folder).honest → Consistent (state folder) };

    /// No counter is above the number of calls.
    ghost calls_lead: { (folder : Self)
        → ((state folder).failures ≤ (state folder).calls) × ((state folder).syncs ≤ (state folder).calls) };
}
