//! A folder of the file system: `FileFolder` implements `rly_folder::Folder` by files, hard links
//! and syncs of folders.
//!
//! Nothing can be proved of what a file system does, so a `FileFolder` is never honest: its
//! contracts cover its counters. `Place` has the names: `new/`, `sent/`, `refused/` and `out/`, and
//! for each file 20 digits, and its age limit if it has one. Callers: the programs that put files in and hand them on.
#![tactic(auto)]

mod fault;
mod file_folder;
mod foreign;
mod laws;
mod left_behind;
mod limits;
mod listing;
mod opening;
mod permission;
mod place;
mod root;
mod sub_folders;

pub use fault::{OpenFault, OpenMessage, PlaceFault};
pub use file_folder::FileFolder;
pub use foreign::Foreign;
pub use laws::{law_name_has_one_number, law_name_is_read};
pub use place::{FileName, Numbered, Place, SubFolder, numbered_in};
