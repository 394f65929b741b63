//! The folder model: the calls of a folder of files, the changes that other programs make between
//! them, and the files that a crash may leave at any moment. It is for a folder that plays a
//! neighbour station (`rly_link_folder`).
//!
//! The contract of `trait Folder` is the model (`specs/FolderModel.antt`,
//! `specs/FolderCalls.antt`). A file gets its name only once its bytes are durable (`write`, then
//! `link`), and until a `sync` a crash leaves each change of a name made or not, whatever became of
//! the others. The laws here give the effects of several calls. `MemFolder` and `FaultFolder` are
//! folders for tests.
#![tactic(auto)]

mod counts;
mod fault_folder;
mod folder;
mod folder_file;
mod laws;
mod mem;
mod name;
mod record;

pub use counts::Counts;
pub use fault_folder::{After, FaultFolder};
pub use folder::{Folder, FolderFault};
pub use folder_file::FolderFile;
pub use laws::{law_any_moment, law_joined, law_settles, law_whole_files};
pub use mem::MemFolder;
pub use name::{Area, Name};
