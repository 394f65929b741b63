//! Writes the files of a network's stations: only those that differ, and of keys only those that are
//! missing (`specs/Wanted.antt`). `Shelf` is where the files lie, by their paths
//! (`specs/ShelfCalls.antt`), and `FileShelf` the system's file system. The crate opens files alone,
//! and starts no thread and no socket. Caller: `rly_network_command`.
#![tactic(auto)]

mod file_shelf;
mod put;
mod shelf;
mod shelf_fault;
mod wanted;

pub use crate::file_shelf::FileShelf;
pub use crate::put::{put_all, put_stations};
pub use crate::shelf::Shelf;
pub use crate::shelf_fault::{PutFault, ShelfFault};
pub use crate::wanted::Wanted;
