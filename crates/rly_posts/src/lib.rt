//! The posts of a plan's workers: each with its link, its clock and its waker.
//!
//! `posts_of` opens the link that the plan names for each worker (`specs/Duties.antt`): a socket of
//! `rly_link_udp`, or a folder of `rly_folder_file` that plays the neighbour by `rly_link_folder`,
//! locked, with a bell whose address stands in its `.wake`. The clock of the first peer watches all
//! folders (`specs/WatchedFolders.antt`). It logs the first socket whose receive
//! buffer is too small. `NeighbourLink` is a link of either kind (`specs/Neighbour.antt`). Callers:
//! `rly_daemon_serve` and `rly_daemon`.
#![tactic(auto)]

mod admission;
mod folder_log;
mod folder_words;
mod incoming_link;
mod laws;
mod neighbour_link;
mod open_folder;
mod open_links;
mod outgoing_link;
mod posts;
mod wake_file;
mod watched_folders;

pub use crate::incoming_link::IncomingLink;
pub use crate::laws::law_files_are_led;
pub use crate::neighbour_link::NeighbourLink;
pub use crate::outgoing_link::OutgoingLink;
pub use crate::posts::{UdpPost, posts_of};
