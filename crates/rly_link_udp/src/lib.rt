//! UDP links, wake-ups and clocks of a plan's workers: the only crate that opens sockets.
//!
//! `socket_link_of` opens the link of a worker to a socket (`specs/LinkDuties.antt`), with
//! authentication if there is a key, and a reorder buffer for peers. It counts and logs failed
//! sends, wrong tags, and what else stops it (`rly_link_log`). A `PatientLink` is opened once the
//! system grants its addresses (`specs/PatientLink.antt`). `bell_of` opens what ends the
//! waits of a link to a folder. A `WallClock` reads the system's clocks and ends a worker after its
//! turns (`specs/WallClock.antt`), and that of the first peer looks once a second at the times of all
//! folders (`specs/FolderWatch.antt`); `Bells` end the waits of workers. Callers: `rly_posts` and
//! `rly_daemon`.
#![tactic(auto)]

mod bells;
mod clock_watch;
mod folder_watch;
mod laws;
mod link_reorder;
mod links;
mod opener;
mod patient_link;
mod receive_buffer;
mod sender_waker;
mod signals;
mod socket_link;
mod sockets;
mod udp_link;
mod udp_opener;
mod unsent;
mod wall_clock;
mod worker_clock;
mod wrong_tags;

pub use crate::folder_watch::FolderPath;
pub use crate::laws::law_stored_datagram_ends_the_sleep;
pub use crate::links::{bell_of, fault_of_link, socket_link_of};
pub use crate::opener::{Opener, OpenerCall};
pub use crate::patient_link::{PatientLink, PatientState, Refusals};
pub use crate::sender_waker::SenderWaker;
pub use crate::signals::Signals;
pub use crate::socket_link::SocketLink;
pub use crate::sockets::Sockets;
pub use crate::udp_link::UdpLink;
pub use crate::udp_opener::UdpOpener;
pub use crate::wall_clock::WallClock;
pub use crate::worker_clock::clock_of;
