//! A folder that plays the neighbour station: of a hop, whose datagrams become files (`Outbox`), and
//! of a peer, whose datagrams are made of files (`Inbox`).
//!
//! Of all Data to an outbox only the next number is written: its file is durable under its number
//! before a hidden name of no bytes says that it is, and that name is durable before its Custody
//! (`specs/OutboxCalls.antt`). So a crash at any moment leaves a folder that opens to every number
//! whose Custody was answered, and a reader may remove all files (`specs/Handing.antt`).
//!
//! A file of an inbox has its number durably before it is given, and is removed only once that
//! number is in the station's custody (`specs/InboxCalls.antt`). So a crash at any moment leaves
//! each file whose put ended under exactly one name (`specs/Incoming.antt`).
//!
//! `HopNeighbour` puts an outbox behind the receiving core: packets in, packets out
//! (`specs/HopNeighbour.antt`). `PeerNeighbour` asks for the station's last number, opens an inbox to
//! it, and gives its files as Data, no more at once than a window (`specs/PeerNeighbour.antt`).
//! `FolderLink` is a link over either, with another link as its bell (`specs/FolderLink.antt`).
#![tactic(auto)]

mod admission;
mod calls;
mod folder_link;
mod hop_neighbour;
mod inbox;
mod inbox_calls;
mod inbox_laws;
mod laws;
mod messages;
mod neighbour;
mod outbox;
mod peer_laws;
mod peer_neighbour;
mod phase;

pub use admission::Admission;
pub use folder_link::FolderLink;
pub use hop_neighbour::HopNeighbour;
pub use inbox::{Entry, Inbox, NotOpen};
pub use inbox_laws::{law_numbers, law_releases};
pub use laws::{law_hands_out, law_lists, law_opens_to};
pub use neighbour::Neighbour;
pub use outbox::Outbox;
pub use peer_laws::{law_gives, law_judges};
pub use peer_neighbour::PeerNeighbour;
pub use phase::{Phase, is_for_good};
