//! Where a station's neighbours stand in the network file.

use crate::folders::{Folder, folder_of};
use crate::ids::StationIds;
use crate::links::{Link, link_at};
use crate::network_file::NetworkFile;
use crate::places::Place;

/// Where a neighbour of a station stands in its plan.
#[derive(Clone, Copy)]
pub(crate) enum Side {
    /// Among its peers, from which it receives.
    Peer,
    /// Among its hops, to which it sends.
    Hop,
}

/// The table of the link or of the folder by which a station has a neighbour; the key is that of a link.
pub(crate) fn neighbour_place(
    links: &[Link],
    folders: &[Folder],
    side: Side,
    station: u16,
    number: u16,
    key: &'static str,
) -> Option<Place> {
    if let Some(link) = link_at(links, side, station, number) {
        return Some(Place {
            array: "link",
            table: link.table,
            key,
        });
    }
    match folder_of(folders, side, station, number) {
        Some(folder) => Some(Place {
            array: "folder",
            table: folder.table,
            key: match side {
                Side::Peer => ".destination",
                Side::Hop => "",
            },
        }),
        None => None,
    }
}

/// Whether a station has this neighbour now.
pub(crate) fn is_in_use(file: &NetworkFile, side: Side, station: u16, number: u16) -> bool {
    neighbour_place(&file.links, &file.folders, side, station, number, "").is_some()
}

/// The number of a station's neighbours up to the last one that is in use.
pub(crate) fn count_in_use(file: &NetworkFile, side: Side, own: &StationIds) -> usize {
    let mut used = 0;
    for (index, number) in own.row(side).iter().enumerate() {
        if is_in_use(file, side, own.number, *number) {
            used = index.saturating_add(1);
        }
    }
    used
}
