ghost use Rattle.std.specs.Prelude.{◌≡◌};
ghost use Rattle.rly_plan.specs.FarEnds.{far_end_from, folder_from};

use crate::passes::{number_16, number_32};
use rly_plan_syntax::{Addresses, FarEndDraft, FolderDraft, PlanPath, SocketEnd};

/// The far end of the link with a neighbour.
#[derive(Drop)]
pub enum FarEnd {
    /// A station that is reached through a socket.
    Socket(SocketEnd),
    /// A folder that plays the neighbour station.
    Folder(FolderEnd),
}

/// A folder that plays a neighbour station. Of a peer its files become datagrams, of a hop its datagrams become files.
#[derive(Drop)]
pub struct FolderEnd {
    /// The path of the folder.
    pub path: PlanPath,
    /// The destination of a peer's files, 1 to 65,535: `None` if each file begins with its own.
    pub destination: Option<u16>,
    /// The age limit of a peer's files in milliseconds, 1 to 1,099,511,627: `None` if they have none.
    pub limit: Option<u32>,
    /// The number of files at which a hop's folder is full, 1 to 1,000,000.
    pub most: u32,
}

impl FarEnd {
    ghost use Rattle.std.specs.Prelude.{◌≡◌, option_copied};
    ghost use Rattle.rly_plan.specs.FarEnds.{addresses_at, folder_at, key_at};

    /// The addresses of the link: `None` if its far end is a folder.
    pub fn addresses(&self) -> Option<&Addresses>
        ensures { option_copied result ≡ addresses_at self.now }
    {
        match self {
            FarEnd::Socket(socket) => Some(&socket.addresses),
            FarEnd::Folder(_) => None,
        }
    }

    /// The path of the link's key file: `None` if the link is not authenticated, or its far end is a folder.
    pub fn key(&self) -> Option<&PlanPath>
        ensures { option_copied result ≡ key_at self.now }
    {
        match self {
            FarEnd::Socket(socket) => socket.key.as_ref(),
            FarEnd::Folder(_) => None,
        }
    }

    /// The folder: `None` if the far end is a station.
    pub fn folder(&self) -> Option<&FolderEnd>
        ensures { option_copied result ≡ folder_at self.now }
    {
        match self {
            FarEnd::Socket(_) => None,
            FarEnd::Folder(folder) => Some(folder),
        }
    }
}

/// The far end of a draft.
pub(crate) fn far_end_of_draft(draft: FarEndDraft) -> FarEnd
    ensures { result ≡ far_end_from draft }
{
    match draft {
        FarEndDraft::Socket(socket) => FarEnd::Socket(socket),
        FarEndDraft::Folder(folder) => FarEnd::Folder(folder_of_draft(folder)),
    }
}

fn folder_of_draft(draft: FolderDraft) -> FolderEnd
    ensures { result ≡ folder_from draft }
{
    let FolderDraft {
        path,
        destination,
        limit,
        most,
    } = draft;
    FolderEnd {
        path,
        destination: destination.map(number_16),
        limit: limit.map(number_32),
        most: number_32(most),
    }
}
