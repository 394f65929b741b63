//! The folders that a station watches.

ghost use Rattle.std.specs.Prelude.{◌≡◌, IfOk, map, string_bytes};
ghost use Rattle.rly_link_udp.specs.FolderWatch.{path_of};
ghost use Rattle.rly_posts.specs.WatchedFolders.{sub_folder_of, watched_folders, watched_path};

use rly_folder_file::SubFolder;
use rly_link::Worker;
use rly_link_udp::FolderPath;
use rly_station::KeyedWorker;
use std::alloc::{AllocError, Global};

/// The folders of these links, each with its worker, and the path of the sub-folder that other programs change.
pub(crate) fn watched_folders(
    alloc: Global,
    links: &[KeyedWorker<'_>],
) -> Result<Vec<FolderPath>, AllocError>
    ensures { IfOk result (λ found. map path_of found.items ≡ watched_folders links.now) }
{
    let mut found = Vec::new(alloc);
    for link in links {
        if let Some(folder) = &link.folder {
            let worker = link.worker;
            let path = watched_path(alloc, worker, folder.as_str())?;
            found.push(FolderPath { worker, path })?;
        }
    }
    Ok(found)
}

/// The path of the sub-folder of a worker's folder that other programs change.
fn watched_path(alloc: Global, worker: Worker, folder: &str) -> Result<String, AllocError>
    ensures { IfOk result (λ path. string_bytes path ≡ watched_path worker folder.now) }
{
    let mut path = String::from_str(alloc, folder)?;
    path.push('/')?;
    path.push_str(sub_folder_of(worker).name())?;
    Ok(path)
}

/// The sub-folder of a worker's folder that other programs change: a peer's files come, and a hop's are taken.
fn sub_folder_of(worker: Worker) -> SubFolder
    ensures { result ≡ sub_folder_of worker }
{
    match worker {
        Worker::Receiver(_) => SubFolder::New,
        Worker::Sender(_) => SubFolder::Out,
    }
}
