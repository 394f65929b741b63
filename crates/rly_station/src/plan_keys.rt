//! The keys and the folders of a plan's links, and their paths.

ghost use Rattle.std.specs.Prelude.{◌≡◌, IfOk, option_copied, option_map, string_bytes};
ghost use Rattle.rly_station.specs.Keys.{AreFoldersOf, AreKeysOf, folder_of, folder_path_of, key_file_of, key_in};
ghost use Rattle.rly_station.specs.Keys.{path_beside, worker_and_file, worker_and_folder};
ghost use Rattle.rly_plan.specs.Sound.{IsSoundPlan};

use crate::key_fault::{KeyFault, KeyWord};
use crate::plan_file::is_special;
use crate::serve_fault::ServeFault;
use crate::workers::{neighbour_of, workers_of};
use rly_link::Worker;
use rly_link_auth::{Key, LINE_BYTES};
use rly_plan::{FolderEnd, Plan, PlanPath};
use std::alloc::{AllocError, Global};
use std::fs::{File, Files};
use std::marker::Model;
use std::os::unix::fs::{FileExt, PermissionsExt};
use std::path::Path;

/// The number of bytes read of a file: one more than the longest key file has.
const MOST: usize = 2 * LINE_BYTES + 1;

/// The permission bits of others than a file's owner.
const OTHERS: u32 = 0o077;

/// The key of a link, and the file in which the plan names it.
#[derive(Drop)]
pub struct NamedKey<'a> {
    file: &'a PlanPath,
    key: Key,
}

impl<'a> Model for NamedKey<'a> {
    ghost use Rattle.rly_station.specs.NamedKey.{KeyOfFile};

    ghost Value = { KeyOfFile };

    ghost view = { λ k. record { file = k.file.now; keys = k.key } };
}

impl<'a> NamedKey<'a> {
    /// The key.
    pub fn into_key(self) -> Key
        ensures { result ≡ self.entry.keys }
    {
        self.key
    }
}

/// A worker of a plan, and the key or the folder of its link, if it has one.
#[derive(Drop)]
pub struct KeyedWorker<'a> {
    /// Its identity.
    pub worker: Worker,
    /// The key, if the plan names a file.
    pub key: Option<NamedKey<'a>>,
    /// The path of the folder that plays its neighbour, if the plan names one. It wasn't opened.
    pub folder: Option<String>,
}

/// The keys of a plan's links.
#[derive(Drop)]
pub struct PlanKeys<'a> {
    links: Vec<KeyedWorker<'a>>,
}

impl<'a> Model for PlanKeys<'a> {
    ghost use Rattle.std.specs.Prelude.{List};
    ghost use Rattle.rly_station.specs.declared.plan_keys.KeyedWorker.{KeyedWorker};

    ghost Value = { List KeyedWorker };

    ghost view = { λ k. k.links.items };
}

impl<'a> PlanKeys<'a> {
    /// The workers, each with the key of its link.
    pub fn into_links(self) -> Vec<KeyedWorker<'a>>
        ensures { result.items ≡ self.entry }
    {
        self.links
    }
}

/// Reads the keys of a plan's links from the files that the plan names. Their paths, and those of folders that play
/// neighbours, begin at the folder of the plan's own file, which is at `path`.
pub fn read_keys<'a, H: AllocGlobal + Files<File = File>>(
    rt: &H,
    plan: &'a Plan,
    path: &str,
) -> Result<PlanKeys<'a>, ServeFault>
    requires sound { IsSoundPlan plan.now }
    // The link of each worker has the key of the file that the plan names for it, and no key if it names none.
    ensures keys { IfOk result (λ keys. AreKeysOf plan.now keys) }
    // And it has the path of the folder that the plan names for it, and no path if it names none.
    ensures folders { IfOk result (λ keys. AreFoldersOf path.now plan.now keys) }
{
    let mut links = Vec::new(rt.alloc());
    for worker in workers_of(rt.alloc(), plan)? {
        let link = worker_with_key(rt, plan, worker, path)?;
        if links.push(link).is_err() {
            return Err(AllocError.into());
        }
    }
    Ok(PlanKeys { links })
}

/// A worker, and the key or the folder of its link.
fn worker_with_key<'a, H: AllocGlobal + Files<File = File>>(
    rt: &H,
    plan: &'a Plan,
    worker: Worker,
    path: &str,
) -> Result<KeyedWorker<'a>, ServeFault>
    ensures key { IfOk result (λ link. worker_and_file link ≡ (worker, key_file_of plan.now worker)) }
    ensures folder { IfOk result (λ link. worker_and_folder link ≡ (worker, folder_path_of path.now plan.now worker)) }
{
    let key = match key_file_of(plan, worker) {
        Some(file) => Some(read_key(rt, worker, file, path)?),
        None => None,
    };
    let folder = folder_beside(rt.alloc(), plan, worker, path)?;
    Ok(KeyedWorker {
        worker,
        key,
        folder,
    })
}

/// The path of the folder that plays a worker's neighbour, if the plan names one.
fn folder_beside(
    alloc: Global,
    plan: &Plan,
    worker: Worker,
    path: &str,
) -> Result<Option<String>, AllocError>
    ensures { IfOk result (λ folder. option_map string_bytes folder ≡ folder_path_of path.now plan.now worker) }
{
    match folder_of(plan, worker) {
        Some(folder) => Ok(Some(path_beside(alloc, path, folder.path.path())?)),
        None => Ok(None),
    }
}

/// The folder that plays a worker's neighbour, if the plan names one.
fn folder_of(plan: &Plan, worker: Worker) -> Option<&FolderEnd>
    ensures { option_copied result ≡ folder_of plan.now worker }
{
    neighbour_of(plan, worker)?.far.folder()
}

/// The key file of a worker's link, if the plan names one.
fn key_file_of(plan: &Plan, worker: Worker) -> Option<&PlanPath>
    ensures { option_copied result ≡ key_file_of plan.now worker }
{
    neighbour_of(plan, worker)?.far.key()
}

/// Reads the key in a file that a plan names.
fn read_key<'a, H: AllocGlobal + Files<File = File>>(
    rt: &H,
    worker: Worker,
    file: &'a PlanPath,
    plan: &str,
) -> Result<NamedKey<'a>, ServeFault>
    ensures { IfOk result (λ key. key.file ≡ file.now) }
{
    let path = path_beside(rt.alloc(), plan, file.path())?;
    match key_in_file(rt, path.as_str()) {
        Ok(key) => Ok(NamedKey { file, key }),
        Err(word) => Err(ServeFault::Key(KeyFault { worker, path, word })),
    }
}

/// The path of a key file or a folder, from the path of the plan and the one that the plan names.
fn path_beside(alloc: Global, plan: &str, named: &str) -> Result<String, AllocError>
    ensures { IfOk result (λ path. string_bytes path ≡ path_beside plan.now named.now) }
{
    let folder = Path::new(plan).parent().unwrap_or(Path::new(""));
    Ok(folder.join(alloc, named)?.into_string())
}

/// Reads the key in a file.
fn key_in_file<H: Files<File = File>>(files: &H, path: &str) -> Result<Key, KeyWord> {
    if is_special(files, path) {
        return Err(KeyWord::Special);
    }
    let file = File::open(files, path)?;
    let found = file.metadata()?;
    let mut text = [0; MOST];
    let length = found.len().min(MOST as u64) as usize;
    file.read_exact_at(&mut text[..length], 0)?;
    key_in(found.permissions().mode(), &text[..length])
}

/// The key in a file with these permissions and this text: refused if others than its owner may read, write or
/// execute it.
pub fn key_in(mode: u32, text: &[u8]) -> Result<Key, KeyWord>
    ensures { result ≡ key_in mode text.now }
{
    if mode & OTHERS != 0 {
        return Err(KeyWord::Shared(mode & OTHERS));
    }
    match Key::read(text) {
        Some(key) => Ok(key),
        None => Err(KeyWord::Form),
    }
}
