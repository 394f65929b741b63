//! A shelf that is the system's file system.

use crate::shelf::Shelf;
use crate::shelf_fault::ShelfFault;
use std::alloc::Global;
use std::fs::{File, Files, OpenOptions};
use std::io::{ErrorKind, Read, Write};
use std::os::unix::fs::OpenOptionsExt;
use std::{fs, io};

/// The permissions of a file that anyone may read, as far as the `umask` lets them.
const READABLE: u32 = 0o666;

/// The permissions of a key.
const OWNER_ONLY: u32 = 0o600;

/// The system's file system. A file is written to a hidden name in its folder, `.NAME.new`, synced and renamed. Nothing can be
/// proved of a real file system, so this shelf tells no calls.
#[derive(Drop)]
pub struct FileShelf<'a, H> {
    host: &'a H,
    alloc: Global,
}

impl<'a, H: Files<File = File>> FileShelf<'a, H> {
    /// The files of a host.
    pub fn new(alloc: Global, host: &'a H) -> Self {
        FileShelf { host, alloc }
    }

    /// The bytes of a file, if it is there. Anything but a regular file is an error: its reading could wait for ever.
    fn bytes_of(&self, path: &str) -> io::Result<Option<Vec<u8>>> {
        match fs::metadata(self.host, path) {
            Ok(found) if !found.is_file() => Err(io::Error::from(ErrorKind::InvalidInput)),
            Ok(_) => self.read(path),
            Err(word) if word.kind() == ErrorKind::NotFound => Ok(None),
            Err(word) => Err(word),
        }
    }

    fn read(&self, path: &str) -> io::Result<Option<Vec<u8>>> {
        let mut bytes = Vec::new(self.alloc);
        let mut file = File::open(self.host, path)?;
        file.read_to_end(&mut bytes)?;
        Ok(Some(bytes))
    }

    /// Replaces a file in one step.
    fn replace_file(&self, path: &str, bytes: &[u8]) -> io::Result<()> {
        let (folder, hidden) = self.ready(path)?;
        self.write(hidden.as_str(), bytes, READABLE)?;
        fs::rename(self.host, hidden.as_str(), path)?;
        self.sync_folder(folder)
    }

    /// Makes a file under a name that nobody has: a hard link never takes one that is there.
    fn make_file(&self, path: &str, bytes: &[u8]) -> io::Result<()> {
        let (folder, hidden) = self.ready(path)?;
        self.write(hidden.as_str(), bytes, OWNER_ONLY)?;
        let linked = fs::hard_link(self.host, hidden.as_str(), path);
        fs::remove_file(self.host, hidden.as_str())?;
        linked?;
        self.sync_folder(folder)
    }

    /// The folder of a file, which is made if it is missing, and the file's hidden name there.
    fn ready<'b>(&self, path: &'b str) -> io::Result<(&'b str, String)> {
        let (folder, name) = folder_and_name(path);
        let parents = self.parents_of_missing(folder)?;
        if !parents.is_empty() {
            fs::create_dir_all(self.host, folder)?;
        }
        for parent in &parents {
            self.sync_folder(*parent)?;
        }
        let hidden = format!(in self.alloc; "{folder}/.{name}.new")?;
        Ok((folder, hidden))
    }

    /// The folders in which a missing folder, and those on its path that are missing too, are to be made.
    fn parents_of_missing<'b>(&self, folder: &'b str) -> io::Result<Vec<&'b str>> {
        let mut parents = Vec::new(self.alloc);
        let mut missing = folder;
        for _ in 0..folder.len() {
            if fs::exists(self.host, missing)? {
                return Ok(parents);
            }
            let (parent, _name) = folder_and_name(missing);
            parents.push(parent)?;
            missing = parent;
        }
        Ok(parents)
    }

    /// Writes a hidden file anew, durably.
    fn write(&self, hidden: &str, bytes: &[u8], mode: u32) -> io::Result<()> {
        match fs::remove_file(self.host, hidden) {
            Err(word) if word.kind() != ErrorKind::NotFound => return Err(word),
            _ => {}
        }
        let mut file = OpenOptions::new()
            .write(true)
            .create_new(true)
            .mode(mode)
            .open(self.host, hidden)?;
        file.write_all(bytes)?;
        file.sync_all()
    }

    /// Makes the names in a folder durable.
    fn sync_folder(&self, folder: &str) -> io::Result<()> {
        File::open(self.host, folder)?.sync_all()
    }

    /// The outcome of a call for the file of a path.
    fn at<T>(&self, path: &str, outcome: io::Result<T>) -> Result<T, ShelfFault> {
        match outcome {
            Ok(value) => Ok(value),
            Err(word) => Err(ShelfFault {
                path: String::from_str(self.alloc, path).unwrap_or(String::new(self.alloc)),
                word,
            }),
        }
    }
}

/// The folder of a path, and the name there.
fn folder_and_name(path: &str) -> (&str, &str) {
    match path.rsplit_once('/') {
        Some(("", name)) => ("/", name),
        Some((folder, name)) => (folder, name),
        None => (".", path),
    }
}

impl<'a, H: Files<File = File>> Shelf for FileShelf<'a, H> {
    ghost use Rattle.std.specs.Prelude.{None};

    ghost calls = { λ shelf. None };

    fn look(&mut self, path: &str) -> Result<Option<Vec<u8>>, ShelfFault> {
        self.at(path, self.bytes_of(path))
    }

    fn replace(&mut self, path: &str, bytes: &[u8]) -> Result<(), ShelfFault> {
        self.at(path, self.replace_file(path, bytes))
    }

    fn make(&mut self, path: &str, bytes: &[u8]) -> Result<(), ShelfFault> {
        self.at(path, self.make_file(path, bytes))
    }
}
