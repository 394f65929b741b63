// The calls of the system for a folder's files.
ghost use Rattle.std.specs.Prelude.{◌≡◌, IfOk, string_bytes};
ghost use Rattle.rly_folder_file.specs.Root.{root_own, root_path};

use crate::fault::{OpenFault, PlaceFault, at};
use crate::permission::{file_mode, lock_mode};
use crate::place::{Place, SubFolder};
use std::alloc::Global;
use std::fs::{File, Files, Metadata, OpenOptions, Permissions};
use std::io::{ErrorKind, Read, Write};
use std::os::unix::fs::{MetadataExt, OpenOptionsExt, PermissionsExt};
use std::{fs, io};

/// A folder's path, the name of the hidden file of the program that uses it, and the folder's permissions and device.
#[derive(Drop)]
pub(crate) struct Root<H> {
    pub(crate) host: H,
    pub(crate) alloc: Global,
    path: String,
    own: String,
    pub(crate) mode: u32,
    pub(crate) device: u64,
}

/// The permissions of a file while it is made.
const OWNER_ONLY: u32 = 0o600;

impl<H: Files<File = File> + Drop> Root<H> {
    /// Looks at the folder of a path.
    pub(crate) fn open(host: H, alloc: Global, path: &str, own: &str) -> Result<Self, OpenFault>
        ensures path { IfOk result (λ root. root_path root ≡ path.now) }
        ensures own { IfOk result (λ root. root_own root ≡ own.now) }
    {
        let found = at(Place::Folder, fs::metadata(&host, path))?;
        if !found.is_dir() {
            return Err(OpenFault::NotAFolder);
        }
        Ok(Root {
            path: owned(alloc, path)?,
            own: owned(alloc, own)?,
            host,
            alloc,
            mode: found.permissions().mode(),
            device: found.dev(),
        })
    }

    /// The path of a place.
    pub(crate) fn path_of(&self, place: Place) -> io::Result<String> {
        let path = self.path.as_str();
        let own = self.own.as_str();
        Ok(match place {
            Place::Hidden => format!(in self.alloc; "{path}/.{own}")?,
            Place::Trial => format!(in self.alloc; "{path}/.{own}.trial")?,
            Place::TrialLink => format!(in self.alloc; "{path}/.{own}.link")?,
            Place::Lock => format!(in self.alloc; "{path}/.{own}.lock")?,
            Place::Folder => String::from_str(self.alloc, path)?,
            Place::Sub(_) | Place::File(_) => format!(in self.alloc; "{path}/{place}")?,
        })
    }

    /// Looks at what is at a place, through a symbolic link.
    pub(crate) fn look(&self, place: Place) -> Result<Metadata, PlaceFault> {
        at(place, self.metadata_of(place))
    }

    fn metadata_of(&self, place: Place) -> io::Result<Metadata> {
        let path = self.path_of(place)?;
        fs::metadata(&self.host, path.as_str())
    }

    /// Makes a sub-folder if it is missing; returns whether it was.
    pub(crate) fn make(&self, sub: SubFolder) -> Result<bool, PlaceFault> {
        let place = Place::Sub(sub);
        let path = at(place, self.path_of(place))?;
        match fs::create_dir(&self.host, path.as_str()) {
            Ok(()) => Ok(true),
            Err(word) if word.kind() == ErrorKind::AlreadyExists => Ok(false),
            Err(word) => Err(PlaceFault { place, word }),
        }
    }

    /// Sets the permissions of a sub-folder.
    pub(crate) fn set_mode(&self, sub: SubFolder, mode: u32) -> io::Result<()> {
        let path = self.path_of(Place::Sub(sub))?;
        fs::set_permissions(&self.host, path.as_str(), Permissions::from_mode(mode))
    }

    /// Makes the names in a folder durable.
    pub(crate) fn sync(&self, place: Place) -> Result<(), PlaceFault> {
        at(place, self.sync_names(place))
    }

    fn sync_names(&self, place: Place) -> io::Result<()> {
        let path = self.path_of(place)?;
        File::open(&self.host, path.as_str())?.sync_all()
    }

    /// Writes a new file of this program, hidden and durable, and returns it open.
    pub(crate) fn write(&self, bytes: &[u8]) -> Result<File, PlaceFault> {
        self.remove(Place::Hidden)?;
        at(Place::Hidden, self.write_new(bytes))
    }

    fn write_new(&self, bytes: &[u8]) -> io::Result<File> {
        let path = self.path_of(Place::Hidden)?;
        let mut file = OpenOptions::new()
            .write(true)
            .create_new(true)
            .mode(OWNER_ONLY)
            .open(&self.host, path.as_str())?;
        file.set_permissions(Permissions::from_mode(file_mode(self.mode)))?;
        file.write_all(bytes)?;
        file.sync_all()?;
        Ok(file)
    }

    /// Makes the file of a trial, if it isn't there.
    pub(crate) fn make_trial(&self) -> Result<(), PlaceFault> {
        at(Place::Trial, self.open_or_make(Place::Trial))?;
        Ok(())
    }

    /// Opens the file that is locked, which is made if it is missing.
    pub(crate) fn open_lock(&self) -> Result<File, PlaceFault> {
        let file = at(Place::Lock, self.open_or_make(Place::Lock))?;
        // Only its owner can set them, and has done so.
        let _ = file.set_permissions(Permissions::from_mode(lock_mode(self.mode)));
        Ok(file)
    }

    fn open_or_make(&self, place: Place) -> io::Result<File> {
        let path = self.path_of(place)?;
        OpenOptions::new()
            .read(true)
            .write(true)
            .create(true)
            .mode(OWNER_ONLY)
            .open(&self.host, path.as_str())
    }

    /// Gives a file a second name; returns false if that is taken.
    pub(crate) fn link(&self, from: Place, to: Place) -> Result<bool, PlaceFault> {
        match self.link_to(from, to) {
            Ok(()) => Ok(true),
            Err(word) if word.kind() == ErrorKind::AlreadyExists => Ok(false),
            Err(word) => Err(PlaceFault { place: to, word }),
        }
    }

    fn link_to(&self, from: Place, to: Place) -> io::Result<()> {
        let path = self.path_of(from)?;
        let other = self.path_of(to)?;
        fs::hard_link(&self.host, path.as_str(), other.as_str())
    }

    /// Gives a file another name; returns false if it isn't there.
    pub(crate) fn rename(&self, from: Place, to: Place) -> Result<bool, PlaceFault> {
        match self.rename_to(from, to) {
            Ok(()) => Ok(true),
            // The sub-folder of the new name may be missing too.
            Err(word) if word.kind() == ErrorKind::NotFound && !self.is_there(from)? => Ok(false),
            Err(word) => Err(PlaceFault { place: to, word }),
        }
    }

    fn rename_to(&self, from: Place, to: Place) -> io::Result<()> {
        let path = self.path_of(from)?;
        let other = self.path_of(to)?;
        fs::rename(&self.host, path.as_str(), other.as_str())
    }

    fn is_there(&self, place: Place) -> Result<bool, PlaceFault> {
        Ok(!matches!(self.kind_of(place)?, Kind::Missing))
    }

    /// What is at a place.
    pub(crate) fn kind_of(&self, place: Place) -> Result<Kind, PlaceFault> {
        let path = at(place, self.path_of(place))?;
        match fs::symlink_metadata(&self.host, path.as_str()) {
            Ok(found) if found.is_file() => Ok(Kind::File),
            Ok(_) => Ok(Kind::Other),
            Err(word) if word.kind() == ErrorKind::NotFound => Ok(Kind::Missing),
            Err(word) => Err(PlaceFault { place, word }),
        }
    }

    /// Removes a file; returns false if it isn't there.
    pub(crate) fn remove(&self, place: Place) -> Result<bool, PlaceFault> {
        let path = at(place, self.path_of(place))?;
        self.remove_path(place, path.as_str())
    }

    /// Removes the file of a path.
    pub(crate) fn remove_path(&self, place: Place, path: &str) -> Result<bool, PlaceFault> {
        match fs::remove_file(&self.host, path) {
            Ok(()) => Ok(true),
            Err(word) if word.kind() == ErrorKind::NotFound => Ok(false),
            Err(word) => Err(PlaceFault { place, word }),
        }
    }

    /// Reads the first bytes of a file, if it is there.
    pub(crate) fn read(&self, place: Place, most: usize) -> Result<Option<Vec<u8>>, PlaceFault> {
        match self.read_bytes(place, most) {
            Ok(bytes) => Ok(Some(bytes)),
            Err(word) if word.kind() == ErrorKind::NotFound => Ok(None),
            Err(word) => Err(PlaceFault { place, word }),
        }
    }

    fn read_bytes(&self, place: Place, most: usize) -> io::Result<Vec<u8>> {
        let path = self.path_of(place)?;
        let file = File::open(&self.host, path.as_str())?;
        let mut bytes = Vec::new(self.alloc);
        file.take(most as u64).read_to_end(&mut bytes)?;
        Ok(bytes)
    }
}

/// What has a name.
#[derive(Clone, Copy, Drop)]
pub(crate) enum Kind {
    Missing,
    /// A regular file.
    File,
    /// A folder, a symbolic link, a pipe or another file that has no payload.
    Other,
}

fn owned(alloc: Global, text: &str) -> Result<String, PlaceFault>
    ensures { IfOk result (λ owned. string_bytes owned ≡ text.now) }
{
    match String::from_str(alloc, text) {
        Ok(owned) => Ok(owned),
        Err(refused) => {
            let word = io::Error::from(refused);
            Err(PlaceFault {
                place: Place::Folder,
                word,
            })
        }
    }
}
