// A set of sub-folders.
ghost use Rattle.std.specs.Prelude.{◌≡◌, true};
ghost use Rattle.rly_folder_file.specs.SubFolders.{HasNone, has_sub, with_sub};

use crate::place::SubFolder;

/// Which sub-folders were touched since the last sync.
#[derive(Clone, Copy, Drop)]
pub(crate) struct SubFolders {
    in_new: bool,
    in_sent: bool,
    in_refused: bool,
    in_out: bool,
}

impl SubFolders {
    ghost use Rattle.rly_folder_file.specs.declared.place.SubFolder.{SubFolder as ASubFolder};

    pub(crate) fn all() -> Self
        ensures { (sub : ASubFolder) → has_sub result sub ≡ true }
    {
        SubFolders {
            in_new: true,
            in_sent: true,
            in_refused: true,
            in_out: true,
        }
    }

    pub(crate) fn none() -> Self
        ensures { HasNone result }
    {
        SubFolders {
            in_new: false,
            in_sent: false,
            in_refused: false,
            in_out: false,
        }
    }

    pub(crate) fn add(&mut self, sub: SubFolder)
        ensures { self.new ≡ with_sub self.old sub }
    {
        match sub {
            SubFolder::New => self.in_new = true,
            SubFolder::Sent => self.in_sent = true,
            SubFolder::Refused => self.in_refused = true,
            SubFolder::Out => self.in_out = true,
        }
    }

    pub(crate) fn has(&self, sub: SubFolder) -> bool
        ensures { result ≡ has_sub self.now sub }
    {
        match sub {
            SubFolder::New => self.in_new,
            SubFolder::Sent => self.in_sent,
            SubFolder::Refused => self.in_refused,
            SubFolder::Out => self.in_out,
        }
    }
}
