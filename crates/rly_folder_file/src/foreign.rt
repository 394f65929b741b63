// Files of a folder whose names aren't the folder's.
use crate::place::SubFolder;

/// The files with foreign names that were seen in listings: they are ignored.
#[derive(Drop)]
pub struct Foreign {
    /// The number seen, each again in each listing.
    pub seen: u64,
    /// The first: where, and its name if that is text.
    pub first: Option<(SubFolder, String)>,
}

impl Foreign {
    /// None were seen.
    pub(crate) fn new() -> Self {
        Foreign {
            seen: 0,
            first: None,
        }
    }

    /// Counts one more, and keeps its name if it is the first.
    pub(crate) fn add(&mut self, sub: SubFolder, name: Option<String>) {
        self.seen = self.seen.saturating_add(1);
        if let (None, Some(name)) = (&self.first, name) {
            self.first = Some((sub, name));
        }
    }
}
