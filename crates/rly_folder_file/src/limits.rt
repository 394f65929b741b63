// The age limits in the names of files.
ghost use Rattle.std.specs.Prelude.{◌<◌, ◌^◌, IfSome};

use crate::place::Numbered;
use rly_folder::{Area, Name};
use std::alloc::{AllocError, Global};

/// A file whose name has a limit.
#[derive(Clone, Copy, Drop)]
struct Limited {
    name: Name,
    limit: u64,
    ghost limit_fits: { limit < 2 ^ 40 },
}

/// The limits of a folder's files, as far as they were listed, or given since. A file that has none, or that is gone, may
/// be among them: they only say where to look.
#[derive(Drop)]
pub(crate) struct Limits {
    files: Vec<Limited>,
}

impl Limits {
    /// None are known.
    pub(crate) fn new(alloc: Global) -> Self {
        Limits {
            files: Vec::new(alloc),
        }
    }

    /// Returns the limit of a name's file, if one is known.
    pub(crate) fn get(&self, name: Name) -> Option<u64>
        ensures { IfSome result (λ limit. limit < 2 ^ 40) }
    {
        for file in &self.files {
            if file.name.is(name) {
                return Some(file.limit);
            }
        }
        None
    }

    /// Adds the limit of a file, if it has one.
    pub(crate) fn add(&mut self, area: Area, file: Numbered) -> Result<(), AllocError> {
        if file.limit == 0 {
            return Ok(());
        }
        let name = Name {
            area,
            number: file.number,
        };
        self.files.push(Limited {
            name,
            limit: file.limit,
        })?;
        Ok(())
    }

    /// Forgets the limits of a name's files.
    pub(crate) fn forget(&mut self, name: Name) {
        self.files.retain(|file| !file.name.is(name));
    }

    /// Forgets those of an area's files.
    pub(crate) fn forget_area(&mut self, area: Area) {
        self.files.retain(|file| file.name.area != area);
    }
}
